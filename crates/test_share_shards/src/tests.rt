mod ends;
mod points;
mod refused;
mod threads;
mod whole;
