mod charges;
mod drained;
mod guards;
mod owners;
mod rows;
