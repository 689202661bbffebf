mod numbers;
mod owners;
mod refusals;
mod rows;
mod settled;
mod threads;
mod typed;
mod upward;
