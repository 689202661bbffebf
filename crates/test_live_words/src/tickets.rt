//! Owners under tickets, by one thread and by four.

mod alone;
mod churn;
mod refusals;
mod rows;
mod withdrawals;
