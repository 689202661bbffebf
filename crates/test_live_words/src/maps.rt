//! Maps of owners, by one thread and by four.

mod alone;
mod churn;
mod exchanges;
mod memory;
mod readers;
mod refusals;
