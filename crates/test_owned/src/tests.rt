//! Worked examples, and comparisons that cross crates.

mod budgets;
mod bulk;
mod counted;
mod faces;
mod held;
mod hostile;
mod iterators;
mod leaks;
mod neighbours;
mod rows;
mod scans;
mod shared_values;
mod shrinking;
mod sizes;
mod statistics;
mod steps;
mod table;
mod walks;
