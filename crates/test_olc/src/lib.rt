//! Tests of the protocol: lock words and pins, the machine call by call, and what a schedule can't say: budgets, refusals, owners, the
//! ends of counters, and calls beside the owned map.
#![tactic(auto)]

#[cfg(test)]
mod tests;
