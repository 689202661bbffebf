//! The maps that threads share, under the names that their users know. Over the protocol's machine, each event of a
//! call takes one hold of the lock. Over the tree with one owner, each call without a closure takes one hold.
#![tactic(auto)]

pub mod locked;
pub mod shared;
#[cfg(test)]
mod tests;
