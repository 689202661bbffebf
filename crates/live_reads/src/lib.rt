//! How a caller reads a map of several levels without a lock.
//!
//! A look-up goes down from the root, and checks each node's version word behind what it read there. The check at which it
//! ends is the moment of the call. A node on the path may have no key that begins like the one that is looked for: the key
//! leaves the path there (`mismatch`).
//!
//! - `path`: the root, and a node that is opened and looked up
//! - `prefix_match`: a step down
//! - `descend`: the path to where a key is, or would be
//! - `last_leaf`: the leaf that a caller has come to last
//! - `get`: a key's value
//! - `meeting`: two callers meet
//!
//! Tested in `test_live_calls`.
#![tactic(auto)]

pub mod descend;
pub mod get;
pub mod last_leaf;
pub mod meeting;
pub mod mismatch;
pub mod path;
pub mod prefix_match;
