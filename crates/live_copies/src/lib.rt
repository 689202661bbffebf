//! All pairs of one moment, of a map that threads read without a lock.
//!
//! The nodes are locked one by one, those below before those above, and each leaf's pairs are copied. Once the root is locked,
//! no node of the map can change. At that moment the caller learns the whole history, and that it leads to these pairs. Then
//! all nodes are unlocked.
//!
//! `moves` moves all pairs by that: into a snapshot, a map with one owner, and back from that.
//!
//! Tested in `test_live_calls` and `test_live_faces`.
#![tactic(auto)]

mod children;
pub mod copy;
mod leaf;
mod locks;
pub mod moves;
mod names;
pub mod numbers;
mod on_check;
mod walk;
mod whole;
