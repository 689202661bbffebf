//! A map that threads share: the tree with one owner, and a seat for each number that makes calls.
//!
//! A get, insertion, removal or exchange is decided by its first event: one look-up of the
//! number's seat, which isn't written, and the tree's own call (two for an exchange that changes
//! something). So the whole call takes one hold of a lock, and no other call can come between its
//! parts. Memory is taken only if the tree makes a node. A payload is shared once for the tree and
//! once for the reply, if the call stores or returns one that stays in use; a number is copied.
//!
//! A closure is called outside of the lock. A later event takes its answer. The event after that uses the answer, if
//! what the closure was asked with is still stored: if no change was counted at such keys since (64 counts, by the
//! key's low 6 bits), or else if the key is still absent, or has a value that compares as the same, which owners never
//! do. Otherwise the closure is asked again.
//!
//! A range is no call of this map: it is read by pages, or pair by pair.
//!
//! Tested in `share_maps` and `test_share_guards/changes`.
#![tactic(auto)]

mod ascending;
mod asking;
mod bulk;
mod calls;
mod changes;
mod counted;
pub mod direct;
mod numbers;
mod opened;
mod ordered;
mod owner_ends;
mod owners;
mod payloads;
pub mod seat;
mod turned;
mod turns;
