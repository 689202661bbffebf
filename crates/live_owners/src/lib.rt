//! A map from keys to owners that threads share, for C and Rust. Look-ups take no lock, and write no word that others write.
//!
//! An owner is a number, such as the address of a counted object. The map reads no memory through it. Its values are *tickets*,
//! numbers that are issued once, and the owners lie in a table under these tickets (`word_owners`).
//!
//! - `get` lends the owner of a key to the handle. Until the loan ends the owner comes back to nobody, whoever removes the key.
//! - `insert`, `remove`, `compare_exchange` and `compare_remove` retire the ticket that left the map, and lend its owner to the
//!   handle first. So a caller sees what was there before.
//! - `get_or_insert` lends what is there, or stores an owner.
//! - `ceiling`, `floor` and pages have keys with their tickets, and `lend` has the owner of a ticket.
//! - `reclaim` returns an owner that left the map and that no handle has lent, each once: now it can be released. `drain` empties
//!   the map, and returns one owner after another.
//!
//! No call waits. A call answers `Busy` where other threads came in between too often. A refused insertion gives its owner back, at
//! once or by a later `reclaim`.
//!
//! No clause states that a look-up finds the owner of a ticket that is in the map, that the owner before is lent, that a refused
//! owner is given back, or that `reclaim` finds one that nobody has lent. Tests do.
//!
//! Tested in `test_live_words/maps`.
#![tactic(auto)]

mod drains;
mod exchanges;
pub mod handle;
pub mod map;
mod readers;
mod updates;
