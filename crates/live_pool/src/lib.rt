//! A map with what its guards have left over, for other guards.
//!
//! A guard that has inserted has words for further nodes to itself, of 512 KiB at most. They are the map's for good, so they
//! would be lost with the guard. Here its room goes to the next guard instead: as many rooms are in use as there were guards
//! at one time. A guard also keeps a node or two of each form that were taken out of the map, and gives further ones to all.
//! After a call that made nodes or took some out, the guard takes one of each form that it has none of. A call that lacks a node
//! looks for one among those before it asks for memory (`supply`). Where a writer is busy at a node that a removal would take out,
//! a later call takes it out. So a map that changes for ever has few more nodes than it needs.
//!
//! A pop searches the pair, and then removes it if its value is still the one found. So each pair goes to one caller. Each key
//! that the search passed was absent at a moment of the call. A key that another thread inserts there meanwhile stays (`pops`). A
//! removal of a range searches so, too, and removes all pairs of the leaf that it found at one moment (`removals`). A `retain` reads
//! pages, asks a closure about each pair, and removes a pair with the value that it was asked about.
//!
//! Tested in `test_live_calls`, and pops in `test_live_faces`.
#![tactic(auto)]

pub mod calls;
mod cleanup_queue;
mod ends;
pub mod free_list;
pub mod pool;
pub mod pops;
pub mod removals;
pub mod retains;
mod slot;
pub mod succession;
mod supply;
pub mod upkeep;
pub mod waits;
