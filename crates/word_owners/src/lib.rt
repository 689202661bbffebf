//! A table of owners that threads lend to each other without a lock, each under a ticket.
//!
//! An owner is a number, such as an object's address. The table reads no memory through it. A *ticket* is a number of 64 bits
//! that is issued once. What has a ticket, such as a map, leads readers to it.
//!
//! - `insert` puts an owner into a free slot, and returns its ticket.
//! - `lend` returns the owner of a ticket that isn't retired. The handle has it lent then, until its next `lend` or `end`.
//! - `retire` is for who took the ticket out of the map. Nobody gets it lent from then on.
//! - `reclaim` returns owners of retired tickets that no handle has lent, each owner once. So its object may be freed.
//! - `withdraw` returns the owner of a ticket that was shown to nobody. Who couldn't store the ticket has the owner back so.
//!
//! A look-up writes the handle's own hazard, and no word that others write (`word_hazards`).
//!
//! No clause states that `lend` finds an issued ticket, that `reclaim` finds one that nobody has lent, or that slots are used again.
//! Tests do.
//!
//! Tested in `test_live_words/tickets`.
#![tactic(auto)]

mod directory;
pub mod handle;
mod hazards;
pub mod owners;
mod row;
