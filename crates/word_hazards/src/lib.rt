//! Hazards: who reads what an owner keeps announces that in a word of its own, and who frees the owner looks at all of these words.
//!
//! A slot has an owner, which is a number, and a ticket that names slot and generation. A reader announces the ticket in its
//! hazard, and then reads the slot's state. If the ticket is still issued, the reader has it lent. Who takes the ticket out
//! retires it, and then scans all hazards. Where none announces it, nobody has it lent or will, and the owner may be freed.
//! So a reader writes no word that other readers write. The protocol is that of hazard pointers (Michael, 2004). No memory is
//! read through an owner here.
//!
//! All words are one book, under one rule. Each function is a step on one word.
//!
//! Tested in `test_live_words/tickets`.
#![tactic(auto)]

pub mod book;
pub mod hazard;
pub mod laws;
pub mod rule;
pub mod scan;
pub mod slot;
