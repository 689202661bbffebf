//! Values in slots that threads share, each under a ticket. A ticket is a number of 64 bits that is issued once.
//!
//! A thread takes a ticket to its slot, reads the value there while the slot counts the thread as a reader, and leaves. Who
//! retires a ticket gets the value lent, too. The last reader of a retired ticket drops the value. So no thread waits for a
//! reader, and no reader waits.
//!
//! Each ticket that is issued is one entry of a log, which exists in proofs alone. So whoever has a ticket, and whoever reads by
//! that ticket, speak of one value.
//!
//! Tested in `test_live_payloads`.
#![tactic(auto)]

pub mod lent;
pub mod log;
pub mod slot;
pub mod slots;
pub mod words;
