//! The map that threads read without a lock: of numbers, of payloads and of owners. With it what its callers may conclude
//! (`guard_laws`).
//!
//! Tested in `test_live_faces` and `test_live_payloads`.
#![tactic(auto)]

pub use live_faces::live::{Busy, Congee, Guard, Note, Refusal, learn, meet};
pub use live_payloads::live::{
    CongeeArc, Lent, PayloadCongee, PayloadGuard, meet as meet_owners, share,
};
pub use share_laws::laws as guard_laws;
pub use spec_map::error::OOMError;
pub use spec_map::payload::Payload;
pub use spec_map::traits::Word;
