//! The map that threads read without a lock: of numbers, of payloads and of owners.

pub use congee_live::{
    Busy, Congee, CongeeArc, Guard, Lent, Note, PayloadCongee, PayloadGuard, Refusal, learn, meet,
    meet_owners, share,
};
