//! The map for its users: all of `congee_owned`, the forms that threads share, what their callers may conclude
//! (`guard_laws`), and calls as data.
//!
//! Tested in `test_owned`, `share_maps`, `test_share_guards`, `test_share_shards`, `test_live_faces` and
//! `test_live_payloads`.
#![tactic(auto)]

pub mod live;

pub use congee_owned::{
    Allocator, Budget, Congee, CongeeArc, DefaultAllocator, Drainer, FnDrain, InsertManyError,
    Iter, LevelStats, Levels, NoDrain, NodeSize, NodeStats, OOMError, Payload, PayloadCongee,
    U64Congee, Word,
};
pub use face_runs::{calls, payload_calls, u64_calls};
pub use share_laws::laws as guard_laws;
pub use share_maps::shared::{Guard, Kind, Report};
pub use share_maps::{locked, shared};
pub use share_sharded::sharded;
