//! What users of the map name: `congee::sharded`.

pub use crate::typed_congee::{Busy, Congee, Guard, Refusal, Shards, meet};
pub use share_calls::note::Note;
