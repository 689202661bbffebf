//! The maps with one owner: what `congee` has but the forms for threads and the calls as data.
//!
//! Tested in `test_owned`.
#![tactic(auto)]

pub use face_payloads::congee_arc::{CongeeArc, PayloadCongee};
pub use face_typed::many::InsertManyError;
pub use face_typed::typed_congee::Congee;
pub use face_typed::typed_congee::iter::Iter;
pub use face_u64::u64_congee::U64Congee;
pub use node_base::base_node::NodeSize;
pub use node_stats::NodeStats;
pub use node_stats::levels::{LevelStats, Levels};
pub use node_table::allocator::{Allocator, Budget, DefaultAllocator};
pub use spec_map::error::OOMError;
pub use spec_map::payload::Payload;
pub use spec_map::traits::{Drainer, FnDrain, NoDrain, Word};
