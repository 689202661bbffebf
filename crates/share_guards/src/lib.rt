//! The calls of a map that threads share, by guards that know what they have seen: each reply is the map's at the end
//! of one legal history that begins with what its guard had seen.
//!
//! Tested in `test_share_guards` and `share_maps/guards`.
#![tactic(auto)]

pub mod calls;
pub mod ends;
pub mod inserting;
pub mod listing;
pub mod many;
pub mod note;
pub mod owned;
pub mod owner_ends;
pub mod pin;
pub mod range;
pub mod raw;
pub mod reads;
pub mod settling;
pub mod upward;
pub mod whole;
