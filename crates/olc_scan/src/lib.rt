//! The events of a range. It looks at the tree from its cursor on, and returns the pairs that it finds.
//!
//! Each is a function over the current nodes. The call that it returns, and what it reports, are those of the event
//! that `spec_olc` defines, in any state that shows these nodes.
//!
//! Tested in `tools/dev/try-schedules` and `test_olc/range_owners`.
#![tactic(auto)]

pub mod course;
pub mod scanning;
pub mod stepping;
