//! The events of a call that cleans up, on its way down to the node for which it does: Take, Read and Check.
//!
//! Each is a function over the current nodes. The call that it returns, and what it reports, are those of the event
//! that `spec_olc` defines, in any state that shows these nodes.
//!
//! Tested in `tools/dev/try-schedules`.
#![tactic(auto)]

mod checking;
mod reading;
pub mod seeking;
mod taking;
