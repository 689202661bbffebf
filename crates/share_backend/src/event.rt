//! The event of a call.
//!
//! Tested in `share_maps` and `test_share_guards`.

use spec_olc::types::{Outcome, Report};

/// An event of a call: its report, and how the call goes on.
#[derive(Drop)]
pub struct EventResult<P> {
    pub report: Report,
    pub outcome: Outcome<P>,
}
