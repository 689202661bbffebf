//! The result of an event of a running call.
//!
//! Tested in `share_maps` and `test_share_guards/changes`.

use crate::seat::CallSeat;
use spec_olc::types::{Kind, Outcome};

/// The seat after an event, the kind that the event reports, and how the call goes on.
#[derive(Drop)]
pub(crate) struct Turned<P> {
    pub(crate) seat: CallSeat<P>,
    pub(crate) kind: Kind,
    pub(crate) outcome: Outcome<P>,
}
