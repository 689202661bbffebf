//! The result of the first event of a call.
//!
//! Tested in `share_maps` and `test_share_guards/changes`.

use crate::seat::CallSeat;
use spec_olc::types::Reply;

/// A call after its first event.
#[derive(Drop)]
pub(crate) enum Opened<P> {
    /// It has this reply, and is over: its number's seat is unchanged.
    Over(Reply<P>),
    /// It runs, with this seat, and its closure is asked with this payload.
    Asks(CallSeat<P>, Option<P>),
}
