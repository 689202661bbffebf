//! The result of one attempt at a call.
//!
//! Tested in `share_maps` and `test_share_guards`.

use spec_olc::types::Reply;

/// The result of one attempt at a call, from its Start on.
#[derive(Drop)]
pub enum Tried<P> {
    Replied(Reply<P>),
    /// Memory was missing.
    Refused,
    /// The call wasn't decided: its number had a call in flight already, or none any more.
    Again,
}
