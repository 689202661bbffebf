//! A number that is seated.
//!
//! Tested in `share_maps` and `test_share_guards/changes`.

use spec_olc::types::Op;

/// What a closure was asked with.
#[derive(Drop)]
pub struct Question<P> {
    /// The key of its call.
    pub key: u64,
    /// What was stored at the key, if it was present.
    pub old: Option<P>,
    /// The key's count of changes at that time.
    pub at: u64,
}

/// The state of a number's call.
#[derive(Drop)]
pub enum CallSeat<P> {
    /// There is none.
    Ready,
    /// A `ComputeIfPresent` at this key starts again: what its closure was asked with is gone.
    Fresh(u64),
    /// A `ComputeIfPresent` whose closure was asked with this; the answer, once it is taken.
    Present(Question<P>, Option<Option<P>>),
    /// A `ComputeOrInsert`: what it stores if its closure returns `None`; what the closure was asked with; the answer,
    /// once it is taken.
    Always(P, Question<P>, Option<Option<P>>),
    /// It has its reply.
    Settled(Op<()>),
    /// It was refused.
    Denied(Op<()>),
}
