//! A call that is kept from the map under a lock. The definitions of `specs/` go by these types, so they are no part of the tests.

use spec_olc::types::Op;

/// How far a call is that is kept from the map below.
#[derive(Clone, Copy)]
pub enum Delay {
    Begun,
    Asked(Option<u64>),
    Settled,
    Denied,
}

/// A call that the map below doesn't know yet, or has ended.
#[derive(Drop)]
pub struct Delayed {
    pub id: u64,
    pub op: Op<u64>,
    pub stage: Delay,
}
