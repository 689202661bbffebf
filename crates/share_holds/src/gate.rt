//! What is called between the events of a call.
//!
//! Tested in `share_maps/rows` and `test_share_guards/gates`.

use spec_olc::types::Report;

/// Is called after each event of a call but the Finish, while the lock is free.
pub trait Gate {
    fn between(&mut self, report: &Report);
}

/// A gate that does nothing.
#[derive(Clone, Copy)]
pub struct NoGate;

impl Gate for NoGate {
    fn between(&mut self, _report: &Report) {}
}
