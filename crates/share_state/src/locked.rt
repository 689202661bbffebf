//! The state of a shared map is under a lock of the rule of `share_rule`.
//!
//! Tested in `test_share_guards`.

use crate::state::LockedState;
use share_backend::lent::{CallStage, Lent};
use share_rule::rule::Protected;
use std::sync::ledger::Ledger;

impl<L: Ledger, P, T, M: Lent<P, T>> Protected<T, CallStage<T>> for LockedState<L, P, T, M> {
    ghost same = { M.same };

    ghost content = { λ s. M.content s.under };

    ghost place = { λ s. M.place s.under };
}
