//! How a decided call changes the number of pairs.
//!
//! Tested in `share_maps` and `test_share_guards`.

ghost use Rattle.std.specs.Prelude.{◌≡◌};
ghost use Rattle.share_backend.specs.Changing.{change_of};

use spec_olc::types::{Op, Reply};

/// How a call changes the number of pairs.
#[derive(Clone, Copy, Debug, PartialEq, Eq)]
pub enum Change {
    Same,
    /// One more.
    Added,
    /// One less.
    Taken,
}

/// How a call with this reply changes the number of pairs.
pub fn change_of<P>(op: &Op<P>, reply: &Reply<P>) -> Change
    ensures { result ≡ change_of op.now reply.now }
{
    match reply {
        Reply::Old(before) => old_change(op, before),
        Reply::Computed(both) => computed_change(op, both),
        Reply::Exchanged(current) => exchanged_change(op, current),
    }
}

fn old_change<P>(op: &Op<P>, before: &Option<P>) -> Change
    ensures { result ≡ change_of op.now (Reply.Old before.now) }
{
    match op {
        Op::Insert(..) | Op::ComputeOrInsert(..) => match before {
            None => Change::Added,
            Some(_) => Change::Same,
        },
        Op::Remove(_) => match before {
            None => Change::Same,
            Some(_) => Change::Taken,
        },
        Op::Get(_) | Op::ComputeIfPresent(_) | Op::CompareExchange(..) | Op::Range(..) =>
            Change::Same,
    }
}

fn computed_change<P>(op: &Op<P>, both: &Option<(P, Option<P>)>) -> Change
    ensures { result ≡ change_of op.now (Reply.Computed both.now) }
{
    match op {
        Op::ComputeIfPresent(_) => match both {
            Some((_, None)) => Change::Taken,
            Some((_, Some(_))) => Change::Same,
            None => Change::Same,
        },
        Op::Get(_)
        | Op::Insert(..)
        | Op::Remove(_)
        | Op::ComputeOrInsert(..)
        | Op::CompareExchange(..)
        | Op::Range(..) => Change::Same,
    }
}

fn exchanged_change<P>(op: &Op<P>, current: &Result<Option<P>, Option<P>>) -> Change
    ensures { result ≡ change_of op.now (Reply.Exchanged current.now) }
{
    match op {
        Op::CompareExchange(..) => match current {
            Ok(None) => Change::Taken,
            Ok(Some(_)) => Change::Same,
            Err(_) => Change::Same,
        },
        Op::Get(_)
        | Op::Insert(..)
        | Op::Remove(_)
        | Op::ComputeIfPresent(_)
        | Op::ComputeOrInsert(..)
        | Op::Range(..) => Change::Same,
    }
}
