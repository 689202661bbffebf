//! The holds of the lock: for each kind one function, which takes it, makes one call of the state under it and releases
//! it.
//!
//! Tested in `share_maps` and `test_share_guards`.

ghost use Rattle.std.specs.Prelude.{◌≡◌, ◌≢◌, ◌+◌, ◌++◌, ℕ, Some, None, Err, IfOk, IfSome, OnErr, length, map, min, take, drop};
ghost use Rattle.spec_map.specs.Map.{Pairs, IsMap, between};
ghost use Rattle.spec_olc.specs.Calls.{outline_of};
ghost use Rattle.spec_olc.specs.Meaning.{in_some, op_of, outcome_of};
ghost use Rattle.spec_olc.specs.declared.types.Asking.{Asking as ClosureState};
ghost use Rattle.share_backend.specs.declared.lent.CallStage.{CallStage};
ghost use Rattle.share_backend.specs.declared.lent.CallStage.TheVariants.{Ready, Running};
ghost use Rattle.share_backend.specs.Changing.{IsReply, reply_in, reply_opened};
ghost use Rattle.share_state.specs.Booking.{Books};
ghost use Rattle.share_rule.specs.inner.Steps.{IsIdle, SeesNoMore, at_of};
ghost use Rattle.share_holds.specs.inner.Events.{AfterEvent, AfterLast, Begun, IsOver, KnowsOf};

use share_backend::event::EventResult;
use share_backend::lent::{CallStage, Lent};
use share_rule::lock::{Lock, LockSeat};
use share_state::purse::{OwnPurse, Purse};
use share_state::state::LockedState;
use spec_map::error::OOMError;
use spec_olc::types::{Env, Op, Seen, StartError};
use std::marker::Brand;
use std::sync::Wait;
use std::sync::ledger::Ledger;

/// The lock of a shared map.
pub type MapLock<L, P, T, M> = Lock<T, CallStage<T>, LockedState<L, P, T, M>>;

/// A seat at it.
pub type MapSeat<L, P, T, M> = LockSeat<T, CallStage<T>, LockedState<L, P, T, M>>;

// The environment of an event: no upgrade fails, a torn Read reports an empty node, and the closure's answer is handed
// over if it was asked.
fn env_with<P>(answer: Option<P>) -> Env<P>
    ensures { result.answer ≡ answer }
{
    Env {
        torn: Seen {
            child: None,
            count: 0,
            full: false,
        },
        fail: false,
        answer,
    }
}

/// Seats a number for a seat that has none. `OOMError` if there is no memory for its calls.
pub fn number<L: Ledger, P: Drop, T, M: Lent<P, T>, R: Wait>(
    lock: &MapLock<L, P, T, M>,
    rt: &R,
    seat: &mut MapSeat<L, P, T, M>,
) -> Result<u64, OOMError>
    requires table { seat.old.table_id ≡ lock.now }
    requires idle { IsIdle seat.old.me }
    requires numberless { at_of seat.old.me.0 ≡ None }
    ensures table { seat.new.table_id ≡ seat.old.table_id }
    ensures ok { IfOk result (λ id. KnowsOf (Some (id, Ready)) seat.old.me seat.new.me) }
    ensures err { OnErr result (KnowsOf None seat.old.me seat.new.me) }
{
    lock.take(rt, seat);
    let Some(under) = seat.slot_mut(lock.table(), 0) else {
        unreachable!()
    };
    let seated = under.seat();
    lock.release::<Brand, _, _>(seat, &seated, &());
    seated
}

/// Frees the number of a seat.
pub fn unseat<L: Ledger, P: Drop, T, M: Lent<P, T>, R: Wait>(
    lock: &MapLock<L, P, T, M>,
    rt: &R,
    seat: &mut MapSeat<L, P, T, M>,
    id: u64,
)
    requires table { seat.old.table_id ≡ lock.now }
    requires idle { IsIdle seat.old.me }
    requires seated { (p : CallStage T) × (at_of seat.old.me.0 ≡ Some (id, p)) }
    ensures table { seat.new.table_id ≡ seat.old.table_id }
    ensures freed { KnowsOf None seat.old.me seat.new.me }
{
    lock.take(rt, seat);
    let Some(under) = seat.slot_mut(lock.table(), 0) else {
        unreachable!()
    };
    under.unseat(id);
    lock.release::<Brand, _, _>(seat, &(), &());
}

/// The first event of a call of a number that is ready.
pub(crate) fn begin<L: Ledger, P: Drop, T, M: Lent<P, T>, R: Wait, B: Purse<L>>(
    lock: &MapLock<L, P, T, M>,
    rt: &R,
    seat: &mut MapSeat<L, P, T, M>,
    id: u64,
    op: &Op<P>,
    purse: &mut B,
) -> Result<EventResult<P>, StartError>
    requires table { seat.old.table_id ≡ lock.now }
    requires idle { IsIdle seat.old.me }
    requires ready { at_of seat.old.me.0 ≡ Some (id, Ready) }
    ensures booked { Books B.after op.now (reply_opened result) purse.old purse.new }
    ensures reply { IsReply op.now (reply_opened result) }
    ensures table { seat.new.table_id ≡ seat.old.table_id }
    ensures free { result ≢ Err StartError.InFlight }
    ensures begun { Begun M.same M.meaning id op.now result seat.old.me seat.new.me }
{
    lock.take(rt, seat);
    let Some(under) = seat.slot_mut(lock.table(), 0) else {
        unreachable!()
    };
    let begun = under.open(id, op, purse);
    lock.release::<Brand, _, _>(seat, op, &begun);
    begun
}

/// One event of a running call, to which its closure's answer is handed, if it was asked.
pub(crate) fn event<L: Ledger, P: Drop, T, M: Lent<P, T>, R: Wait, B: Purse<L>>(
    lock: &MapLock<L, P, T, M>,
    rt: &R,
    seat: &mut MapSeat<L, P, T, M>,
    id: u64,
    op: &Op<P>,
    answer: Option<P>,
    purse: &mut B,
) -> EventResult<P>
    requires table { seat.old.table_id ≡ lock.now }
    requires idle { IsIdle seat.old.me }
    requires running { (s : ClosureState T) × (at_of seat.old.me.0
        ≡ Some (id, Running (outline_of op.now) (op_of M.meaning op.now) s)) }
    ensures booked { Books B.after op.now (reply_in result.outcome) purse.old purse.new }
    ensures reply { IsReply op.now (reply_in result.outcome) }
    ensures table { seat.new.table_id ≡ seat.old.table_id }
    ensures after { (s : ClosureState T) → at_of seat.old.me.0
        ≡ Some (id, Running (outline_of op.now) (op_of M.meaning op.now) s)
        → AfterEvent id (outline_of op.now) M.same (op_of M.meaning op.now) s
        (in_some M.meaning answer) result.report.kind (outcome_of M.meaning result.outcome)
        seat.old.me seat.new.me }
{
    lock.take(rt, seat);
    let Some(under) = seat.slot_mut(lock.table(), 0) else {
        unreachable!()
    };
    let made = under.step(id, op, env_with(answer), purse);
    lock.release::<Brand, _, _>(seat, op, &made);
    made
}

/// One event of a call that has its reply or was refused.
pub(crate) fn last_event<L: Ledger, P: Drop, T, M: Lent<P, T>, R: Wait>(
    lock: &MapLock<L, P, T, M>,
    rt: &R,
    seat: &mut MapSeat<L, P, T, M>,
    id: u64,
    op: &Op<P>,
) -> EventResult<P>
    requires table { seat.old.table_id ≡ lock.now }
    requires idle { IsIdle seat.old.me }
    requires over { (p : CallStage T) × IsOver (outline_of op.now) p
        × (at_of seat.old.me.0 ≡ Some (id, p)) }
    ensures table { seat.new.table_id ≡ seat.old.table_id }
    ensures after { (p : CallStage T) → IsOver (outline_of op.now) p
        → at_of seat.old.me.0 ≡ Some (id, p)
        → AfterLast id (outline_of op.now) p (outcome_of M.meaning result.outcome)
        seat.old.me seat.new.me }
{
    lock.take(rt, seat);
    let Some(under) = seat.slot_mut(lock.table(), 0) else {
        unreachable!()
    };
    let made = under.step(id, op, env_with(None), &mut OwnPurse);
    lock.release::<Brand, _, _>(seat, op, &made);
    made
}

/// Reclaims one slot that may be reclaimed, if there is one.
pub(crate) fn reclaim<L: Ledger, P: Drop, T, M: Lent<P, T>, R: Wait>(
    lock: &MapLock<L, P, T, M>,
    rt: &R,
    seat: &mut MapSeat<L, P, T, M>,
) -> bool
    requires table { seat.old.table_id ≡ lock.now }
    requires idle { IsIdle seat.old.me }
    ensures table { seat.new.table_id ≡ seat.old.table_id }
    ensures known { KnowsOf (at_of seat.old.me.0) seat.old.me seat.new.me }
{
    lock.take(rt, seat);
    let Some(under) = seat.slot_mut(lock.table(), 0) else {
        unreachable!()
    };
    let reclaimed = under.reclaim_next();
    lock.release::<Brand, _, _>(seat, &(), &());
    reclaimed
}
