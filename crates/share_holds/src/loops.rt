//! The calls of a guard's number: attempts at a call, each made of events. Closures and gates are called between holds,
//! so nothing that a hold does can take the lock again.
//!
//! Tested in `share_maps` and `test_share_guards`.

ghost use Rattle.std.specs.Prelude.{◌≡◌, ◌≢◌, Some, IfOk, OnErr};
ghost use Rattle.spec_olc.specs.Calls.{IsPoint, outline_of};
ghost use Rattle.spec_olc.specs.Meaning.{in_some, op_of};
ghost use Rattle.spec_olc.specs.declared.types.Asking.{Asking as ClosureState};
ghost use Rattle.share_backend.specs.declared.lent.CallStage.{CallStage};
ghost use Rattle.share_backend.specs.declared.lent.CallStage.TheVariants.{Ready, Running};
ghost use Rattle.share_backend.specs.Changing.{IsReply, IsReplyTo, change_of};
ghost use Rattle.share_state.specs.Booking.{Books};
ghost use Rattle.share_rule.specs.inner.Steps.{IsIdle, SeesNoMore, at_of};
ghost use Rattle.share_holds.specs.Closures.{Reaches};
ghost use Rattle.share_holds.specs.Replies.{reply_got, reply_tried};
ghost use Rattle.share_holds.specs.inner.Events.{Answered, Attempted, IsOver, KnowsOf, WasCalled, is_last};

use crate::asks::Asks;
use crate::gate::Gate;
use crate::holds::{MapLock, MapSeat, begin, event, last_event, reclaim};
use crate::tried::Tried;
use crossbeam_utils::Backoff;
use share_backend::event::EventResult;
use share_backend::lent::{CallStage, Lent};
use share_state::purse::Purse;
use spec_map::error::OOMError;
use spec_olc::types::{Kind, Op, Outcome, Reply, StartError};
use std::sync::Wait;
use std::sync::ledger::Ledger;

// How many slots a call tries to reclaim at most, once it has retired a node or was refused: one more than a call of its
// kind retires at most, so that slots which couldn't be reclaimed earlier become fewer. A removal retires up to three: the
// node that it took out, and one for each of its two cleanups. Any other call retires up to one, the node that it replaced.
fn most_reclaims<P>(op: &Op<P>) -> u32 {
    match op {
        Op::Remove(_) | Op::ComputeIfPresent(_) | Op::CompareExchange(..) => 4,
        Op::Get(_) | Op::Insert(..) | Op::ComputeOrInsert(..) | Op::Range(..) => 2,
    }
}

// One more share of what the closure answered.
fn again<P: Drop, T, M: Lent<P, T>>(answer: &Option<P>) -> Result<Option<P>, OOMError>
    ensures { IfOk result (λ copy. in_some M.meaning copy ≡ in_some M.meaning answer.now) }
{
    match answer {
        None => Ok(None),
        Some(answer) => Ok(Some(M::again(answer)?)),
    }
}

// The closure's answer, unless an event of this kind has taken it.
fn kept<P: Drop>(answer: Option<P>, kind: Kind) -> Option<P>
    ensures { kind ≢ Kind.Answer → result ≡ answer }
{
    if kind == Kind::Answer { None } else { answer }
}

// Pauses where a call met a node that another call has locked or changed, so that it restarts at the root.
pub(crate) fn pause_unless(went_on: bool, pause: &Backoff) {
    if !went_on {
        pause.snooze();
    }
}

// Reclaims what may be reclaimed after this call, if that is wanted: each slot in a hold of its own.
fn reclaim_if<L: Ledger, P: Drop, T, M: Lent<P, T>, R: Wait>(
    lock: &MapLock<L, P, T, M>,
    rt: &R,
    seat: &mut MapSeat<L, P, T, M>,
    op: &Op<P>,
    wanted: bool,
)
    requires table { seat.old.table_id ≡ lock.now }
    requires idle { IsIdle seat.old.me }
    ensures table { seat.new.table_id ≡ seat.old.table_id }
    ensures known { KnowsOf (at_of seat.old.me.0) seat.old.me seat.new.me }
{
    if !wanted {
        return;
    }
    for _ in 0..most_reclaims(op) {
        if !reclaim(lock, rt, seat) {
            return;
        }
    }
}

// Whether this is the last event of a call.
fn ends<P: Drop>(outcome: Outcome<P>) -> bool
    ensures { result ≡ is_last outcome }
{
    match outcome {
        Outcome::Done => true,
        Outcome::Unknown => true,
        _ => false,
    }
}

// The events that are left once a call is decided or refused. Returns whether one of them retired a node.
fn last_events<L: Ledger, P: Drop, T, M: Lent<P, T>, R: Wait, G: Gate>(
    lock: &MapLock<L, P, T, M>,
    rt: &R,
    seat: &mut MapSeat<L, P, T, M>,
    id: u64,
    op: &Op<P>,
    gate: &mut G,
) -> bool
    requires table { seat.old.table_id ≡ lock.now }
    requires idle { IsIdle seat.old.me }
    requires over { (p : CallStage T) × IsOver (outline_of op.now) p
        × (at_of seat.old.me.0 ≡ Some (id, p)) }
    ensures table { seat.new.table_id ≡ seat.old.table_id }
    ensures known { KnowsOf (Some (id, Ready)) seat.old.me seat.new.me }
{
    let mut retired = false;
    for _ in rt.forever() {
        let EventResult { report, outcome } = last_event(lock, rt, seat, id, op);
        if ends(outcome) {
            return retired;
        }
        retired = retired || report.kind == Kind::Obsolete;
        gate.between(&report);
    }
    unreachable!()
}

// The rest of a call that is decided or refused. If a node was retired, or the call was refused, the call then tries to
// reclaim.
pub(crate) fn finish<L: Ledger, P: Drop, T, M: Lent<P, T>, R: Wait, G: Gate>(
    lock: &MapLock<L, P, T, M>,
    rt: &R,
    seat: &mut MapSeat<L, P, T, M>,
    id: u64,
    op: &Op<P>,
    gate: &mut G,
    reclaims: bool,
)
    requires table { seat.old.table_id ≡ lock.now }
    requires idle { IsIdle seat.old.me }
    requires over { (p : CallStage T) × IsOver (outline_of op.now) p
        × (at_of seat.old.me.0 ≡ Some (id, p)) }
    ensures table { seat.new.table_id ≡ seat.old.table_id }
    ensures known { KnowsOf (Some (id, Ready)) seat.old.me seat.new.me }
{
    let retired = last_events(lock, rt, seat, id, op, gate);
    reclaim_if(lock, rt, seat, op, retired || reclaims);
}

// The events of a call that runs, with what its closure answered last. The closure is called while the lock is free. Its
// answer is kept until an event has taken it.
fn go_on<L: Ledger, P: Drop, T, M: Lent<P, T>, R: Wait, B: Purse<L>, F, Q: Asks<P, F>, G: Gate>(
    lock: &MapLock<L, P, T, M>,
    rt: &R,
    seat: &mut MapSeat<L, P, T, M>,
    id: u64,
    op: &Op<P>,
    answered: Option<P>,
    purse: &mut B,
    how: Q,
    f: &mut F,
    gate: &mut G,
) -> Tried<P>
    requires table { seat.old.table_id ≡ lock.now }
    requires idle { IsIdle seat.old.me }
    requires running { (s : ClosureState T) × (at_of seat.old.me.0
        ≡ Some (id, Running (outline_of op.now) (op_of M.meaning op.now) s))
        × WasCalled M.meaning Q.step f.old s answered }
    requires point { IsPoint (outline_of op.now) }
    requires callable { Q.can_ask f.old }
    ensures callable { Q.can_ask f.new }
    ensures reached { Reaches Q.step f.old f.new }
    ensures booked { Books B.after op.now (reply_tried result) purse.old purse.new }
    ensures reply { IsReply op.now (reply_tried result) }
    ensures table { seat.new.table_id ≡ seat.old.table_id }
    ensures ready { at_of seat.new.me.0 ≡ Some (id, Ready) }
    ensures idle { IsIdle seat.new.me }
    ensures attempted { Attempted M.meaning Q.step f.new M.same op.now result
        seat.old.me seat.new.me }
{
    let pause = Backoff::new();
    let mut retired = false;
    let mut answer = answered;
    for _ in rt.forever() {
        let Ok(copy) = again::<P, T, M>(&answer) else {
            pause.snooze();
            continue;
        };
        let EventResult { report, outcome } = event(lock, rt, seat, id, op, copy, purse);
        gate.between(&report);
        retired = retired || report.kind == Kind::Obsolete;
        match outcome {
            Outcome::Going => {
                answer = kept(answer, report.kind);
                pause_unless(report.ok, &pause);
            }
            Outcome::Ask(old) => answer = how.ask(f, old),
            Outcome::Decided(reply) => {
                finish(lock, rt, seat, id, op, gate, retired);
                return Tried::Replied(reply);
            }
            Outcome::Refused => {
                finish(lock, rt, seat, id, op, gate, true);
                return Tried::Refused;
            }
            Outcome::Unknown => return Tried::Again,
            // (no event of a point call has such an outcome)
            Outcome::Done => unreachable!(),
            Outcome::Pair(..) => unreachable!(),
        }
    }
    unreachable!()
}

// One attempt at a call, from its first event on. If that event decides the call, the call is over.
fn attempt<L: Ledger, P: Drop, T, M: Lent<P, T>, R: Wait, B: Purse<L>, F, Q: Asks<P, F>, G: Gate>(
    lock: &MapLock<L, P, T, M>,
    rt: &R,
    seat: &mut MapSeat<L, P, T, M>,
    id: u64,
    op: &Op<P>,
    purse: &mut B,
    how: Q,
    f: &mut F,
    gate: &mut G,
) -> Tried<P>
    requires table { seat.old.table_id ≡ lock.now }
    requires idle { IsIdle seat.old.me }
    requires ready { at_of seat.old.me.0 ≡ Some (id, Ready) }
    requires point { IsPoint (outline_of op.now) }
    requires callable { Q.can_ask f.old }
    ensures callable { Q.can_ask f.new }
    ensures reached { Reaches Q.step f.old f.new }
    ensures booked { Books B.after op.now (reply_tried result) purse.old purse.new }
    ensures reply { IsReply op.now (reply_tried result) }
    ensures table { seat.new.table_id ≡ seat.old.table_id }
    ensures ready { at_of seat.new.me.0 ≡ Some (id, Ready) }
    ensures idle { IsIdle seat.new.me }
    ensures attempted { Attempted M.meaning Q.step f.new M.same op.now result
        seat.old.me seat.new.me }
{
    let EventResult { report, outcome } = match begin(lock, rt, seat, id, op, purse) {
        Ok(begun) => begun,
        Err(StartError::InFlight) => unreachable!(),
        Err(StartError::Oom(_)) => {
            reclaim_if(lock, rt, seat, op, true);
            return Tried::Refused;
        }
    };
    match outcome {
        Outcome::Decided(reply) => Tried::Replied(reply),
        Outcome::Going => {
            gate.between(&report);
            go_on(lock, rt, seat, id, op, None, purse, how, f, gate)
        }
        Outcome::Ask(old) => {
            gate.between(&report);
            let answer = how.ask(f, old);
            go_on(lock, rt, seat, id, op, answer, purse, how, f, gate)
        }
        // (no first event has such an outcome)
        Outcome::Pair(..) => unreachable!(),
        Outcome::Refused => unreachable!(),
        Outcome::Done => unreachable!(),
        Outcome::Unknown => unreachable!(),
    }
}

/// Makes a call, by as many attempts as it takes until it is decided or refused.
pub fn call<L: Ledger, P: Drop, T, M: Lent<P, T>, R: Wait, B: Purse<L>, F, Q: Asks<P, F>, G: Gate>(
    lock: &MapLock<L, P, T, M>,
    rt: &R,
    seat: &mut MapSeat<L, P, T, M>,
    id: u64,
    op: &Op<P>,
    purse: &mut B,
    how: Q,
    f: &mut F,
    gate: &mut G,
) -> Result<Reply<P>, OOMError>
    requires table { seat.old.table_id ≡ lock.now }
    requires idle { IsIdle seat.old.me }
    requires ready { at_of seat.old.me.0 ≡ Some (id, Ready) }
    requires point { IsPoint (outline_of op.now) }
    requires callable { Q.can_ask f.old }
    ensures callable { Q.can_ask f.new }
    ensures reached { Reaches Q.step f.old f.new }
    ensures booked { Books B.after op.now (reply_got result) purse.old purse.new }
    ensures reply { IsReply op.now (reply_got result) }
    ensures table { seat.new.table_id ≡ seat.old.table_id }
    ensures ready { at_of seat.new.me.0 ≡ Some (id, Ready) }
    ensures idle { IsIdle seat.new.me }
    ensures made { IfOk result (λ reply.
        Answered M.meaning Q.step f.new M.same op.now reply seat.old.me seat.new.me) }
    ensures refused { OnErr result (SeesNoMore seat.old.me seat.new.me) }
{
    let pause = Backoff::new();
    for _ in rt.forever() {
        match attempt(lock, rt, seat, id, op, purse, how, f, gate) {
            Tried::Replied(reply) => return Ok(reply),
            Tried::Refused => return Err(OOMError::new()),
            Tried::Again => pause.snooze(),
        }
    }
    unreachable!()
}

/// Makes a call that can't return a refusal, by as many attempts as it takes until it is decided. Where memory is missing,
/// it pauses and tries again.
pub fn call_always<
    L: Ledger,
    P: Drop,
    T,
    M: Lent<P, T>,
    R: Wait,
    B: Purse<L>,
    F,
    Q: Asks<P, F>,
    G: Gate,
>(
    lock: &MapLock<L, P, T, M>,
    rt: &R,
    seat: &mut MapSeat<L, P, T, M>,
    id: u64,
    op: &Op<P>,
    purse: &mut B,
    how: Q,
    f: &mut F,
    gate: &mut G,
) -> Reply<P>
    requires table { seat.old.table_id ≡ lock.now }
    requires idle { IsIdle seat.old.me }
    requires ready { at_of seat.old.me.0 ≡ Some (id, Ready) }
    requires point { IsPoint (outline_of op.now) }
    requires callable { Q.can_ask f.old }
    ensures callable { Q.can_ask f.new }
    ensures reached { Reaches Q.step f.old f.new }
    ensures booked { purse.new ≡ B.after (change_of op.now result) purse.old }
    ensures reply { IsReplyTo op.now result }
    ensures table { seat.new.table_id ≡ seat.old.table_id }
    ensures ready { at_of seat.new.me.0 ≡ Some (id, Ready) }
    ensures idle { IsIdle seat.new.me }
    ensures made { Answered M.meaning Q.step f.new M.same op.now result seat.old.me seat.new.me }
{
    let pause = Backoff::new();
    for _ in rt.forever() {
        match call(lock, rt, seat, id, op, purse, how, f, gate) {
            Ok(reply) => return reply,
            Err(_) => pause.snooze(),
        }
    }
    unreachable!()
}
