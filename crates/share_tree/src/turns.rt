//! One event of a running call.
//!
//! Tested in `share_maps` and `test_share_guards/changes`.

ghost use Rattle.std.specs.Prelude.{◌≡◌, ◌↔◌, IsTrue};
ghost use Rattle.spec_olc.specs.Calls.{outline_of};
ghost use Rattle.share_backend.specs.Stages.{IsOf};
ghost use Rattle.share_tree.specs.Seats.{seat_stage_of};
ghost use Rattle.share_tree.specs.inner.Current.{CountsRise, IsCurrent};
ghost use Rattle.share_tree.specs.inner.Turned.{ChangesTo, TurnsSeatTo};

use crate::asking::{always, begin_anew, present};
use crate::counted::Counted;
use crate::seat::CallSeat;
use crate::turned::Turned;
use node_table::allocator::Allocator;
use spec_olc::payload::HasMeaning;
use spec_olc::types::{Kind, Op, Outcome};

/// One event of a seat, to which the closure's answer is handed.
pub(crate) fn turn<P: HasMeaning, A: Allocator>(
    tree: &mut Counted<P, A>,
    seat: CallSeat<P>,
    answer: Option<P>,
) -> Turned<P>
    requires { IsCurrent P.meaning tree.old seat }
    ensures turns { TurnsSeatTo P.meaning (seat_stage_of P.meaning seat) answer result }
    ensures content { ChangesTo P.meaning P.same_meaning (seat_stage_of P.meaning seat)
        tree.old tree.new result.outcome }
    ensures current { IsCurrent P.meaning tree.new result.seat }
    ensures onward { CountsRise P.meaning tree.old tree.new }
{
    match seat {
        CallSeat::Ready => ended(CallSeat::Ready, Outcome::Unknown),
        CallSeat::Fresh(key) => begin_anew(tree, key),
        CallSeat::Present(question, given) => match given {
            None => taken(CallSeat::Present(question, Some(answer))),
            Some(new) => present(tree, question, new),
        },
        CallSeat::Always(other, question, given) => match given {
            None => taken(CallSeat::Always(other, question, Some(answer))),
            Some(new) => always(tree, other, question, new),
        },
        CallSeat::Settled(_) => ended(CallSeat::Ready, Outcome::Done),
        CallSeat::Denied(_) => ended(CallSeat::Ready, Outcome::Done),
    }
}

// An answer was taken.
fn taken<P>(seat: CallSeat<P>) -> Turned<P>
    ensures { result ≡ record { seat = seat; kind = Kind.Answer; outcome = Outcome.Going } }
{
    Turned {
        seat,
        kind: Kind::Answer,
        outcome: Outcome::Going,
    }
}

// A call has ended.
fn ended<P>(seat: CallSeat<P>, outcome: Outcome<P>) -> Turned<P>
    ensures { result ≡ record { seat = seat; kind = Kind.Finish; outcome = outcome } }
{
    Turned {
        seat,
        kind: Kind::Finish,
        outcome,
    }
}

/// Whether a seat has a call of this kind and with these keys.
pub(crate) fn is_of<P: HasMeaning>(seat: &CallSeat<P>, op: &Op<P>) -> bool
    ensures { IsTrue result ↔ IsOf (outline_of op.now) (seat_stage_of P.meaning seat.now) }
{
    match seat {
        CallSeat::Ready => false,
        CallSeat::Fresh(key) => op.has_outline(&Op::ComputeIfPresent(*key)),
        CallSeat::Present(question, _) => op.has_outline(&Op::ComputeIfPresent(question.key)),
        CallSeat::Always(_, question, _) => op.has_outline(&Op::ComputeOrInsert(question.key, ())),
        CallSeat::Settled(outline) => op.has_outline(outline),
        CallSeat::Denied(outline) => op.has_outline(outline),
    }
}
