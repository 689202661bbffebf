//! The calls with a closure: how the closure is asked, and how its answer is used.
//!
//! Tested in `share_maps` and `test_share_guards/changes`.

ghost use Rattle.std.specs.Prelude.{◌≡◌, Option, Some, None, IfOk, OnErr};
ghost use Rattle.spec_map.specs.Map.{lookup};
ghost use Rattle.node_table.specs.inner.Kinds.{mapped};
ghost use Rattle.spec_olc.specs.Meaning.{in_some};
ghost use Rattle.spec_olc.specs.declared.types.Asking.TheVariants.{Fresh, Given};
ghost use Rattle.spec_olc.specs.declared.types.Op.TheVariants.{ComputeIfPresent, ComputeOrInsert};
ghost use Rattle.share_tree.specs.inner.Current.{CountsRise, AnswerHolds, IsCurrent};
ghost use Rattle.share_tree.specs.inner.Opened.{outcome_opened, seat_opened};
ghost use Rattle.share_tree.specs.inner.Turned.{ChangesTo, OpensTo, TurnsSeatTo, running};

use crate::counted::Counted;
use crate::opened::Opened;
use crate::payloads::{again, more};
use crate::seat::{CallSeat, Question};
use crate::turned::Turned;
use node_table::allocator::Allocator;
use spec_map::error::OOMError;
use spec_olc::payload::HasMeaning;
use spec_olc::types::{Kind, Op, Outcome, Reply};

// A question about what is stored at a key, and one more share of that for the
// closure. `OOMError` if a share is refused.
fn question_of<P: HasMeaning, A: Allocator>(
    tree: &Counted<P, A>,
    key: u64,
) -> Result<(Question<P>, Option<P>), OOMError>
    ensures key { IfOk result (λ asked. asked.0.key ≡ key) }
    ensures old { IfOk result (λ asked. in_some P.meaning asked.0.old
        ≡ lookup (mapped P.meaning tree.now.pairs) key) }
    ensures shown { IfOk result (λ asked. in_some P.meaning asked.1
        ≡ lookup (mapped P.meaning tree.now.pairs) key) }
    ensures holds { IfOk result (λ asked. AnswerHolds P.meaning tree.now asked.0) }
{
    let shown = more(tree.look(key))?;
    let old = again(&shown)?;
    let at = tree.count(key);
    Ok((Question { key, old, at }, shown))
}

/// Asks the closure of a `ComputeIfPresent`, or decides the call if the key is absent.
pub(crate) fn ask_present<P: HasMeaning, A: Allocator>(
    tree: &Counted<P, A>,
    key: u64,
) -> Result<Opened<P>, OOMError>
    ensures opens { IfOk result (λ o. OpensTo P.meaning (ComputeIfPresent key) o) }
    ensures content { IfOk result (λ o. ChangesTo P.meaning P.same_meaning
        (running P.meaning (ComputeIfPresent key) Fresh) tree.now tree.now (outcome_opened o)) }
    ensures current { IfOk result (λ o. IsCurrent P.meaning tree.now (seat_opened o)) }
{
    let (question, shown) = question_of(tree, key)?;
    match shown {
        None => Ok(Opened::Over(Reply::Computed(None))),
        Some(shown) => Ok(Opened::Asks(CallSeat::Present(question, None), Some(shown))),
    }
}

/// Asks the closure of a `ComputeOrInsert`.
pub(crate) fn ask_always<P: HasMeaning, A: Allocator>(
    tree: &Counted<P, A>,
    key: u64,
    other: &P,
) -> Result<Opened<P>, OOMError>
    ensures opens { IfOk result (λ o. OpensTo P.meaning (ComputeOrInsert key other.now) o) }
    ensures content { IfOk result (λ o. ChangesTo P.meaning P.same_meaning
        (running P.meaning (ComputeOrInsert key other.now) Fresh) tree.now tree.now
        (outcome_opened o)) }
    ensures current { IfOk result (λ o. IsCurrent P.meaning tree.now (seat_opened o)) }
{
    let other = other.share()?;
    let (question, shown) = question_of(tree, key)?;
    Ok(Opened::Asks(CallSeat::Always(other, question, None), shown))
}

/// A `ComputeIfPresent` starts again: it asks its closure, or is decided.
pub(crate) fn begin_anew<P: HasMeaning, A: Allocator>(tree: &Counted<P, A>, key: u64) -> Turned<P>
    ensures turns { (answer : Option P)
        → TurnsSeatTo P.meaning (running P.meaning (ComputeIfPresent key) Fresh) answer result }
    ensures content { ChangesTo P.meaning P.same_meaning
        (running P.meaning (ComputeIfPresent key) Fresh) tree.now tree.now result.outcome }
    ensures current { IsCurrent P.meaning tree.now result.seat }
{
    match ask_present(tree, key) {
        Ok(Opened::Asks(seat, shown)) => looked(seat, Outcome::Ask(shown)),
        Ok(Opened::Over(reply)) => {
            let seat = CallSeat::Settled(Op::ComputeIfPresent(key));
            looked(seat, Outcome::Decided(reply))
        }
        Err(_) => refused(Op::ComputeIfPresent(key)),
    }
}

/// An answered `ComputeIfPresent` is decided if what its closure was asked with is still stored. Otherwise the closure
/// is asked with what is stored now. If the key is absent now, the call starts again.
pub(crate) fn present<P: HasMeaning, A: Allocator>(
    tree: &mut Counted<P, A>,
    question: Question<P>,
    new: Option<P>,
) -> Turned<P>
    requires { AnswerHolds P.meaning tree.old question }
    ensures turns { (answer : Option P) → TurnsSeatTo P.meaning (running P.meaning (ComputeIfPresent question.key)
        (Given (in_some P.meaning question.old) (in_some P.meaning new))) answer result }
    ensures content { ChangesTo P.meaning P.same_meaning
        (running P.meaning (ComputeIfPresent question.key)
        (Given (in_some P.meaning question.old) (in_some P.meaning new)))
        tree.old tree.new result.outcome }
    ensures current { IsCurrent P.meaning tree.new result.seat }
    ensures onward { CountsRise P.meaning tree.old tree.new }
{
    let key = question.key;
    if !tree.still_has(&question) {
        return match ask_present(tree, key) {
            Ok(Opened::Asks(seat, shown)) => looked(seat, Outcome::Ask(shown)),
            Ok(Opened::Over(_reply)) => looked(CallSeat::Fresh(key), Outcome::Going),
            Err(_error) => refused(Op::ComputeIfPresent(key)),
        };
    }
    match question.old {
        Some(old) => replace(tree, key, old, new),
        None => looked(CallSeat::Fresh(key), Outcome::Going),
    }
}

// Replaces what the closure of a `ComputeIfPresent` was asked with by its answer.
fn replace<P: HasMeaning, A: Allocator>(
    tree: &mut Counted<P, A>,
    key: u64,
    old: P,
    new: Option<P>,
) -> Turned<P>
    requires { lookup (mapped P.meaning tree.old.pairs) key ≡ Some (P.meaning old) }
    ensures turns { (answer : Option P) → TurnsSeatTo P.meaning (running P.meaning (ComputeIfPresent key)
        (Given (Some (P.meaning old)) (in_some P.meaning new))) answer result }
    ensures content { ChangesTo P.meaning P.same_meaning (running P.meaning (ComputeIfPresent key)
        (Given (Some (P.meaning old)) (in_some P.meaning new))) tree.old tree.new result.outcome }
    ensures current { IsCurrent P.meaning tree.new result.seat }
    ensures onward { CountsRise P.meaning tree.old tree.new }
{
    let Ok(returned) = again(&new) else {
        return refused(Op::ComputeIfPresent(key));
    };
    tree.set(key, new);
    wrote(
        Op::ComputeIfPresent(key),
        Reply::Computed(Some((old, returned))),
    )
}

/// An answered `ComputeOrInsert` is decided if what its closure was asked with is still stored. Otherwise the closure
/// is asked with what is stored now.
pub(crate) fn always<P: HasMeaning, A: Allocator>(
    tree: &mut Counted<P, A>,
    other: P,
    question: Question<P>,
    new: Option<P>,
) -> Turned<P>
    requires { AnswerHolds P.meaning tree.old question }
    ensures turns { (answer : Option P) → TurnsSeatTo P.meaning (running P.meaning (ComputeOrInsert question.key other)
        (Given (in_some P.meaning question.old) (in_some P.meaning new))) answer result }
    ensures content { ChangesTo P.meaning P.same_meaning
        (running P.meaning (ComputeOrInsert question.key other)
        (Given (in_some P.meaning question.old) (in_some P.meaning new)))
        tree.old tree.new result.outcome }
    ensures current { IsCurrent P.meaning tree.new result.seat }
    ensures onward { CountsRise P.meaning tree.old tree.new }
{
    let key = question.key;
    if !tree.still_has(&question) {
        return match question_of(tree, key) {
            Ok((question, shown)) => {
                let seat = CallSeat::Always(other, question, None);
                looked(seat, Outcome::Ask(shown))
            }
            Err(_) => refused(Op::ComputeOrInsert(key, ())),
        };
    }
    let Ok(before) = tree.insert(key, new.unwrap_or(other)) else {
        return refused(Op::ComputeOrInsert(key, ()));
    };
    wrote(Op::ComputeOrInsert(key, ()), Reply::Old(before))
}

// An event that changes nothing in the tree.
fn looked<P>(seat: CallSeat<P>, outcome: Outcome<P>) -> Turned<P>
    ensures { result ≡ record { seat = seat; kind = Kind.Check; outcome = outcome } }
{
    Turned {
        seat,
        kind: Kind::Check,
        outcome,
    }
}

// A call has changed the tree.
fn wrote<P>(outline: Op<()>, reply: Reply<P>) -> Turned<P>
    ensures { result ≡ record {
      seat = CallSeat.Settled outline;
      kind = Kind.Write;
      outcome = Outcome.Decided reply;
    } }
{
    Turned {
        seat: CallSeat::Settled(outline),
        kind: Kind::Write,
        outcome: Outcome::Decided(reply),
    }
}

// A call is refused. Its next event ends it.
fn refused<P>(outline: Op<()>) -> Turned<P>
    ensures { result ≡ record {
      seat = CallSeat.Denied outline;
      kind = Kind.Check;
      outcome = Outcome.Refused;
    } }
{
    Turned {
        seat: CallSeat::Denied(outline),
        kind: Kind::Check,
        outcome: Outcome::Refused,
    }
}
