//! The interface of a map under a lock: its calls are made of events, and known by numbers.
//!
//! Tested in `share_maps` and `test_share_guards`.

ghost use Rattle.std.specs.Prelude.{◌≡◌, ◌≢◌, ℕ, Some, None, Err, IfOk, OnErr};
ghost use Rattle.spec_map.specs.Map.{Pairs};
ghost use Rattle.spec_olc.specs.Calls.{outline_of};
ghost use Rattle.spec_olc.specs.Meaning.{in_some, op_of, outcome_of};
ghost use Rattle.spec_olc.specs.declared.types.Asking.TheVariants.{Fresh};
ghost use Rattle.share_backend.specs.declared.lent.CallStage.TheVariants.{Ready, Running};
ghost use Rattle.share_backend.specs.Changing.{Counts, reply_in, reply_opened};
ghost use Rattle.share_backend.specs.Stages.{Changes, IsOf, Opens, Turns};

use crate::event::EventResult;
use spec_map::error::OOMError;
use spec_olc::types::{Asking, Env, Op, StartError};

/// What is known of a number that is seated.
#[derive(Drop)]
pub enum CallStage<T> {
    /// It has no call in flight.
    Ready,
    /// Its call runs: the call's kind and keys, the call, and the state of its closure.
    Running(Op<()>, Op<T>, Asking<T>),
    /// Its call has its reply.
    Settled(Op<()>),
    /// Its call was refused.
    Denied(Op<()>),
    /// Nothing is known of its call. (No map here has such a call; the public definitions alone don't exclude it.)
    Lost,
}

/// A map of payloads P, which represent values of T, whose calls are made of events. A call is known by its number.
pub trait Lent<P, T>: Drop {
    ghost use Rattle.std.specs.Prelude.{Bool, Option};
    ghost use Rattle.share_backend.specs.declared.lent.CallStage.{CallStage};

    ghost meaning: { P → T };

    ghost same: { T → T → Bool };

    // What is stored.
    ghost content: { Self → Pairs T → Type 0 };

    // The number of pairs that are stored.
    ghost entries: { Self → ℕ };

    // What is known of each number that is seated.
    ghost place: { Self → ℕ → Option (CallStage T) };

    /// The law that it has one content.
    fn law_one_content(&self)
        ensures { (m : Pairs T) (n : Pairs T) → content self.now m → content self.now n → n ≡ m };

    /// One more share of what a closure answered, or `OOMError`.
    fn again(answer: &P) -> Result<P, OOMError>
        ensures { IfOk result (λ copy. meaning copy ≡ meaning answer.now) };

    /// Seats a number.
    fn seat(&mut self) -> Result<u64, OOMError>
        ensures content { (m : Pairs T) → content self.old m → content self.new m }
        ensures entries { entries self.new ≡ entries self.old }
        ensures ok { IfOk result (λ id. (place self.old id ≡ None)
            × (place self.new id ≡ Some Ready)
            × ((k : ℕ) → k ≢ id → place self.new k ≡ place self.old k)) }
        ensures err { OnErr result ((k : ℕ) → place self.new k ≡ place self.old k) };

    /// Frees the seat of a number that has no call.
    fn unseat(&mut self, id: u64)
        ensures content { (m : Pairs T) → content self.old m → content self.new m }
        ensures entries { entries self.new ≡ entries self.old }
        ensures mine { place self.new id ≡ None }
        ensures others { (k : ℕ) → k ≢ id → place self.new k ≡ place self.old k };

    /// The first event of a call of a number: the call begins, asks its closure, or is decided and thereby over. A
    /// refusal leaves everything unchanged. The clauses on the call after the event hold only if the number was ready.
    fn open(&mut self, id: u64, op: &Op<P>) -> Result<EventResult<P>, StartError>
        ensures opens { place self.old id ≡ Some Ready → IfOk result (λ event.
            Opens (outline_of op.now) (op_of meaning op.now) (place self.new id)
            (outcome_of meaning event.outcome)) }
        ensures content { IfOk result (λ event. (m : Pairs T) → content self.old m
            → (n : Pairs T) × content self.new n
            × Changes same (Running (outline_of op.now) (op_of meaning op.now) Fresh) m n
            (outcome_of meaning event.outcome)) }
        ensures counts { Counts op.now (reply_opened result) (entries self.old) (entries self.new) }
        ensures err { OnErr result ((k : ℕ) → place self.new k ≡ place self.old k) }
        ensures refused { OnErr result ((m : Pairs T) → content self.old m → content self.new m) }
        ensures free { place self.old id ≡ Some Ready → result ≢ Err StartError.InFlight }
        ensures others { (k : ℕ) → k ≢ id → place self.new k ≡ place self.old k };

    /// One event of the call of a number. The clauses on the call and the content after the event hold only if the
    /// number is known to have a call of the same kind and keys as `op`.
    fn step(&mut self, id: u64, op: &Op<P>, env: Env<P>) -> EventResult<P>
        ensures turns { (p : CallStage T) → place self.old id ≡ Some p → IsOf (outline_of op.now) p
            → Turns p (in_some meaning env.answer) result.report.kind (place self.new id)
            (outcome_of meaning result.outcome) }
        ensures content { (p : CallStage T) → place self.old id ≡ Some p
            → IsOf (outline_of op.now) p
            → (m : Pairs T) → content self.old m → (n : Pairs T) × content self.new n
            × Changes same p m n (outcome_of meaning result.outcome) }
        ensures counts { Counts op.now (reply_in result.outcome)
            (entries self.old) (entries self.new) }
        ensures others { (p : CallStage T) → place self.old id ≡ Some p
            → IsOf (outline_of op.now) p
            → (k : ℕ) → k ≢ id → place self.new k ≡ place self.old k };

    /// Reclaims one slot that may be reclaimed, if there is one.
    fn reclaim_next(&mut self) -> bool
        ensures content { (m : Pairs T) → content self.old m → content self.new m }
        ensures entries { entries self.new ≡ entries self.old }
        ensures places { (k : ℕ) → place self.new k ≡ place self.old k };
}
