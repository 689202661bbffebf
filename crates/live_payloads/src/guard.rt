//! Callers of a map of payloads.
ghost use Rattle.std.specs.Prelude.{◌≡◌, ◌≢◌, ℕ, Some, IfOk, IfErr};
ghost use mathlib.Core.List.{IsPrefix};
ghost use Rattle.live_reads.specs.Meetings.{SeenMore};
ghost use Rattle.word_slots.specs.Tickets.{HasIssued};
ghost use Rattle.live_payloads.specs.Payloads.{KnowsMore};

use live_growth::map::Guard;
use std::marker::Model;
use std::sync::Wait;
use word_slots::lent::Lent;
use word_slots::log::{SeenLog, agree};

/// A caller of a map of payloads. Contracts see which map, what it has seen of the map of tickets, and the log of the tickets
/// that were issued, as far as it is known.
#[derive(Drop)]
pub struct PayloadGuard<P: Drop> {
    pub(crate) guard: Guard,
    pub(crate) seen: SeenLog<P>,
    // Where the search for a free slot begins.
    pub(crate) hint: usize,
}

impl<P: Drop> Model for PayloadGuard<P> {
    ghost use Rattle.live_payloads.specs.Payloads.{PayloadsKnown};

    ghost Value = { PayloadsKnown P };

    ghost view = { λ g. record { tickets = g.guard; table = g.seen.book; log = g.seen.log } };
}

impl<P: Drop> PayloadGuard<P> {
    /// The payload itself, if its key was removed or got another payload, and nobody else reads it. Else the `Lent` comes back.
    /// Pauses where other readers come and go meanwhile.
    pub fn take<'a, R: Wait>(&mut self, rt: &R, lent: Lent<'a, P>) -> Result<P, Lent<'a, P>>
        requires map { self.old.table ≡ lent.table }
        ensures map { KnowsMore self.old self.new }
        ensures tickets { self.new.tickets ≡ self.old.tickets }
        ensures taken { IfOk result (λ payload. lent.entry.value ≡ Some payload) }
        ensures issued { IfOk result (λ payload. HasIssued self.new.log lent.entry.ticket payload) }
        ensures back { IfErr result (λ it. it ≡ lent.entry) }
    {
        lent.inform(&mut self.seen);
        let taken = lent.into_inner(rt, &mut self.seen);
        agree(&self.seen);
        taken
    }
}

/// Both guards, of one map, whose callers are two, have then seen one legal history of tickets, which begins with what each had
/// seen. They know what each knew of the payloads, and one ticket has one payload in that.
pub fn meet<P: Drop>(a: &mut PayloadGuard<P>, b: &mut PayloadGuard<P>)
    requires map { (b.old.tickets.book ≡ a.old.tickets.book) × (b.old.table ≡ a.old.table) }
    ensures first { SeenMore a.old.tickets a.new.tickets }
    ensures second { SeenMore b.old.tickets b.new.tickets }
    ensures one { a.new.tickets.seen ≡ b.new.tickets.seen }
    ensures differ { a.old.tickets.caller ≢ b.old.tickets.caller }
    ensures first_log { KnowsMore a.old a.new }
    ensures second_log { KnowsMore b.old b.new × IsPrefix b.old.log a.new.log × IsPrefix a.new.log b.new.log }
    ensures once { (ticket : ℕ) (v w : P) → HasIssued b.new.log ticket v → HasIssued b.new.log ticket w → v ≡ w }
{
    a.guard.meet(&mut b.guard);
    a.seen.learn(&b.seen);
    b.seen.learn(&a.seen);
    agree(&b.seen);
}
