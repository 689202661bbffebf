//! The log of a table of slots, and its rule.
ghost use Rattle.std.specs.Prelude.{◌≡◌, ℕ};
ghost use Rattle.word_slots.specs.Tickets.{HasIssued};

use logbook::{Gain, Opening, Plain, Play, Rule, Seen, Word};

/// An entry of the log, which exists in proofs alone: there is a slot with an index, or a ticket was issued for a value.
pub enum LogEntry<V> {
    Opened(u64),
    Issued(u64, V),
}

/// The rule of the log: a ticket is issued once.
pub struct IssuedOnce;

impl<V> Rule<LogEntry<V>, u64> for IssuedOnce {
    ghost use Rattle.std.specs.Prelude.{[]};
    ghost use base.Fml.{ftrue};
    ghost use Rattle.word_slots.specs.Tickets.{IssuesOnce};

    ghost holds = { λ cells log. IssuesOnce cells log };

    ghost first = { [] };

    ghost hinted = { λ n log. Unit {0} };

    ghost shows = { λ log. [] };

    ghost keeps = { λ names log. ftrue };

    ghost moves = { λ ask before after answer. Unit {0} };
}

/// A beginning of the log that a thread has seen. It takes no bytes.
pub type SeenLog<V> = Seen<LogEntry<V>, u64, IssuedOnce>;

/// A word of the log. It counts the slots, or the tickets of a slot.
pub type TicketCount<V> = Word<LogEntry<V>, u64, IssuedOnce>;

/// Nobody keeps anything beside the log.
pub struct NoGain;

impl<V> Gain<LogEntry<V>, u64> for NoGain {
    ghost use base.Fml.{ftrue};

    ghost after = { λ names about answer. ftrue };
}

/// The log of a table without slots.
pub struct EmptyLog;

impl<V> Opening<u64, LogEntry<V>> for EmptyLog {
    ghost use Rattle.std.specs.Prelude.{[]};

    ghost log = { λ count about. [] };
}

/// A ticket, and the value that it is issued for.
pub struct Issue<V> {
    pub ticket: u64,
    pub value: V,
}

/// The step that issues a ticket.
pub struct Issuing;

impl<V> Play<LogEntry<V>, u64> for Issuing {
    ghost use Rattle.word_slots.specs.Tickets.{Issues};

    ghost then = { Issues };
}

impl<V> Plain<Issue<V>, LogEntry<V>, u64> for Issuing {
    ghost use Rattle.std.specs.Prelude.{None};
    ghost use Rattle.word_slots.specs.declared.log.LogEntry.TheVariants.{Issued};

    ghost ask = { λ issue. Issued issue.ticket issue.value };

    ghost state = { λ issue. None };
}

/// A slot that is added, by its index.
#[derive(Drop)]
pub struct NewSlot {
    pub index: u64,
}

/// The step that adds a slot's word.
pub struct Adding;

impl<V> Play<LogEntry<V>, u64> for Adding {
    ghost use Rattle.word_slots.specs.Tickets.{Adds};

    ghost then = { Adds };
}

impl<V> Plain<NewSlot, LogEntry<V>, u64> for Adding {
    ghost use Rattle.std.specs.Prelude.{None};
    ghost use Rattle.word_slots.specs.declared.log.LogEntry.TheVariants.{Opened};

    ghost ask = { λ slot. Opened slot.index };

    ghost state = { λ slot. None };
}

/// The step that brings a slot's word home.
pub struct Entering;

impl<V> Play<LogEntry<V>, u64> for Entering {
    ghost use Rattle.word_slots.specs.Tickets.{Enters};

    ghost then = { Enters };
}

/// The law that one ticket has one value in all that a thread knows.
pub fn agree<V>(seen: &SeenLog<V>)
    ensures once { (ticket : ℕ) (v w : V) → HasIssued seen.now.log ticket v
        → HasIssued seen.now.log ticket w → v ≡ w }
{
    let mut more = seen.again();
    more.learn(seen);
}
