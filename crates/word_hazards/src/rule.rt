//! The rule of the book, and what a seat knows after each step.

use std::marker::Model;
use word_book::seat::{Meeting, Rule, Seat};
use word_book::word::{Play, Word};

/// What a seat knows. It exists in proofs alone.
pub struct Knowledge;

impl Model for Knowledge {
    ghost use Rattle.word_hazards.specs.Views.{View, nobody};

    ghost Value = { View };

    ghost view = { λ _. nobody };
}

/// The rule of all words and seats.
pub struct HazardRule;

impl Rule<Knowledge> for HazardRule {
    ghost use Rattle.word_hazards.specs.Views.{nobody};
    ghost use Rattle.word_hazards.specs.inner.Rule.{AreHazards};

    ghost holds = { AreHazards };

    ghost first = { nobody };
}

/// A word of the book: a hazard, the count of segments, or a word of a slot. 8 bytes.
pub type HazardWord = Word<Knowledge, HazardRule>;

/// What one thread knows of the book. It takes no bytes.
pub type HazardSeat = Seat<Knowledge, HazardRule>;

/// A step after which the seat knows no more.
pub struct Same;

impl Play<Knowledge> for Same {
    ghost use Rattle.word_hazards.specs.Steps.{Same};

    ghost then = { Same };
}

/// A hazard is taken.
pub struct Settles;

impl Play<Knowledge> for Settles {
    ghost use Rattle.word_hazards.specs.Steps.{Settles};

    ghost then = { Settles };
}

/// A hazard is left to others.
pub struct Leaves;

impl Play<Knowledge> for Leaves {
    ghost use Rattle.word_hazards.specs.Steps.{Leaves};

    ghost then = { Leaves };
}

/// A hazard gets another number.
pub struct Announces;

impl Play<Knowledge> for Announces {
    ghost use Rattle.word_hazards.specs.Steps.{Announces};

    ghost then = { Announces };
}

/// The state of an announced ticket's slot is read.
pub struct Validates;

impl Play<Knowledge> for Validates {
    ghost use Rattle.word_hazards.specs.Steps.{Validates};

    ghost then = { Validates };
}

/// The owner of a ticket that is lent is read.
pub struct Learns;

impl Play<Knowledge> for Learns {
    ghost use Rattle.word_hazards.specs.Steps.{Learns};

    ghost then = { Learns };
}

/// A slot is claimed.
pub struct Claims;

impl Play<Knowledge> for Claims {
    ghost use Rattle.word_hazards.specs.Steps.{Claims};

    ghost then = { Claims };
}

/// An owner is put into a slot.
pub struct Fills;

impl Play<Knowledge> for Fills {
    ghost use Rattle.word_hazards.specs.Steps.{Fills};

    ghost then = { Fills };
}

/// A ticket is issued.
pub struct Issues;

impl Play<Knowledge> for Issues {
    ghost use Rattle.word_hazards.specs.Steps.{Issues};

    ghost then = { Issues };
}

/// A ticket is retired, or found so.
pub struct Retires;

impl Play<Knowledge> for Retires {
    ghost use Rattle.word_hazards.specs.Steps.{Retires};

    ghost then = { Retires };
}

/// A hazard is read by a scan.
pub struct Scans;

impl Play<Knowledge> for Scans {
    ghost use Rattle.word_hazards.specs.Steps.{Scans};

    ghost then = { Scans };
}

/// The owner in a slot is read.
pub struct Peeks;

impl Play<Knowledge> for Peeks {
    ghost use Rattle.word_hazards.specs.Steps.{Peeks};

    ghost then = { Peeks };
}

/// A ticket is reclaimed.
pub struct Reclaims;

impl Play<Knowledge> for Reclaims {
    ghost use Rattle.word_hazards.specs.Steps.{Reclaims};

    ghost then = { Reclaims };
}

/// A segment joins.
pub struct Grows;

impl Play<Knowledge> for Grows {
    ghost use Rattle.word_hazards.specs.Steps.{Grows};

    ghost then = { Grows };
}

/// Two seats meet.
pub struct Meets;

impl Meeting<Knowledge> for Meets {
    ghost use Rattle.word_hazards.specs.inner.Rule.{Meet};

    ghost then = { Meet };
}
