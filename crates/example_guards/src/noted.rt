//! What one caller notes, another learns: the two guards are never in one place, and the note goes from one to the other,
//! as through a channel.

ghost use Rattle.std.specs.Prelude.{◌≡◌, ℕ, IfOk};
ghost use Rattle.example_guards.specs.Callers.{HandedOver, IsNoted};

use crate::Map;
use congee::OOMError;
use congee::guard_laws::a_get_finds_what_was_inserted;
use congee::locked::{Guard, Note};
use std::sync::Wait;
use std::sync::ledger::Ledger;

/// The giver stores the value, and notes it.
pub fn store_and_note<L: Ledger, R: Wait>(
    rt: &R,
    map: &Map<L>,
    giver: &mut Guard<'_, L>,
    key: u64,
    value: u64,
) -> Result<Note<L>, OOMError>
    requires giver { giver.old.table ≡ map.now }
    ensures map { IfOk result (λ note. note.table ≡ map.now) }
    ensures noted { IfOk result (λ note. IsNoted giver.old.caller key value note.seen) }
{
    map.insert(rt, giver, key, value)?;
    Ok(giver.note())
}

/// The taker learns the note, and looks the key up. It finds the value that was noted, unless somebody changes the key
/// in between; what was done in between is known then.
pub fn learn_and_find<L: Ledger, R: Wait>(
    rt: &R,
    map: &Map<L>,
    taker: &mut Guard<'_, L>,
    note: &mut Note<L>,
    key: u64,
) -> Option<u64>
    requires taker { taker.old.table ≡ map.now }
    requires note { note.old.table ≡ map.now }
    ensures found { (giver value : ℕ) → IsNoted giver key value note.old.seen
        → HandedOver giver taker.old.caller key value result taker.new.seen }
{
    a_get_finds_what_was_inserted::<u64>();
    taker.learn(note);
    map.get(rt, taker, &key)
}
