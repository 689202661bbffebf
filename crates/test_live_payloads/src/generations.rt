//! A slot whose generations are used up is used no more, and others go on.
ghost use Rattle.std.specs.Prelude.{◌≡◌};

use std::alloc::Global;
use std::sync::Wait;
use std::test::Fail;
use word_slots::log::SeenLog;
use word_slots::slots::Slots;

// How many lists of free slots there are. The first page has four slots of each.
const LISTS: u64 = 16;

// Inserts a value and takes it out: its ticket.
fn passed<R: Wait>(
    rt: &R,
    alloc: Global,
    slots: &Slots<u64>,
    seen: &mut SeenLog<u64>,
    value: u64,
) -> Option<u64>
    requires { seen.old.book ≡ slots.now }
    ensures { seen.new.book ≡ seen.old.book }
{
    let ticket = slots.insert(alloc, seen, 0, value).ok()?;
    if slots.take(rt, seen, ticket) == value {
        Some(ticket)
    } else {
        None
    }
}

// The ticket of the n-th value that goes through slots that are used three times each.
fn expected(n: u64) -> u64 {
    let slot = n / 3;
    let index = (slot % 4).wrapping_mul(LISTS).wrapping_add(slot / 4);
    (n % 3).wrapping_mul(0x1_0000_0000).wrapping_add(index)
}

// Passes values through the slots: how many of them got the ticket that they should.
fn right<R: Wait>(rt: &R, alloc: Global, slots: &Slots<u64>, count: u64) -> u64 {
    let mut seen = slots.seen();
    for value in 0..count {
        if passed(rt, alloc, slots, &mut seen, value) != Some(expected(value)) {
            return value;
        }
    }
    count
}

#[test]
fn a_slot_ends_with_its_last_generation(rt: HostRuntime) -> Result<(), Fail> {
    let slots: Slots<u64> = Slots::with_uses(rt.alloc(), 3)?;
    assert_eq!(rt; right(&rt, rt.alloc(), &slots, 192), 192);
    Ok(())
}
