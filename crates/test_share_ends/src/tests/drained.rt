//! Calls that take a pair out of a map or write over one, and the map's drainer: it is called at the drop alone, with each
//! pair that is left, keys ascending.

ghost use Rattle.std.specs.Prelude.{◌≡◌, ◌+◌, ◌^◌};

use congee::shared::{NoGate, Share};
use congee::{DefaultAllocator, Drainer, locked, shared};
use share_backend::snapshots::Pages;
use share_faces::typed_congee::{Congee, Guard};
use std::alloc::Global;
use std::marker::Brand;
use std::sync::Wait;
use std::sync::atomic::{AtomicU64, Ordering};
use std::sync::ledger::{Blank, Ledger};
use std::test::Fail;

/// Notes the pairs with which it is called, as a number that shows their order: three digits for each pair, the key's and
/// the value's.
#[derive(Drop)]
struct Notes<'a> {
    text: &'a AtomicU64,
}

impl<'a> Drainer<u64, u64> for Notes<'a> {
    ghost can_drain = { λ _. Unit {0} };

    fn drain(&self, k: u64, v: u64) {
        let before = self.text.load(Ordering::SeqCst);
        let after = before
            .wrapping_mul(1000)
            .wrapping_add(k.wrapping_mul(100))
            .wrapping_add(v);
        self.text.store(after, Ordering::SeqCst);
    }
}

type Map<'n, L, M> = Congee<L, u64, u64, M, Notes<'n>>;

type SharedMap<'n, L> = shared::Congee<L, u64, u64, DefaultAllocator, Notes<'n>>;

type LockedMap<'n, L> = locked::Congee<L, u64, u64, DefaultAllocator, Notes<'n>>;

/// A call about the key 2.
#[derive(Clone, Copy)]
enum Change {
    Insert,
    InsertGated,
    InsertCounted,
    Remove,
    RemoveGated,
    RemoveCounted,
    Compute(Option<u64>),
    ComputeOrInsert,
    Exchange(Option<u64>),
}

// What the drainer has been called with after the drop of a map that had (1, 10), (2, 20) and (3, 30).
const CHANGES: [(Change, u64); 11] = [
    (Change::Insert, 110_221_330),
    (Change::InsertGated, 110_222_330),
    (Change::InsertCounted, 110_223_330),
    (Change::Remove, 110_330),
    (Change::RemoveGated, 110_330),
    (Change::RemoveCounted, 110_330),
    (Change::Compute(Some(24)), 110_224_330),
    (Change::Compute(None), 110_330),
    (Change::ComputeOrInsert, 110_225_330),
    (Change::Exchange(Some(26)), 110_226_330),
    (Change::Exchange(None), 110_330),
];

// A computation about the key 2.
fn compute<L: Ledger, M: Pages, R: Wait>(
    rt: &R,
    map: &Map<'_, L, M>,
    guard: &mut Guard<'_, L, M>,
    answer: Option<u64>,
) -> Option<u64>
    requires { guard.old.table ≡ map.now }
    ensures { guard.new.table ≡ guard.old.table }
{
    let mut answers = |_old: u64| -> Option<u64> { answer };
    let (before, _) = map.compute_if_present(rt, guard, &2, &mut answers)?;
    Some(before)
}

fn compute_or_insert<L: Ledger, M: Pages, R: Wait>(
    rt: &R,
    map: &Map<'_, L, M>,
    guard: &mut Guard<'_, L, M>,
) -> Option<u64>
    requires { guard.old.table ≡ map.now }
    ensures { guard.new.table ≡ guard.old.table }
{
    let mut answers = |_old: Option<u64>| -> u64 { 25 };
    map.compute_or_insert(rt, guard, 2, &mut answers).ok()?
}

// The value that was at 2. (An exchange returns its new value, so it is the one that it compared.)
fn make<L: Ledger, M: Pages, R: Wait>(
    rt: &R,
    map: &Map<'_, L, M>,
    guard: &mut Guard<'_, L, M>,
    share: &mut Share<L>,
    call: Change,
) -> Option<u64>
    requires { guard.old.table ≡ map.now }
    ensures { guard.new.table ≡ guard.old.table }
{
    match call {
        Change::Insert => map.insert(rt, guard, 2, 21).ok()?,
        Change::InsertGated => map.insert_gated(rt, guard, 2, 22, &mut NoGate).ok()?,
        Change::InsertCounted => map.insert_counted(rt, guard, share, 2, 23).ok()?,
        Change::Remove => map.remove(rt, guard, &2),
        Change::RemoveGated => map.remove_gated(rt, guard, &2, &mut NoGate),
        Change::RemoveCounted => map.remove_counted(rt, guard, share, &2),
        Change::Compute(answer) => compute(rt, map, guard, answer),
        Change::ComputeOrInsert => compute_or_insert(rt, map, guard),
        Change::Exchange(new) => {
            if map.compare_exchange(rt, guard, &2, &20, new) == Ok(new) {
                Some(20)
            } else {
                None
            }
        }
    }
}

fn fill<L: Ledger, M: Pages, R: Wait>(
    rt: &R,
    map: &Map<'_, L, M>,
    guard: &mut Guard<'_, L, M>,
) -> Result<(), Fail>
    requires { guard.old.table ≡ map.now }
    ensures { guard.new.table ≡ guard.old.table }
{
    for (key, value) in [(3, 30), (1, 10), (2, 20)] {
        map.insert(rt, guard, key, value)?;
    }
    Ok(())
}

// What the drainer has been called with before the drop, where the call is about the value 20.
fn changed<L: Ledger, M: Pages, R: Wait>(
    rt: &R,
    map: &Map<'_, L, M>,
    mut share: Share<L>,
    text: &AtomicU64,
    call: Change,
) -> Result<Option<u64>, Fail> {
    let mut guard = map.pin(rt)?;
    fill(rt, map, &mut guard)?;
    let before = make(rt, map, &mut guard, &mut share, call);
    map.unpin(rt, guard);
    if before == Some(20) {
        return Ok(Some(text.load(Ordering::SeqCst)));
    }
    Ok(None)
}

// What the drainer of a map over events has been called with before the drop, and what after it.
fn over_events<L: Ledger, R: Wait>(
    rt: &R,
    alloc: Global,
    blank: Blank,
    call: Change,
) -> Result<(Option<u64>, u64), Fail>
    requires name { blank.name ≡ L.name }
    requires parts { blank.parts ≡ L.parts }
    requires whole { L.parts ≡ 2 ^ 63 + 1 }
{
    let text = AtomicU64::new(0);
    let notes = Notes { text: &text };
    let (map, share) = SharedMap::<'_, L>::new_with_drainer(
        alloc,
        blank,
        DefaultAllocator {},
        notes,
    )?;
    let before = changed(rt, &map, share, &text, call)?;
    drop(map);
    Ok((before, text.load(Ordering::SeqCst)))
}

fn over_tree<L: Ledger, R: Wait>(
    rt: &R,
    alloc: Global,
    blank: Blank,
    call: Change,
) -> Result<(Option<u64>, u64), Fail>
    requires name { blank.name ≡ L.name }
    requires parts { blank.parts ≡ L.parts }
    requires whole { L.parts ≡ 2 ^ 63 + 1 }
{
    let text = AtomicU64::new(0);
    let notes = Notes { text: &text };
    let (map, share) = LockedMap::<'_, L>::new_with_drainer(
        alloc,
        blank,
        DefaultAllocator {},
        notes,
    )?;
    let before = changed(rt, &map, share, &text, call)?;
    drop(map);
    Ok((before, text.load(Ordering::SeqCst)))
}

// The place of the first change that is wrong on either form.
fn wrong_change<R: Wait>(rt: &R, alloc: Global) -> Result<usize, Fail> {
    let mut place = 0;
    for (call, left) in CHANGES {
        let events = over_events::<Brand, R>(rt, alloc, Blank::new((1 << 63) + 1), call)?;
        let tree = over_tree::<Brand, R>(rt, alloc, Blank::new((1 << 63) + 1), call)?;
        if events != (Some(0), left) || tree != (Some(0), left) {
            return Ok(place);
        }
        place = place.saturating_add(1);
    }
    Ok(99)
}

#[test]
fn a_drainer_sees_no_call_before_the_drop(rt: HostRuntime) -> Result<(), Fail> {
    assert!(rt; wrong_change(&rt, rt.alloc())? == 99);
    Ok(())
}

/// A call of `locked` alone, which takes out some pairs in one hold.
#[derive(Clone, Copy)]
enum Removal {
    PopFirst,
    PopLast,
    RemoveRange,
    RemoveRangeInclusive,
    ExtractRange,
    Retain,
    Clear,
}

// What the drainer has been called with after the drop of such a map.
const REMOVALS: [(Removal, u64); 7] = [
    (Removal::PopFirst, 220_330),
    (Removal::PopLast, 110_220),
    (Removal::RemoveRange, 110_330),
    (Removal::RemoveRangeInclusive, 330),
    (Removal::ExtractRange, 330),
    (Removal::Retain, 110_330),
    (Removal::Clear, 0),
];

fn take_out<L: Ledger, R: Wait>(
    rt: &R,
    map: &LockedMap<'_, L>,
    guard: &mut locked::Guard<'_, L>,
    removal: Removal,
)
    requires { guard.old.table ≡ map.now }
    ensures { guard.new.table ≡ guard.old.table }
{
    match removal {
        Removal::PopFirst => drop(map.pop_first(rt, guard)),
        Removal::PopLast => drop(map.pop_last(rt, guard)),
        Removal::RemoveRange => drop(map.remove_range(rt, guard, &2, &3)),
        Removal::RemoveRangeInclusive => drop(map.remove_range_inclusive(rt, guard, &1, &2)),
        Removal::ExtractRange => {
            let mut take = |_key: u64, _value: u64| {};
            map.extract_range(rt, guard, &1, &3, &mut take);
        }
        Removal::Retain => {
            let mut keep = |key: u64, _value: u64| -> bool { key != 2 };
            map.retain(rt, guard, &mut keep);
        }
        Removal::Clear => map.clear(rt, guard),
    }
}

// What the drainer has been called with before the drop, and after it.
fn taken_out<L: Ledger, R: Wait>(
    rt: &R,
    alloc: Global,
    blank: Blank,
    removal: Removal,
) -> Result<(u64, u64), Fail>
    requires name { blank.name ≡ L.name }
    requires parts { blank.parts ≡ L.parts }
    requires whole { L.parts ≡ 2 ^ 63 + 1 }
{
    let text = AtomicU64::new(0);
    let notes = Notes { text: &text };
    let (map, _) = LockedMap::<'_, L>::new_with_drainer(alloc, blank, DefaultAllocator {}, notes)?;
    let mut guard = map.pin(rt)?;
    fill(rt, &map, &mut guard)?;
    take_out(rt, &map, &mut guard, removal);
    map.unpin(rt, guard);
    let before = text.load(Ordering::SeqCst);
    drop(map);
    Ok((before, text.load(Ordering::SeqCst)))
}

// The place of the first removal that is wrong.
fn wrong_removal<R: Wait>(rt: &R, alloc: Global) -> Result<usize, Fail> {
    let mut place = 0;
    for (removal, left) in REMOVALS {
        let found = taken_out::<Brand, R>(rt, alloc, Blank::new((1 << 63) + 1), removal)?;
        if found != (0, left) {
            return Ok(place);
        }
        place = place.saturating_add(1);
    }
    Ok(99)
}

#[test]
fn a_drainer_sees_no_removal_of_many_before_the_drop(rt: HostRuntime) -> Result<(), Fail> {
    assert!(rt; wrong_removal(&rt, rt.alloc())? == 99);
    Ok(())
}

// What the drainer has been called with once such a map has one owner, and how many pairs it has then.
fn owned<L: Ledger, R: Wait>(rt: &R, alloc: Global, blank: Blank) -> Result<(u64, u128), Fail>
    requires name { blank.name ≡ L.name }
    requires parts { blank.parts ≡ L.parts }
    requires whole { L.parts ≡ 2 ^ 63 + 1 }
{
    let text = AtomicU64::new(0);
    let notes = Notes { text: &text };
    let (map, _) = LockedMap::<'_, L>::new_with_drainer(alloc, blank, DefaultAllocator {}, notes)?;
    let mut guard = map.pin(rt)?;
    fill(rt, &map, &mut guard)?;
    let note = guard.note();
    map.unpin(rt, guard);
    let pairs = map.into_owned(rt, note).into_tree().value_count();
    Ok((text.load(Ordering::SeqCst), pairs))
}

#[test]
fn a_drainer_is_not_called_where_a_map_has_one_owner_again(rt: HostRuntime) -> Result<(), Fail> {
    let found = owned::<Brand, _>(&rt, rt.alloc(), Blank::new((1 << 63) + 1))?;
    assert!(rt; found == (0, 3));
    Ok(())
}
