//! What nodes are charged: it follows the content, also after calls that meet.

ghost use Rattle.std.specs.Prelude.{◌≡◌, ◌+◌, ◌^◌, None};

use node_base::base_node::NodeSize;
use node_table::allocator::Allocator;
use share_backend::snapshots::{Made, Pages};
use share_faces::typed_congee::{Congee, Guard};
use share_holds::gate::Gate;
use share_machine::events::Events;
use share_tree::direct::Direct;
use spec_map::error::OOMError;
use spec_olc::types::Report;
use std::alloc::Global;
use std::marker::Brand;
use std::sync::atomic::{AtomicU64, Ordering};
use std::sync::ledger::{Blank, Ledger};
use std::sync::{Arc, Wait};
use std::test::Fail;

// Grants each request, and counts what is charged.
#[derive(Drop)]
struct Counted {
    charged: Arc<AtomicU64>,
}

impl Allocator for Counted {
    ghost charge = { λ _. None };

    fn allocate(&mut self, size: NodeSize) -> Result<(), OOMError> {
        self.charged.fetch_add(size.bytes(), Ordering::SeqCst);
        Ok(())
    }

    fn deallocate(&mut self, size: NodeSize) {
        self.charged.fetch_sub(size.bytes(), Ordering::SeqCst);
    }
}

type Machine = Events<u64, Counted>;

type Tree = Direct<u64, Counted>;

type Map<L, M> = Congee<L, u64, u64, M>;

/// A key that is stored or removed, and what is charged after that.
#[derive(Clone, Copy)]
enum Step {
    Put(u64, u64),
    Take(u64, u64),
}

// Whether the call finds the key absent, or present, and this is charged after it.
fn goes<L: Ledger, M: Pages, R: Wait>(
    rt: &R,
    map: &Map<L, M>,
    guard: &mut Guard<'_, L, M>,
    charged: &AtomicU64,
    step: Step,
) -> bool
    requires { guard.old.table ≡ map.now }
    ensures { guard.new.table ≡ guard.old.table }
{
    match step {
        Step::Put(key, wanted) => {
            let absent = match map.insert(rt, guard, key, key) {
                Ok(before) => before == None,
                Err(_) => false,
            };
            absent && charged.load(Ordering::SeqCst) == wanted
        }
        Step::Take(key, wanted) => {
            let before = map.remove(rt, guard, &key);
            before == Some(key) && charged.load(Ordering::SeqCst) == wanted
        }
    }
}

// How many steps go as they say, up to the first that doesn't.
fn steps_gone<L: Ledger, M: Pages, R: Wait>(
    rt: &R,
    map: &Map<L, M>,
    charged: &AtomicU64,
    steps: &[Step],
) -> Result<u64, Fail> {
    let mut guard = map.pin(rt)?;
    let mut gone = 0u64;
    for step in steps {
        if !goes(rt, map, &mut guard, charged, *step) {
            return Ok(gone);
        }
        gone = gone.wrapping_add(1);
    }
    map.unpin(rt, guard);
    Ok(gone)
}

// Stores the keys from one on and below another, each so far from the next.
fn store<L: Ledger, M: Pages, R: Wait>(
    rt: &R,
    map: &Map<L, M>,
    first: u64,
    end: u64,
    apart: u64,
) -> Result<(), Fail> {
    let mut guard = map.pin(rt)?;
    for key in first..end {
        map.insert(rt, &mut guard, key.wrapping_mul(apart), key)?;
    }
    map.unpin(rt, guard);
    Ok(())
}

// How many steps go as they say on a new map that stores the first keys from 0 on.
fn steps_after<L: Ledger, M: Pages + Made<u64, u64, Counted>, R: Wait>(
    rt: &R,
    alloc: Global,
    blank: Blank,
    keys: u64,
    steps: &[Step],
) -> Result<u64, Fail>
    requires name { blank.name ≡ L.name }
    requires parts { blank.parts ≡ L.parts }
    requires whole { L.parts ≡ 2 ^ 63 + 1 }
{
    let charged = Arc::new(alloc, AtomicU64::new(0))?;
    let counted = Counted {
        charged: charged.clone()?,
    };
    let (map, _) = Map::<L, M>::new(alloc, blank, counted)?;
    store(rt, &map, 0, keys, 1)?;
    steps_gone(rt, &map, &charged, steps)
}

// How many steps go as they say on a new map over the machine, and on one over the tree, after the first keys are stored.
fn gone_on_both<R: Wait>(
    rt: &R,
    alloc: Global,
    keys: u64,
    steps: &[Step],
) -> Result<(u64, u64), Fail> {
    let whole = Blank::new((1 << 63) + 1);
    let machine = steps_after::<Brand, Machine, _>(rt, alloc, whole, keys, steps)?;
    let whole = Blank::new((1 << 63) + 1);
    let tree = steps_after::<Brand, Tree, _>(rt, alloc, whole, keys, steps)?;
    Ok((machine, tree))
}

// An inner node goes with its last leaf.
#[test]
fn two_leaves_go(rt: HostRuntime) -> Result<(), Fail> {
    const STEPS: [Step; 4] = [
        Step::Put(1, 2168),
        Step::Put(256, 2296),
        Step::Take(1, 2232),
        Step::Take(256, 2104),
    ];
    assert!(rt; gone_on_both(&rt, rt.alloc(), 0, &STEPS)? == (4, 4));
    Ok(())
}

// A leaf of 17 keys goes into smaller forms, where 12 and 3 keys are left.
#[test]
fn a_leaf_shrinks(rt: HostRuntime) -> Result<(), Fail> {
    const STEPS: [Step; 18] = [
        Step::Take(16, 2776),
        Step::Take(15, 2776),
        Step::Take(14, 2776),
        Step::Take(13, 2776),
        Step::Take(12, 2272),
        Step::Put(12, 2272),
        Step::Take(11, 2272),
        Step::Take(12, 2272),
        Step::Take(10, 2272),
        Step::Take(9, 2272),
        Step::Take(8, 2272),
        Step::Take(7, 2272),
        Step::Take(6, 2272),
        Step::Take(5, 2272),
        Step::Take(4, 2272),
        Step::Take(3, 2168),
        Step::Take(2, 2168),
        Step::Take(1, 2168),
    ];
    assert!(rt; gone_on_both(&rt, rt.alloc(), 17, &STEPS)? == (18, 18));
    Ok(())
}

// Five nodes above a leaf have no other child in the end. With the last key the tree loses all six, the machine the
// leaf and the two next to it.
#[test]
fn two_emptied_nodes_go_at_once(rt: HostRuntime) -> Result<(), Fail> {
    const STEPS: [Step; 13] = [
        Step::Put(0, 2168),
        Step::Put(256, 2296),
        Step::Put(65_536, 2424),
        Step::Put(16_777_216, 2552),
        Step::Put(4_294_967_296, 2680),
        Step::Put(1_099_511_627_776, 2808),
        Step::Take(256, 2744),
        Step::Take(65_536, 2680),
        Step::Take(16_777_216, 2616),
        Step::Take(4_294_967_296, 2552),
        Step::Take(1_099_511_627_776, 2488),
        Step::Take(0, 2296),
        Step::Put(0, 2360),
    ];
    assert!(rt; gone_on_both(&rt, rt.alloc(), 0, &STEPS)? == (13, 11));
    Ok(())
}

fn scattered(i: u64) -> u64 {
    let x = i.wrapping_add(1).wrapping_mul(0x9e37_79b9_7f4a_7c15);
    let y = (x ^ x.wrapping_shr(30)).wrapping_mul(0xbf58_476d_1ce4_e5b9);
    y ^ y.wrapping_shr(27)
}

// One of 253 keys, in leaves and below inner nodes of all forms, of which two lie above one another at most.
fn key_of(choice: u64) -> u64 {
    let apart = match choice.wrapping_shr(6) % 4 {
        0 => 1,
        1 => 256,
        2 => 65_536,
        _ => 72_057_594_037_927_936,
    };
    (choice % 64).wrapping_mul(apart)
}

// Removes a key, by one of the three calls that do.
fn take_out<L: Ledger, M: Pages, R: Wait>(
    rt: &R,
    map: &Map<L, M>,
    guard: &mut Guard<'_, L, M>,
    key: u64,
    call: u64,
)
    requires { guard.old.table ≡ map.now }
    ensures { guard.new.table ≡ guard.old.table }
{
    match call % 3 {
        0 => {
            map.remove(rt, guard, &key);
        }
        1 => {
            let mut nothing = |_old: u64| -> Option<u64> { None };
            map.compute_if_present(rt, guard, &key, &mut nothing);
        }
        _ => {
            let _ = map.compare_exchange(rt, guard, &key, &key, None);
        }
    }
}

// Mixed calls, in times in which most insert, some do, and none does. Then all keys are removed. Returns a number that
// what was charged after each call makes up.
fn mixed<L: Ledger, M: Pages, R: Wait>(
    rt: &R,
    map: &Map<L, M>,
    charged: &AtomicU64,
) -> Result<u64, Fail> {
    let mut guard = map.pin(rt)?;
    let mut sum = 0u64;
    for i in 0..6_000u64 {
        let choice = scattered(i);
        let inserts = match (i / 500) % 3 {
            0 => 3,
            1 => 1,
            _ => 0,
        };
        if choice.wrapping_shr(40) % 4 < inserts {
            map.insert(rt, &mut guard, key_of(choice), key_of(choice))?;
        } else {
            take_out(rt, map, &mut guard, key_of(choice), choice.wrapping_shr(50));
        }
        sum = sum
            .wrapping_mul(31)
            .wrapping_add(charged.load(Ordering::SeqCst));
    }
    for choice in 0..256u64 {
        take_out(rt, map, &mut guard, key_of(choice), choice);
    }
    map.unpin(rt, guard);
    Ok(sum)
}

// The number of the mixed calls on a new map, and what is charged at their end.
fn mixed_on<L: Ledger, M: Pages + Made<u64, u64, Counted>, R: Wait>(
    rt: &R,
    alloc: Global,
    blank: Blank,
) -> Result<(u64, u64), Fail>
    requires name { blank.name ≡ L.name }
    requires parts { blank.parts ≡ L.parts }
    requires whole { L.parts ≡ 2 ^ 63 + 1 }
{
    let charged = Arc::new(alloc, AtomicU64::new(0))?;
    let counted = Counted {
        charged: charged.clone()?,
    };
    let (map, _) = Map::<L, M>::new(alloc, blank, counted)?;
    let sum = mixed(rt, &map, &charged)?;
    Ok((sum, charged.load(Ordering::SeqCst)))
}

// Each call leaves the machine charged as it leaves the tree, where no more than two emptied nodes lie above one another.
#[test]
fn both_forms_are_charged_the_same(rt: HostRuntime) -> Result<(), Fail> {
    let whole = Blank::new((1 << 63) + 1);
    let machine = mixed_on::<Brand, Machine, _>(&rt, rt.alloc(), whole)?;
    let whole = Blank::new((1 << 63) + 1);
    let tree = mixed_on::<Brand, Tree, _>(&rt, rt.alloc(), whole)?;
    assert!(rt; machine == tree && machine.1 == 2104);
    Ok(())
}

// Keys that are so far from one another are in leaves of their own, next to the root.
const APART: u64 = 1 << 56;

// At its first call it removes the five keys.
#[derive(Drop)]
struct Removes<'a, R, L: Ledger, M: Pages> {
    rt: &'a R,
    map: &'a Map<L, M>,
    done: bool,
}

impl<'a, R: Wait, L: Ledger, M: Pages> Gate for Removes<'a, R, L, M> {
    fn between(&mut self, _report: &Report) {
        if self.done {
            return;
        }
        self.done = true;
        let Ok(mut guard) = self.map.pin(self.rt) else {
            return;
        };
        for key in 1..6u64 {
            self.map
                .remove(self.rt, &mut guard, &key.wrapping_mul(APART));
        }
        self.map.unpin(self.rt, guard);
    }
}

// Looks one key up, and removes the five in the middle of that.
fn remove_within_a_get<L: Ledger, M: Pages, R: Wait>(rt: &R, map: &Map<L, M>) -> Result<(), Fail> {
    let mut guard = map.pin(rt)?;
    let mut gate = Removes {
        rt,
        map,
        done: false,
    };
    map.get_gated(rt, &mut guard, &0, &mut gate);
    map.unpin(rt, guard);
    Ok(())
}

// The five keys are removed in the middle of a get, so their leaves aren't reclaimed. Returns what is charged then, and
// how many of the steps after that go as they say.
fn kept_by_a_get<L: Ledger, R: Wait>(
    rt: &R,
    alloc: Global,
    blank: Blank,
    steps: &[Step],
) -> Result<(u64, u64), Fail>
    requires name { blank.name ≡ L.name }
    requires parts { blank.parts ≡ L.parts }
    requires whole { L.parts ≡ 2 ^ 63 + 1 }
{
    let charged = Arc::new(alloc, AtomicU64::new(0))?;
    let counted = Counted {
        charged: charged.clone()?,
    };
    let (map, _) = Map::<L, Machine>::new(alloc, blank, counted)?;
    store(rt, &map, 0, 4, 1)?;
    store(rt, &map, 1, 6, APART)?;
    remove_within_a_get(rt, &map)?;
    let kept = charged.load(Ordering::SeqCst);
    Ok((kept, steps_gone(rt, &map, &charged, steps)?))
}

// An insertion that replaces a leaf reclaims two slots, a removal that replaces one reclaims four.
#[test]
fn two_or_four_slots_are_reclaimed(rt: HostRuntime) -> Result<(), Fail> {
    const STEPS: [Step; 6] = [
        Step::Put(4, 2528),
        Step::Take(4, 2528),
        Step::Take(3, 2336),
        Step::Take(2, 2336),
        Step::Take(1, 2336),
        Step::Take(0, 2104),
    ];
    let whole = Blank::new((1 << 63) + 1);
    let found = kept_by_a_get::<Brand, _>(&rt, rt.alloc(), whole, &STEPS)?;
    assert!(rt; found == (2488, 6));
    Ok(())
}
