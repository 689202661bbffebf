//! One list of calls under a budget of every size, from less than the root needs to more than all calls need, and with
//! each of its requests for a node refused in turn.

ghost use Rattle.std.specs.Prelude.{◌≡◌, ◌+◌, ◌^◌, None};

use node_base::base_node::NodeSize;
use node_table::allocator::{Allocator, Budget};
use share_backend::snapshots::{Made, Pages};
use share_faces::typed_congee::{Congee, Guard};
use share_machine::events::Events;
use share_state::share::Share;
use share_tree::direct::Direct;
use spec_map::error::OOMError;
use std::alloc::{AllocError, Global};
use std::collections::BTreeMap;
use std::marker::Brand;
use std::sync::Wait;
use std::sync::atomic::{AtomicU64, Ordering};
use std::sync::ledger::{Blank, Ledger};
use std::test::Fail;

type Map<L, M> = Congee<L, u64, u64, M>;

// Refuses the request of this number, counted from 1, and grants all others.
#[derive(Drop)]
struct OneRefused {
    left: AtomicU64,
}

impl OneRefused {
    fn new(request: u64) -> Self {
        OneRefused {
            left: AtomicU64::new(request),
        }
    }
}

impl Allocator for OneRefused {
    ghost charge = { λ _. None };

    fn allocate(&mut self, _size: NodeSize) -> Result<(), OOMError> {
        if self.left.fetch_sub(1, Ordering::Relaxed) == 1 {
            return Err(OOMError::new());
        }
        Ok(())
    }

    fn deallocate(&mut self, _size: NodeSize) {}
}

// The root's size.
const ROOT: u64 = 2104;

// Room beside it for one small leaf, which has the keys from 0 to 3 first, and after their removals 768, and then 1 << 56.
const ONE_LEAF: u64 = 2168;

// A limit at which no call is refused.
const AMPLE: u64 = 5000;

#[derive(Clone, Copy)]
enum Call {
    Insert(u64),
    Add(u64),
    Remove(u64),
}

// A leaf that grows twice, others beside it and far off, prefixes that are split, and removals that make nodes smaller
// or take them out.
const CALLS: [Call; 40] = [
    Call::Insert(0),
    Call::Insert(256),
    Call::Insert(1),
    Call::Insert(2),
    Call::Insert(3),
    Call::Add(4),
    Call::Insert(1 << 56),
    Call::Insert(5),
    Call::Insert(6),
    Call::Insert(7),
    Call::Insert(8),
    Call::Insert(9),
    Call::Insert(10),
    Call::Insert(11),
    Call::Insert(12),
    Call::Insert(13),
    Call::Insert(14),
    Call::Insert(15),
    Call::Add(16),
    Call::Insert(512),
    Call::Insert(1 << 40),
    Call::Insert((1 << 40) + (1 << 24)),
    Call::Remove(0),
    Call::Remove(1),
    Call::Remove(2),
    Call::Remove(3),
    Call::Remove(4),
    Call::Insert(768),
    Call::Insert(1024),
    Call::Add(256),
    Call::Remove(512),
    Call::Remove(1 << 40),
    Call::Add(1 << 40),
    Call::Remove(1 << 56),
    Call::Insert(u64::MAX),
    Call::Remove(768),
    Call::Remove(1024),
    Call::Insert(1 << 56),
    Call::Add(0),
    Call::Insert(256),
];

// How many of them can be refused: all but the removals. At the root's size all are.
const INSERTIONS: u64 = 30;

// How many calls were refused, whether those are made once more and have to be granted then, and whether all was as it
// is in the plain map.
#[derive(Clone, Copy)]
struct Tally {
    refused: u64,
    is_granted_later: bool,
    right: bool,
}

impl Tally {
    fn note(&mut self, is_right: bool) {
        self.right = self.right && is_right;
    }
}

// Adds 3 to a value of the plain map, and returns the previous one.
fn add_plainly(plain: &mut BTreeMap<u64, u64>, key: u64) -> Result<Option<u64>, AllocError> {
    let before = plain.get(&key).copied();
    plain.insert(key, before.unwrap_or(0).wrapping_add(3))?;
    Ok(before)
}

// Whether a call is answered as the plain map answers it; `None` if it is refused, and then the plain map has no part in it.
fn answered<L: Ledger, M: Pages, R: Wait>(
    rt: &R,
    map: &Map<L, M>,
    guard: &mut Guard<'_, L, M>,
    share: &mut Share<L>,
    plain: &mut BTreeMap<u64, u64>,
    call: Call,
) -> Result<Option<bool>, AllocError>
    requires { guard.old.table ≡ map.now }
    ensures { guard.new.table ≡ guard.old.table }
{
    match call {
        Call::Insert(key) => match map.insert_counted(rt, guard, share, key, key) {
            Ok(before) => Ok(Some(plain.insert(key, key)? == before)),
            Err(_) => Ok(None),
        },
        Call::Add(key) => {
            let mut sum = |old: Option<u64>| -> u64 { old.unwrap_or(0).wrapping_add(3) };
            match map.compute_or_insert(rt, guard, key, &mut sum) {
                Ok(before) => Ok(Some(add_plainly(plain, key)? == before)),
                Err(_) => Ok(None),
            }
        }
        Call::Remove(key) => {
            let before = map.remove_counted(rt, guard, share, &key);
            Ok(Some(before == plain.remove(&key)))
        }
    }
}

// Whether the key's value and the number of pairs are the plain map's.
fn is_same<L: Ledger, M: Pages, R: Wait>(
    rt: &R,
    map: &Map<L, M>,
    guard: &mut Guard<'_, L, M>,
    plain: &BTreeMap<u64, u64>,
    call: Call,
) -> bool
    requires { guard.old.table ≡ map.now }
    ensures { guard.new.table ≡ guard.old.table }
{
    let (Call::Insert(key) | Call::Add(key) | Call::Remove(key)) = call;
    map.get(rt, guard, &key) == plain.get(&key).copied()
        && map.value_count(rt) == plain.len() as u128
}

// Makes a call; a refused one has changed nothing.
fn make<L: Ledger, M: Pages, R: Wait>(
    rt: &R,
    map: &Map<L, M>,
    guard: &mut Guard<'_, L, M>,
    share: &mut Share<L>,
    plain: &mut BTreeMap<u64, u64>,
    tally: &mut Tally,
    call: Call,
) -> Result<(), AllocError>
    requires { guard.old.table ≡ map.now }
    ensures { guard.new.table ≡ guard.old.table }
{
    let Some(is_right) = answered(rt, map, guard, share, plain, call)? else {
        tally.refused = tally.refused.wrapping_add(1);
        tally.note(is_same(rt, map, guard, plain, call));
        if tally.is_granted_later {
            let later = answered(rt, map, guard, share, plain, call)?;
            tally.note(later == Some(true));
        }
        return Ok(());
    };
    tally.note(is_right);
    Ok(())
}

// All calls, and then a look-up of each key.
fn make_all<L: Ledger, M: Pages, R: Wait>(
    rt: &R,
    map: &Map<L, M>,
    share: &mut Share<L>,
    plain: &mut BTreeMap<u64, u64>,
    is_granted_later: bool,
) -> Result<Tally, Fail> {
    let mut guard = map.pin(rt)?;
    let mut tally = Tally {
        refused: 0,
        is_granted_later,
        right: true,
    };
    for call in CALLS {
        make(rt, map, &mut guard, share, plain, &mut tally, call)?;
    }
    for call in CALLS {
        tally.note(is_same(rt, map, &mut guard, plain, call));
    }
    map.unpin(rt, guard);
    Ok(tally)
}

// The tally of `make_all` and of the number of pairs in the end, on a map with this allocator. `None` if there is no map.
fn tally_with<L: Ledger, M: Pages + Made<u64, u64, A>, A: Allocator, R: Wait>(
    rt: &R,
    alloc: Global,
    blank: Blank,
    allocator: A,
    is_granted_later: bool,
) -> Result<Option<Tally>, Fail>
    requires name { blank.name ≡ L.name }
    requires parts { blank.parts ≡ L.parts }
    requires whole { L.parts ≡ 2 ^ 63 + 1 }
{
    let Ok((map, mut share)) = Map::<L, M>::new(alloc, blank, allocator) else {
        return Ok(None);
    };
    let mut plain = BTreeMap::new(alloc);
    let mut tally = make_all(rt, &map, &mut share, &mut plain, is_granted_later)?;
    let pairs = plain.len() as u128;
    tally.note(map.keys(rt, alloc)?.len() as u128 == pairs);
    match map.settle(rt, share) {
        Ok(count) => tally.note(count == pairs),
        Err(_) => tally.note(false),
    }
    Ok(Some(tally))
}

// Whether what a run under this limit showed is right: none below the root's size, all insertions refused at it, all but
// six with room for one small leaf, none where there is ample room.
fn is_right(limit: u64, tally: Option<Tally>) -> bool {
    let Some(tally) = tally else {
        return limit < ROOT;
    };
    tally.right
        && limit >= ROOT
        && tally.refused <= INSERTIONS
        && (limit > ROOT || tally.refused == INSERTIONS)
        && (limit != ONE_LEAF || tally.refused == INSERTIONS - 6)
        && (limit < AMPLE || tally.refused == 0)
}

// The first limit with a wrong answer.
fn wrong_limit<M: Pages + Made<u64, u64, Budget>, R: Wait>(
    rt: &R,
    alloc: Global,
) -> Result<Option<u64>, Fail> {
    for limit in ROOT - 1..=AMPLE {
        let blank = Blank::new((1 << 63) + 1);
        let budget = Budget::new(limit);
        let tally = tally_with::<Brand, M, Budget, R>(rt, alloc, blank, budget, false)?;
        if !is_right(limit, tally) {
            return Ok(Some(limit));
        }
    }
    Ok(None)
}

#[test]
fn a_budget_of_every_size(rt: HostRuntime) -> Result<(), Fail> {
    assert!(rt; wrong_limit::<Events<u64, Budget>, _>(&rt, rt.alloc())? == None);
    assert!(rt; wrong_limit::<Direct<u64, Budget>, _>(&rt, rt.alloc())? == None);
    Ok(())
}

// The first request is the root's. More than the calls make.
const REQUESTS: u64 = 40;

// How many calls were refused in all runs, one request refused in each; `None` if one run was wrong.
fn refused_in_turn<M: Pages + Made<u64, u64, OneRefused>, R: Wait>(
    rt: &R,
    alloc: Global,
) -> Result<Option<u64>, Fail> {
    let mut refused = 0u64;
    for request in 1..REQUESTS {
        let blank = Blank::new((1 << 63) + 1);
        let one = OneRefused::new(request);
        let tally = tally_with::<Brand, M, OneRefused, R>(rt, alloc, blank, one, true)?;
        let (more, right) = match tally {
            Some(tally) => (
                tally.refused,
                tally.right && tally.refused <= 1 && request > 1,
            ),
            None => (0, request == 1),
        };
        if !right {
            return Ok(None);
        }
        refused = refused.wrapping_add(more);
    }
    Ok(Some(refused))
}

// Each node that an insertion takes is one call refused: eight leaves in places of their own, a leaf and an inner node at
// each of three splits, and three nodes that grow.
#[test]
fn each_request_is_refused_in_turn(rt: HostRuntime) -> Result<(), Fail> {
    assert!(rt; refused_in_turn::<Events<u64, OneRefused>, _>(&rt, rt.alloc())? == Some(17));
    assert!(rt; refused_in_turn::<Direct<u64, OneRefused>, _>(&rt, rt.alloc())? == Some(17));
    Ok(())
}
