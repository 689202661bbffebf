//! A node that a key meets on its path, which may have no key that begins like it.
ghost use Rattle.std.specs.Prelude.{◌≡◌, ◌≢◌, ℕ, ◌+◌, ◌-◌, ◌<◌, ◌≤◌, List, Some, None, IfSome, IfNone, IsTrue};
ghost use Rattle.std.specs.Int.{bit_at};
ghost use Rattle.live_layout.specs.Words.{lane};
ghost use Rattle.live_layout.specs.Head.{IsHead};
ghost use Rattle.live_nodes.specs.Levels.{digit};
ghost use Rattle.live_reads.specs.Paths.{Sights, Leaves, IsOpen, Keeps, Ended};
ghost use Rattle.live_reads.specs.Sees.{Sees, HasMet, Follows, IsNextOpen};

use crate::path::{Nodes, Opened, Seat, look, open};
use live_layout::form::slot_below;
use live_layout::head::prefix_len;
use live_layout::lanes::lane_of;
use live_layout::words::ReadWords;
use live_nodes::map_law::{Asks, Head, MapLaw, MapView};
use live_nodes::node;
use live_nodes::rows::SharedWords;
use std::simd::prelude::*;

/// A node as a key sees it: its height, if it has keys that begin like this one. Otherwise the height at which it has another
/// byte, and that byte.
#[derive(Clone, Copy, Debug, PartialEq, Eq)]
pub enum PrefixMatch {
    Covers(usize),
    Leaves(usize, u8),
}

/// A node whose path a key leaves at a height, where the node has that byte.
#[derive(Clone, Copy, Debug, PartialEq, Eq)]
pub struct Mismatch {
    pub below: u64,
    pub at: usize,
    pub byte: u8,
}

/// What is next on a key's path: nothing, a node with its height, or a node whose path the key leaves.
#[derive(Clone, Copy, Debug, PartialEq, Eq)]
pub enum Next {
    Ends,
    Goes(u64, usize),
    Mismatches(Mismatch),
}

/// A node that a key has come to: open, and as the key sees it.
#[derive(Clone, Copy)]
pub struct Met<'a> {
    pub here: Opened<'a>,
    pub prefix_match: PrefixMatch,
}

/// What is next on a key's path, and the node that is open then: the next one, if there is one.
#[derive(Clone, Copy)]
pub struct Arrival<'a> {
    pub here: Opened<'a>,
    pub next: Next,
}

// A bit for each byte of a head that may be of its prefix: whether the key has another one there. All are compared at once.
#[inline(always)]
fn other_lanes(head: u64, key: u64) -> u64
    ensures same { (k : ℕ) → 1 ≤ k → k < 8 → lane head k ≡ digit (9 - k) key → bit_at result k ≡ 0 }
    ensures other { (k : ℕ) → 1 ≤ k → k < 8 → lane head k ≢ digit (9 - k) key → bit_at result k ≡ 1 }
{
    let lanes = u8x8::from_array(head.to_le_bytes());
    lanes
        .simd_ne(u8x8::from_array((key >> 8).to_be_bytes()))
        .to_bitmask()
}

// Whether a key begins with a prefix of so many bytes, which this head has: one comparison.
#[inline(always)]
fn begins_alike(head: u64, deep: usize, key: u64) -> bool
    requires { deep ≤ 7 }
    ensures { IsTrue result → (i : ℕ) → i < deep → lane head (i + 1) ≡ digit (8 - i) key }
{
    // by two shifts, as none can be by all 64 bits
    let rest = 56 - 8 * deep as u32;
    ((head >> 8).swap_bytes() >> 8) >> rest == (key >> 8) >> rest
}

/// What a key sees of a node with this head.
#[inline(always)]
pub fn compare(head: u64, key: u64) -> PrefixMatch
    ensures { (form : ℕ) (prefix : List ℕ) → IsHead head form prefix → Sees prefix key result }
{
    let deep = prefix_len(head);
    if begins_alike(head, deep, key) {
        PrefixMatch::Covers(8 - deep)
    } else {
        compare_lanes(head, key)
    }
}

// What a key sees of a node with this head, byte by byte.
#[inline(never)]
fn compare_lanes(head: u64, key: u64) -> PrefixMatch
    ensures { (form : ℕ) (prefix : List ℕ) → IsHead head form prefix → Sees prefix key result }
{
    let deep = prefix_len(head);
    let others = other_lanes(head, key) & ((1u64 << (deep + 1)) - 2);
    if others == 0 {
        return PrefixMatch::Covers(8 - deep);
    }
    let first = others.trailing_zeros() as usize;
    PrefixMatch::Leaves(9 - first, lane_of(head, first))
}

/// What a key sees of a node, which is open then. `None` where a writer came in between.
#[inline(always)]
pub fn meet<'a>(nodes: &'a Nodes, name: u64, key: u64, seat: &mut Seat) -> Option<Met<'a>>
    requires book { seat.old.book ≡ nodes.now }
    requires sighted { Sights seat.old.view name }
    ensures book { seat.new.book ≡ seat.old.book }
    ensures id { seat.new.id ≡ seat.old.id }
    ensures keeps { Keeps seat.old.view seat.new.view }
    ensures seen { seat.new.view.client.seen ≡ seat.old.view.client.seen }
    ensures met { IfSome result (λ met. let here = met.here
        in HasMet seat.new.view seat.new.book here.words.now here.taken name key met.prefix_match) }
{
    let here = open(nodes, name, seat)?;
    let row = SharedWords { words: here.words };
    let head = row.word(0, seat);
    if !node::check::<MapView, MapLaw, Head>(&here.words[0], here.taken, seat) {
        return None;
    }
    let prefix_match = compare(head, key);
    Some(Met { here, prefix_match })
}

/// Opens a node that a key has come to, if it has that height and keys that begin like it. `None` where a writer came in
/// between.
pub fn enter<'a>(
    nodes: &'a Nodes,
    name: u64,
    height: usize,
    key: u64,
    seat: &mut Seat,
) -> Option<Opened<'a>>
    requires book { seat.old.book ≡ nodes.now }
    requires sighted { Sights seat.old.view name }
    ensures book { seat.new.book ≡ seat.old.book }
    ensures id { seat.new.id ≡ seat.old.id }
    ensures keeps { Keeps seat.old.view seat.new.view }
    ensures seen { seat.new.view.client.seen ≡ seat.old.view.client.seen }
    ensures open { IfSome result (λ here.
        IsOpen seat.new.view seat.new.book here.words.now here.taken name key height) }
{
    let met = meet(nodes, name, key, seat)?;
    match met.prefix_match {
        PrefixMatch::Covers(at) if at == height => Some(met.here),
        PrefixMatch::Covers(_) => None,
        PrefixMatch::Leaves(_, _) => None,
    }
}

/// What is next on a key's path from an open node. `None` where a writer came in between.
#[inline(always)]
pub fn step<'a, A: Asks>(
    nodes: &'a Nodes,
    here: Opened<'a>,
    name: u64,
    height: usize,
    key: u64,
    seat: &mut Seat,
) -> Option<Arrival<'a>>
    requires book { seat.old.book ≡ nodes.now }
    requires asks { (A.ask.key ≡ key) × (A.ask.caller ≡ seat.old.id) }
    requires open { IsOpen seat.old.view seat.old.book here.words.now here.taken name key height }
    requires height { (2 ≤ height) × (height ≤ 8) }
    ensures book { seat.new.book ≡ seat.old.book }
    ensures id { seat.new.id ≡ seat.old.id }
    ensures keeps { Keeps seat.old.view seat.new.view }
    ensures none { IfNone result (seat.new.view.client.seen ≡ seat.old.view.client.seen) }
    ensures next { IfSome result (λ step. let here = step.here
        in Follows (Ended A.reads A.ask None) seat.old.view seat.new.view key height (Some step.next)
        × IsNextOpen seat.new.view seat.new.book here.words.now here.taken key step.next) }
{
    let Some(word) = look::<A>(here, name, height, key, seat)? else {
        return Some(Arrival {
            here,
            next: Next::Ends,
        });
    };
    let below = slot_below(word);
    let met = meet(nodes, below, key, seat)?;
    match met.prefix_match {
        PrefixMatch::Covers(lower) if lower < height => Some(Arrival {
            here: met.here,
            next: Next::Goes(below, lower),
        }),
        PrefixMatch::Covers(_) => None,
        PrefixMatch::Leaves(at, byte) => Some(Arrival {
            here,
            next: Next::Mismatches(Mismatch { below, at, byte }),
        }),
    }
}
