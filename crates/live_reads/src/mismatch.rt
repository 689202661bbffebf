//! A node that leads on to one whose path a key leaves: there the key's path ends.
ghost use Rattle.std.specs.Prelude.{◌≡◌, ◌≤◌, Some, None, false, IfSome, IsTrue};
ghost use Rattle.live_nodes.specs.Views.{got};
ghost use Rattle.live_nodes.specs.Tree.{Answers};
ghost use Rattle.live_reads.specs.Paths.{Sights, IsOpen, Keeps};
ghost use Rattle.live_reads.specs.Mismatches.{first_number, IsAside, IsAbove, IsParted};

use crate::path::{Nodes, Opened, Seat, byte_at, open};
use crate::prefix_match::{Mismatch, PrefixMatch, compare, enter};
use live_layout::form::{form_below, slot_below};
use live_layout::search::find;
use live_layout::words::ReadWords;
use live_nodes::map_law::{Above, Asks, Below, MapLaw, MapView, Miss};
use live_nodes::node;
use live_nodes::rows::SharedWords;
use std::marker::Brand;

/// How a key leaves the path of a node that an open one leads on to. While the open one is as it was, so is that. `None` where a
/// writer came in between.
pub fn watch<N: Above>(
    nodes: &Nodes,
    here: Opened<'_>,
    name: u64,
    height: usize,
    below: u64,
    key: u64,
    seat: &mut Seat,
) -> Option<Mismatch>
    requires book { seat.old.book ≡ nodes.now }
    requires open { IsOpen seat.old.view seat.old.book here.words.now here.taken name key height }
    requires height { (2 ≤ height) × (height ≤ 8) }
    requires below { Sights seat.old.view below }
    requires above { (N.number ≡ first_number seat.old.view.reads) × (N.word ≡ Some here.taken) }
    ensures book { seat.new.book ≡ seat.old.book }
    ensures id { seat.new.id ≡ seat.old.id }
    ensures keeps { Keeps seat.old.view seat.new.view }
    ensures seen { seat.new.view.client.seen ≡ seat.old.view.client.seen }
    ensures aside { IfSome result (λ mismatch. IsAside seat.new.view seat.new.book
        here.entry.words.now here.entry.taken name key height mismatch.at mismatch.byte) }
{
    let Opened { words, taken: _ } = here;
    let form = form_below(name);
    let byte = byte_at(key, height);
    let row = SharedWords { words };
    let Some(word) = find(&row, form, byte, seat) else {
        return None;
    };
    if slot_below(word) != below {
        return None;
    }
    if below == name {
        return None;
    }
    let Some(other) = open(nodes, below, seat) else {
        return None;
    };
    let lower = SharedWords { words: other.words };
    let head = lower.word(0, seat);
    if !node::check::<MapView, MapLaw, Below<N>>(&other.words[0], other.taken, seat) {
        return None;
    }
    match compare(head, key) {
        PrefixMatch::Leaves(at, byte) => Some(Mismatch { below, at, byte }),
        PrefixMatch::Covers(_) => None,
    }
}

/// Whether the path of a key ends at a node, which still leads on to one that the key leaves. `false` where a writer came in
/// between.
pub fn ends_above<A: Asks>(
    nodes: &Nodes,
    name: u64,
    height: usize,
    below: u64,
    key: u64,
    seat: &mut Seat,
) -> bool
    requires book { seat.old.book ≡ nodes.now }
    requires asks { (A.ask.key ≡ key) × (A.ask.caller ≡ seat.old.id) }
    requires sighted { Sights seat.old.view name × Sights seat.old.view below }
    requires height { (2 ≤ height) × (height ≤ 8) }
    ensures book { seat.new.book ≡ seat.old.book }
    ensures id { seat.new.id ≡ seat.old.id }
    ensures keeps { Keeps seat.old.view seat.new.view }
    ensures ends { IsTrue result → Answers A.ask.caller (got A.ask None)
        seat.old.view.client.seen seat.new.view.client.seen }
    ensures busy { result ≡ false → seat.new.view.client.seen ≡ seat.old.view.client.seen }
{
    let Some(here) = enter(nodes, name, height, key, seat) else {
        return false;
    };
    let Some(_) = watch::<Brand>(nodes, here, name, height, below, key, seat) else {
        return false;
    };
    node::check::<MapView, MapLaw, Miss<A>>(&here.words[0], here.taken, seat)
}

/// Whether a node that the seat has locked leads on to one whose path the key leaves as it did. The seat watches that one.
/// `false` where a writer came in between.
pub fn parts<N: Above>(nodes: &Nodes, mismatch: Mismatch, key: u64, seat: &mut Seat) -> bool
    requires book { seat.old.book ≡ nodes.now }
    requires below { Sights seat.old.view mismatch.below }
    requires above { IsAbove seat.old.view mismatch.below N.number N.word }
    ensures book { seat.new.book ≡ seat.old.book }
    ensures id { seat.new.id ≡ seat.old.id }
    ensures keeps { Keeps seat.old.view seat.new.view }
    ensures seen { seat.new.view.client.seen ≡ seat.old.view.client.seen }
    ensures parted { IsTrue result → IsParted seat.new.view mismatch.below key mismatch.at mismatch.byte N.number }
{
    let Some(other) = open(nodes, mismatch.below, seat) else {
        return false;
    };
    let lower = SharedWords { words: other.words };
    let head = lower.word(0, seat);
    if !node::check::<MapView, MapLaw, Below<N>>(&other.words[0], other.taken, seat) {
        return false;
    }
    let PrefixMatch::Leaves(at, byte) = compare(head, key) else {
        return false;
    };
    at == mismatch.at && byte == mismatch.byte
}
