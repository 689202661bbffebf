//! A key leaves the path of a node: a new node comes above that, where both paths part.
ghost use Rattle.std.specs.Prelude.{◌≡◌, ◌<◌, ◌≤◌, [], IsTrue};
ghost use Rattle.live_nodes.specs.Seats.{SeatView};
ghost use Rattle.live_nodes.specs.Views.{View};
ghost use Rattle.live_reads.specs.Paths.{Names, Sights, Leaves};
ghost use Rattle.live_growth.specs.FreeNodes.{HasFreeNodes, Lacks};
ghost use Rattle.live_growth.specs.Rooms.{HasGrown};

use crate::free_nodes::FreeNodes;
use crate::grow_node::leads_to;
use crate::held::{lock_node, reclaim, unlock_again, unlock_same};
use live_layout::change::{change, put};
use live_layout::fill::lay;
use live_layout::form::{form_below, word_below};
use live_nodes::map_law::{Asks, MapLaw, MapView, Same};
use live_nodes::node;
use live_nodes::rows::LockedWords;
use live_reads::descend::Position;
use live_reads::mismatch::parts;
use live_reads::path::{Nodes, Seat, byte_at, bytes_of, words_at};
use live_reads::prefix_match::Mismatch;
use std::marker::Brand;

/// Puts an obsolete node between a node and one below it whose path the key leaves. That one stays as it is. The name of the
/// obsolete one is kept as a spare one until it is in use. `false` where a writer came in between.
pub fn split<A: Asks>(
    nodes: &Nodes,
    position: Position,
    mismatch: Mismatch,
    key: u64,
    spare: u64,
    free_nodes: &mut FreeNodes,
    seat: &mut Seat,
) -> bool
    requires book { seat.old.book ≡ nodes.now }
    requires asks { (A.ask.key ≡ key) × (A.ask.height ≡ mismatch.at) }
    requires named { Names seat.old.view position.name key position.height }
    requires height { (2 ≤ position.height) × (position.height ≤ 8) }
    requires leaves { Leaves seat.old.view mismatch.below key mismatch.at mismatch.byte }
    requires rests { (seat.old.view.client.own ≡ []) × (seat.old.view.holds ≡ []) }
    requires spare { Sights seat.old.view spare }
    ensures book { seat.new.book ≡ seat.old.book }
    ensures id { seat.new.id ≡ seat.old.id }
    ensures grown { HasGrown seat.old.view seat.new.view }
    ensures room { seat.new.view.room ≡ seat.old.view.room }
    ensures free_nodes { (v : SeatView View) → HasFreeNodes v free_nodes.old → Sights v spare
        → HasFreeNodes v free_nodes.new }
    ensures gone { IsTrue result → 1 ≤ spare → Lacks free_nodes.new spare }
    ensures parted { IsTrue result → (mismatch.at < position.height)
        × Names seat.new.view spare key mismatch.at }
{
    if mismatch.at >= position.height || mismatch.below >= 1 << 56 || spare >= 1 << 56 {
        return false;
    }
    let Some(words) = words_at(nodes, position.name) else {
        return false;
    };
    let Some(others) = words_at(nodes, spare) else {
        return false;
    };
    let form = form_below(position.name);
    let kind = form_below(spare);
    let byte = byte_at(key, position.height);
    let Some(free) = lock_node(words, position.name, position.height, key, seat) else {
        return false;
    };
    let parent: LockedWords<'_, MapView, MapLaw, 0> = LockedWords { words };
    if !leads_to(&parent, form, byte, mismatch.below, seat) {
        unlock_same(words, free, seat);
        return false;
    }
    free_nodes.forget(spare);
    let Some(back) = reclaim(others, spare, seat) else {
        unlock_same(words, free, seat);
        return false;
    };
    if !parts::<Brand>(nodes, mismatch, key, seat) {
        node::retire::<MapView, MapLaw, Same>(&others[0], back, seat);
        let _ = free_nodes.keep(spare);
        unlock_same(words, free, seat);
        return false;
    }
    let new: LockedWords<'_, MapView, MapLaw, 0> = LockedWords { words: others };
    lay(&new, kind, &bytes_of(key)[..8 - mismatch.at], seat);
    let child = word_below(mismatch.below, form_below(mismatch.below));
    put(&new, kind, mismatch.byte, child, seat);
    let held: LockedWords<'_, MapView, MapLaw, 1> = LockedWords { words };
    let _ = change(&held, form, byte, word_below(spare, kind), seat);
    unlock_again::<A, Brand>(&words[0], free, seat);
    node::unlock::<MapView, MapLaw, Same>(&others[0], back, seat);
    true
}
