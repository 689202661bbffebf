//! The root is made, and the root word names it.
ghost use Rattle.std.specs.Prelude.{◌≡◌, ◌%◌, ◌<◌, ◌≤◌, ◌^◌, [], IfSome, IfNone};
ghost use Rattle.live_nodes.specs.Nodes.{Content};
ghost use Rattle.live_nodes.specs.Seats.{SeatView, place};
ghost use Rattle.live_nodes.specs.Rows.{AreOf};
ghost use Rattle.live_nodes.specs.Views.{View};
ghost use Rattle.live_reads.specs.Paths.{KnowsRootWord, Sights};
ghost use Rattle.live_growth.specs.FreeNodes.{HasFreeNodes};
ghost use Rattle.live_growth.specs.Holds.{Alike, HasRest, HasRootWord, HoldsRootWord};
ghost use Rattle.live_growth.specs.Rooms.{HasGrown};
ghost use Rattle.live_growth.specs.Calls.{IsReady};

use crate::free_nodes::FreeNodes;
use crate::held::{reclaim, unlock_again};
use crate::link::Room;
use crate::room::make_node;
use live_layout::fill::lay;
use live_layout::form::form_below;
use live_layout::words::WriteWords;
use live_nodes::map_law::{Asks, MapLaw, MapView, RootWordLocked, Same};
use live_nodes::node;
use live_nodes::rows::LockedWords;
use live_reads::path::{Cell, Nodes, Seat, bytes_of, words_at};
use node_base::base_node::NodeType;
use std::marker::Brand;

/// Locks the root word: the word by which it was free. `None` where another writer is busy there.
fn lock_root_word(words: &[Cell], seat: &mut Seat) -> Option<u64>
    requires words { AreOf (place 0 1 1) seat.old.book words.now }
    requires root_word { KnowsRootWord seat.old.view }
    ensures seat { (seat.new.book ≡ seat.old.book) × (seat.new.id ≡ seat.old.id) }
    ensures locked { IfSome result (λ free. HasRootWord seat.old.view seat.new.view free) }
    ensures none { IfNone result (Alike seat.old.view seat.new.view
        × (seat.new.view.client ≡ seat.old.view.client)
        × (seat.new.view.holds ≡ seat.old.view.holds)) }
{
    let free = node::take(&words[0], seat);
    if free % 4 != 0 || free >= 1 << 62 {
        return None;
    }
    if !node::lock::<MapView, MapLaw, RootWordLocked>(&words[0], free, seat) {
        return None;
    }
    Some(free)
}

/// Unlocks the root word, which is as it was.
fn unlock_root_word(words: &[Cell], free: u64, seat: &mut Seat)
    requires word { (free % 4 ≡ 0) × (free < 2 ^ 62) }
    requires holds { (c : Content)
        × HoldsRootWord seat.old.view seat.old.book words.now free c }
    ensures seat { (seat.new.book ≡ seat.old.book) × (seat.new.id ≡ seat.old.id) }
    ensures rest { HasRest seat.old.view seat.new.view }
    ensures seen { seat.new.view.client.seen ≡ seat.old.view.client.seen }
{
    node::unlock::<MapView, MapLaw, Same>(&words[0], free, seat);
}

/// Makes an obsolete node the root, where the root word names none. Its name is kept as a spare one until it is locked. `false` where
/// another writer is busy there.
fn name_root<A: Asks>(
    nodes: &Nodes,
    spare: u64,
    free_nodes: &mut FreeNodes,
    seat: &mut Seat,
) -> bool
    requires book { seat.old.book ≡ nodes.now }
    requires asks { (A.ask.key ≡ 0) × (A.ask.height ≡ 8) }
    requires root_word { KnowsRootWord seat.old.view }
    requires rests { (seat.old.view.client.own ≡ []) × (seat.old.view.holds ≡ []) }
    requires spare { (1 ≤ spare) × Sights seat.old.view spare }
    ensures seat { (seat.new.book ≡ seat.old.book) × (seat.new.id ≡ seat.old.id) }
    ensures grown { HasGrown seat.old.view seat.new.view }
    ensures room { seat.new.view.room ≡ seat.old.view.room }
    ensures free_nodes { (v : SeatView View) → HasFreeNodes v free_nodes.old
        → HasFreeNodes v free_nodes.new }
{
    if spare >= 1 << 56 {
        return false;
    }
    let words = nodes.root_words();
    let Some(others) = words_at(nodes, spare) else {
        return false;
    };
    let kind = form_below(spare);
    let bytes = bytes_of(0);
    let Some(free) = lock_root_word(words, seat) else {
        return false;
    };
    let named: LockedWords<'_, MapView, MapLaw, 0> = LockedWords { words };
    if named.get(0, seat) != 0 {
        unlock_root_word(words, free, seat);
        return true;
    }
    free_nodes.forget(spare);
    let Some(back) = reclaim(others, spare, seat) else {
        unlock_root_word(words, free, seat);
        return false;
    };
    let root: LockedWords<'_, MapView, MapLaw, 0> = LockedWords { words: others };
    lay(&root, kind, &bytes[..0], seat);
    let held: LockedWords<'_, MapView, MapLaw, 1> = LockedWords { words };
    held.set(0, spare, seat);
    unlock_again::<A, Brand>(&words[0], free, seat);
    node::unlock::<MapView, MapLaw, Same>(&others[0], back, seat);
    true
}

/// Makes the root, where the root word names none. `false` where another writer is busy there, or there is no room.
pub fn make_root<A: Asks>(nodes: &Nodes, room: &mut Room, seat: &mut Seat) -> bool
    requires book { seat.old.book ≡ nodes.now }
    requires asks { (A.ask.key ≡ 0) × (A.ask.height ≡ 8) }
    requires ready { IsReady seat.old.view room.old }
    ensures seat { (seat.new.book ≡ seat.old.book) × (seat.new.id ≡ seat.old.id) }
    ensures ready { IsReady seat.new.view room.new }
    ensures grown { HasGrown seat.old.view seat.new.view }
{
    let spare = make_node(nodes, NodeType::N256, room, seat);
    if spare == 0 {
        return false;
    }
    name_root::<A>(nodes, spare, &mut room.spare, seat)
}
