//! A node and the one above it are locked, and unlocked.
ghost use Rattle.std.specs.Prelude.{◌≡◌, ◌<◌, [], IfSome, IfNone};
ghost use Rattle.live_reads.specs.Paths.{AreNamed};
ghost use Rattle.live_reads.specs.Positions.{KnowsPosition};
ghost use Rattle.live_growth.specs.Holds.{Alike, HasRest};
ghost use Rattle.live_growth.specs.Two.{HoldsTwo, LeadsTwo};

use crate::grow_node::leads_to;
use crate::held::{lock_node, unlock_same};
use live_layout::form::form_below;
use live_nodes::map_law::{MapLaw, MapView, Same};
use live_nodes::node;
use live_nodes::rows::LockedWords;
use live_reads::descend::Position;
use live_reads::path::{Cell, Seat, byte_at};

/// The words by which two locked nodes were free: one, and the one above it.
#[derive(Clone, Copy)]
pub struct Two {
    pub free: u64,
    pub free_above: u64,
}

/// Locks a node and the one above it, which leads to it.
pub fn lock_two(
    words: &[Cell],
    words_above: &[Cell],
    position: Position,
    key: u64,
    seat: &mut Seat,
) -> Option<Two>
    requires words { AreNamed seat.old.book position.name words.now
        × AreNamed seat.old.book position.above words_above.now }
    requires position { KnowsPosition seat.old.view key position }
    requires below { position.height < 8 }
    requires rests { (seat.old.view.client.own ≡ []) × (seat.old.view.holds ≡ []) }
    ensures book { seat.new.book ≡ seat.old.book }
    ensures id { seat.new.id ≡ seat.old.id }
    ensures seen { seat.new.view.client.seen ≡ seat.old.view.client.seen }
    ensures two { IfSome result (λ two. Alike seat.old.view seat.new.view
        × LeadsTwo seat.new.view seat.new.book words.now words_above.now
        two.free two.free_above position key) }
    ensures none { IfNone result (HasRest seat.old.view seat.new.view) }
{
    let free_above = lock_node(words_above, position.above, position.level, key, seat)?;
    let parent: LockedWords<'_, MapView, MapLaw, 0> = LockedWords { words: words_above };
    let byte = byte_at(key, position.level);
    if !leads_to(
        &parent,
        form_below(position.above),
        byte,
        position.name,
        seat,
    ) {
        unlock_same(words_above, free_above, seat);
        return None;
    }
    let Some(free) = lock_node(words, position.name, position.height, key, seat) else {
        unlock_same(words_above, free_above, seat);
        return None;
    };
    Some(Two { free, free_above })
}

/// Unlocks two nodes that are as they were.
pub fn unlock_two(words: &[Cell], words_above: &[Cell], two: Two, seat: &mut Seat)
    requires holds { HoldsTwo seat.old.view seat.old.book words.now words_above.now
        two.free two.free_above }
    ensures book { seat.new.book ≡ seat.old.book }
    ensures id { seat.new.id ≡ seat.old.id }
    ensures rest { HasRest seat.old.view seat.new.view }
    ensures seen { seat.new.view.client.seen ≡ seat.old.view.client.seen }
{
    node::unlock::<MapView, MapLaw, Same>(&words[0], two.free, seat);
    unlock_same(words_above, two.free_above, seat);
}
