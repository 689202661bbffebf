//! Nodes without children are taken out.
ghost use Rattle.std.specs.Prelude.{◌≡◌, ◌<◌, ◌≤◌, [], IfOk};
ghost use Rattle.live_reads.specs.Paths.{Keeps};
ghost use Rattle.live_growth.specs.Holds.{HasRest};
ghost use Rattle.live_reads.specs.Positions.{KnowsPosition};
ghost use Rattle.live_updates.specs.Two.{PartsTwo};

use crate::law::Unlink;
use crate::shrink_node::{Fill, fill_of};
use live_growth::two::{Two, lock_two, unlock_two};
use live_layout::change::take;
use live_layout::form::form_below;
use live_nodes::map_law::{MapLaw, MapView, Same};
use live_nodes::node;
use live_nodes::rows::LockedWords;
use live_reads::descend::Position;
use live_reads::path::{Cell, Nodes, Seat, byte_at, words_at};

/// A node that was taken out: its name, that of the node above it, and how many children that one has then.
#[derive(Clone, Copy, Debug, PartialEq, Eq)]
pub struct Taken {
    pub name: u64,
    pub above: u64,
    pub left: Fill,
}

/// Why no node was taken out: there is none without children, or a writer is busy there.
#[derive(Clone, Copy, Debug, PartialEq, Eq)]
pub enum Stays {
    InUse,
    Busy,
}

/// Takes the lower of two nodes out, which has no children. How many the upper one has then.
fn part(
    words: &[Cell],
    words_above: &[Cell],
    position: Position,
    key: u64,
    two: Two,
    seat: &mut Seat,
) -> Fill
    requires height { (1 ≤ position.height) × (position.height < position.level)
        × (position.level ≤ 8) }
    requires parts { PartsTwo seat.old.view seat.old.book words.now words_above.now
        two.free two.free_above position key }
    ensures book { seat.new.book ≡ seat.old.book }
    ensures id { seat.new.id ≡ seat.old.id }
    ensures rest { HasRest seat.old.view seat.new.view }
    ensures seen { seat.new.view.client.seen ≡ seat.old.view.client.seen }
{
    let form = form_below(position.above);
    let held: LockedWords<'_, MapView, MapLaw, 1> = LockedWords { words: words_above };
    let _ = take(&held, form, byte_at(key, position.level), seat);
    let left = fill_of(&held, form, seat);
    node::unlock::<MapView, MapLaw, Unlink>(&words_above[0], two.free_above, seat);
    node::retire::<MapView, MapLaw, Same>(&words[0], two.free, seat);
    left
}

/// Takes a node without children out, below the node above it, on the path of a key. Nobody uses the node then.
pub fn detach(nodes: &Nodes, position: Position, key: u64, seat: &mut Seat) -> Result<Taken, Stays>
    requires book { seat.old.book ≡ nodes.now }
    requires position { KnowsPosition seat.old.view key position }
    requires below { position.height < 8 }
    requires rests { (seat.old.view.client.own ≡ []) × (seat.old.view.holds ≡ []) }
    ensures book { seat.new.book ≡ seat.old.book }
    ensures id { seat.new.id ≡ seat.old.id }
    ensures keeps { Keeps seat.old.view seat.new.view }
    ensures seen { seat.new.view.client.seen ≡ seat.old.view.client.seen }
    ensures named { IfOk result (λ taken. taken.name ≡ position.name) }
{
    let Some(words_above) = words_at(nodes, position.above) else {
        return Err(Stays::Busy);
    };
    let Some(words) = words_at(nodes, position.name) else {
        return Err(Stays::Busy);
    };
    let Some(two) = lock_two(words, words_above, position, key, seat) else {
        return Err(Stays::Busy);
    };
    let held: LockedWords<'_, MapView, MapLaw, 0> = LockedWords { words };
    let Fill::Empty = fill_of(&held, form_below(position.name), seat) else {
        unlock_two(words, words_above, two, seat);
        return Err(Stays::InUse);
    };
    let left = part(words, words_above, position, key, two, seat);
    Ok(Taken {
        name: position.name,
        above: position.above,
        left,
    })
}
