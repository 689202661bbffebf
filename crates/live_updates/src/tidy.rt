//! The path of a key is tidied, which was removed.
ghost use Rattle.std.specs.Prelude.{◌≡◌, [], IfOk};
ghost use Rattle.live_reads.specs.Paths.{KnowsRootWord, Sights, Keeps};
ghost use Rattle.live_reads.specs.Positions.{KnowsPosition};
ghost use Rattle.live_growth.specs.Calls.{IsReady};

use crate::detach::{Stays, Taken, detach};
use crate::shrink_node::{Fill, shrink_on_path};
use live_growth::link::Room;
use live_reads::descend::{End, Position, descend};
use live_reads::path::{Nodes, Seat};

/// Takes the node out at which a key's path ends, if it has no children and isn't the root.
pub fn detach_one(nodes: &Nodes, key: u64, seat: &mut Seat) -> Result<Taken, Stays>
    requires book { seat.old.book ≡ nodes.now }
    requires root_word { KnowsRootWord seat.old.view }
    requires rests { (seat.old.view.client.own ≡ []) × (seat.old.view.holds ≡ []) }
    ensures book { seat.new.book ≡ seat.old.book }
    ensures id { seat.new.id ≡ seat.old.id }
    ensures keeps { Keeps seat.old.view seat.new.view }
    ensures seen { seat.new.view.client.seen ≡ seat.old.view.client.seen }
    ensures named { IfOk result (λ taken. Sights seat.new.view taken.name) }
{
    let Some(
        End {
            position,
            mismatch,
            ..
        },
    ) = descend(nodes, key, seat)
    else {
        return Err(Stays::Busy);
    };
    if mismatch.is_some() || position.height >= 8 {
        return Err(Stays::InUse);
    }
    detach(nodes, position, key, seat)
}

/// Keeps a node that was taken out, to be used again. The one above it shrinks, if it is left with few children. Whether it is
/// left with none.
fn keep_taken(nodes: &Nodes, taken: Taken, key: u64, room: &mut Room, seat: &mut Seat) -> bool
    requires book { seat.old.book ≡ nodes.now }
    requires ready { IsReady seat.old.view room.old }
    requires sighted { Sights seat.old.view taken.name }
    ensures book { seat.new.book ≡ seat.old.book }
    ensures id { seat.new.id ≡ seat.old.id }
    ensures ready { IsReady seat.new.view room.new }
    ensures seen { seat.new.view.client.seen ≡ seat.old.view.client.seen }
{
    room.is_changed = true;
    let _ = room.spare.keep(taken.name);
    if taken.left == Fill::Empty {
        return true;
    }
    shrink_on_path(nodes, taken.above, taken.left, key, room, seat);
    false
}

/// Takes the nodes out that have no children on the path of a key. The one above them shrinks, if it is left with few. One of
/// each form is kept, to be used again. Where a writer comes in between, or there is no place for the name of another one, they
/// stay, and the key is kept as one whose path is still to be tidied.
pub fn tidy(nodes: &Nodes, key: u64, room: &mut Room, seat: &mut Seat)
    requires book { seat.old.book ≡ nodes.now }
    requires ready { IsReady seat.old.view room.old }
    ensures book { seat.new.book ≡ seat.old.book }
    ensures id { seat.new.id ≡ seat.old.id }
    ensures ready { IsReady seat.new.view room.new }
    ensures seen { seat.new.view.client.seen ≡ seat.old.view.client.seen }
{
    for _ in 0..7 {
        if room.spare.more != 0 {
            room.cleanup_due = Some(key);
            return;
        }
        let taken = match detach_one(nodes, key, seat) {
            Ok(taken) => taken,
            Err(Stays::InUse) => return,
            Err(Stays::Busy) => {
                room.cleanup_due = Some(key);
                return;
            }
        };
        if !keep_taken(nodes, taken, key, room, seat) {
            return;
        }
    }
}

/// Takes the node at a position out, as `tidy` does with the first one. Whether more of the path may be tidied.
fn take_out(nodes: &Nodes, position: Position, key: u64, room: &mut Room, seat: &mut Seat) -> bool
    requires book { seat.old.book ≡ nodes.now }
    requires ready { IsReady seat.old.view room.old }
    requires position { KnowsPosition seat.old.view key position }
    ensures book { seat.new.book ≡ seat.old.book }
    ensures id { seat.new.id ≡ seat.old.id }
    ensures ready { IsReady seat.new.view room.new }
    ensures seen { seat.new.view.client.seen ≡ seat.old.view.client.seen }
{
    if position.height >= 8 || position.level >= 8 || room.spare.more != 0 {
        return true;
    }
    match detach(nodes, position, key, seat) {
        Ok(taken) => keep_taken(nodes, taken, key, room, seat),
        Err(_) => true,
    }
}

/// Tidies the path of a key, as `tidy` does, from the node at which it ends. That one isn't looked for, unless a writer came in
/// between, or the node above it is the root: a look-up notes the root where it doesn't keep the node above a leaf.
pub fn tidy_from(nodes: &Nodes, position: Position, key: u64, room: &mut Room, seat: &mut Seat)
    requires book { seat.old.book ≡ nodes.now }
    requires ready { IsReady seat.old.view room.old }
    requires position { KnowsPosition seat.old.view key position }
    ensures book { seat.new.book ≡ seat.old.book }
    ensures id { seat.new.id ≡ seat.old.id }
    ensures ready { IsReady seat.new.view room.new }
    ensures seen { seat.new.view.client.seen ≡ seat.old.view.client.seen }
{
    if take_out(nodes, position, key, room, seat) {
        tidy(nodes, key, room, seat);
    }
}
