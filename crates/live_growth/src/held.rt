//! Nodes are locked, and unlocked.
ghost use Rattle.std.specs.Prelude.{◌≡◌, ◌+◌, ◌%◌, ◌<◌, ◌^◌, IfSome, IfNone};
ghost use Rattle.word_book.specs.Book.{writes, none_joined};
ghost use Rattle.live_nodes.specs.Nodes.{Content};
ghost use Rattle.live_nodes.specs.Plays.{Frees};
ghost use Rattle.live_nodes.specs.Calls.{MayFree};
ghost use Rattle.live_nodes.specs.Levels.{Spot};
ghost use Rattle.live_nodes.specs.Tree.{IsMap, LinksAgain};
ghost use Rattle.live_reads.specs.Paths.{Names, Sights, AreNamed, IsOpen};
ghost use Rattle.live_growth.specs.Holds.{Alike, HasLocked, HasLockedOpen, HasReclaimed, HoldsOne, HasRest};

use live_layout::words::ReadWords;
use live_nodes::map_law::{Again, Asks, Fills, Locked, MapLaw, MapView, Reclaimed, Same};
use live_nodes::node;
use live_nodes::rows::SharedWords;
use live_reads::path::{Cell, Opened, Seat};
use live_reads::prefix_match::{PrefixMatch, compare};

/// Locks the node that a number names, if it has that height and keys that begin like this one: the word by which it was free.
/// `None` where another writer is busy there, or it is obsolete, or another node by now.
pub fn lock_node(words: &[Cell], name: u64, height: usize, key: u64, seat: &mut Seat) -> Option<u64>
    requires words { AreNamed seat.old.book name words.now }
    requires named { Names seat.old.view name key height }
    ensures book { seat.new.book ≡ seat.old.book }
    ensures id { seat.new.id ≡ seat.old.id }
    ensures locked { IfSome result (λ free. HasLocked seat.old.view seat.new.view name key height free) }
    ensures none { IfNone result (Alike seat.old.view seat.new.view
        × (seat.new.view.client ≡ seat.old.view.client)
        × (seat.new.view.holds ≡ seat.old.view.holds)) }
{
    let _ = name;
    let free = node::take(&words[0], seat);
    if free % 4 != 0 || free >= 1 << 62 {
        return None;
    }
    let row = SharedWords { words };
    let head = row.word(0, seat);
    let PrefixMatch::Covers(at) = compare(head, key) else {
        return None;
    };
    if at != height {
        return None;
    }
    if !node::lock::<MapView, MapLaw, Locked>(&words[0], free, seat) {
        return None;
    }
    Some(free)
}

/// Locks an open node by the version word that was taken, and returns that word. What was read of the node since is its content
/// then, so its head isn't read again. `None` where a writer came in between.
#[inline(always)]
pub fn lock_open(
    here: Opened<'_>,
    name: u64,
    height: usize,
    key: u64,
    seat: &mut Seat,
) -> Option<u64>
    requires open { IsOpen seat.old.view seat.old.book here.words.now here.taken name key height }
    ensures book { seat.new.book ≡ seat.old.book }
    ensures id { seat.new.id ≡ seat.old.id }
    ensures locked { let at = here.entry in IfSome result (HasLockedOpen seat.old.view seat.new.view
        seat.old.book at.words.now at.taken name key height) }
    ensures none { IfNone result (Alike seat.old.view seat.new.view
        × (seat.new.view.client ≡ seat.old.view.client)
        × (seat.new.view.holds ≡ seat.old.view.holds)) }
{
    let (_, _, _) = (name, height, key);
    let Opened { words, taken } = here;
    if taken >= 1 << 62 {
        return None;
    }
    if !node::lock::<MapView, MapLaw, Locked>(&words[0], taken, seat) {
        return None;
    }
    Some(taken)
}

/// Locks an obsolete node again: the word that `unlock` takes. `None` where it isn't obsolete.
pub fn reclaim(words: &[Cell], name: u64, seat: &mut Seat) -> Option<u64>
    requires words { AreNamed seat.old.book name words.now }
    requires sighted { Sights seat.old.view name }
    ensures book { seat.new.book ≡ seat.old.book }
    ensures id { seat.new.id ≡ seat.old.id }
    ensures reclaimed { IfSome result (λ free. HasReclaimed seat.old.view seat.new.view name free) }
    ensures none { IfNone result (Alike seat.old.view seat.new.view
        × (seat.new.view.client ≡ seat.old.view.client)
        × (seat.new.view.holds ≡ seat.old.view.holds)) }
{
    let _ = name;
    let obsolete = node::take(&words[0], seat);
    if obsolete % 4 != 3 || obsolete >= 1 << 62 {
        return None;
    }
    if !node::reclaim::<MapView, MapLaw, Reclaimed>(&words[0], obsolete, seat) {
        return None;
    }
    Some(obsolete + 1)
}

/// Unlocks a node that is as it was.
pub fn unlock_same(words: &[Cell], free: u64, seat: &mut Seat)
    requires word { (free % 4 ≡ 0) × (free < 2 ^ 62) }
    requires holds { (a : Spot) × (c : Content)
        × HoldsOne seat.old.view seat.old.book words.now free a c c }
    ensures book { seat.new.book ≡ seat.old.book }
    ensures id { seat.new.id ≡ seat.old.id }
    ensures rest { HasRest seat.old.view seat.new.view }
    ensures seen { seat.new.view.client.seen ≡ seat.old.view.client.seen }
{
    node::unlock::<MapView, MapLaw, Same>(&words[0], free, seat);
}

/// Unlocks a node, or the root word, that leads to one that was obsolete. A caller picks what that one is going to have.
pub fn unlock_again<A: Asks, C: Fills>(word: &Cell, free: u64, seat: &mut Seat)
    requires book { seat.old.book ≡ word.now.book }
    requires free { (free % 4 ≡ 0) × (free < 2 ^ 63) }
    requires frees { MayFree seat.old.view word.now.key IsMap seat.old.id
        (LinksAgain A.ask C.content) (free + 2) (free + 4) }
    ensures seat { (seat.new.book ≡ seat.old.book) × (seat.new.id ≡ seat.old.id) }
    ensures freed { Frees (LinksAgain A.ask C.content) (writes word.now.key (free + 4))
        seat.old.view (free + 4) none_joined seat.new.view }
{
    node::unlock::<MapView, MapLaw, Again<A, C>>(word, free, seat);
}
