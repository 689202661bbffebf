//! The path of a key: from the root word to the root, and from a node to the one below.
ghost use Rattle.std.specs.Prelude.{◌≡◌, ℕ, ◌-◌, ◌%◌, ◌<◌, ◌≤◌, [], ◌∷◌, length, slice_index, IfSome};
ghost use Rattle.live_nodes.specs.Seats.{read};
ghost use Rattle.live_nodes.specs.Levels.{digit};
ghost use Rattle.live_nodes.specs.Roots.{MayLearnRoot};
ghost use Rattle.live_reads.specs.Paths.{KnowsRootWord, Names, Sights, AreNamed, HasOpened, IsOpen, Keeps, Looked};
ghost use Rattle.live_reads.specs.Roots.{SeesRoot, Begins};

use live_layout::form::{form_below, slot_below, words_in};
use live_layout::search::find;
use live_nodes::heap::Heap;
use live_nodes::law::Word;
use live_nodes::map_law::{Asks, Look, MapLaw, MapView};
use live_nodes::node;
use live_nodes::roots::{Root, Sees};
use live_nodes::rows::SharedWords;
use std::marker::Brand;

pub type Nodes = Heap<MapView, MapLaw>;

pub type Seat = live_nodes::law::Seat<MapView, MapLaw>;

pub type Cell = Word<MapView, MapLaw>;

/// The byte of a key by which a node of this height leads on.
#[inline(always)]
pub fn byte_at(key: u64, height: usize) -> u8
    requires { (1 ≤ height) × (height ≤ 8) }
    ensures { result ≡ digit height key }
{
    ((key >> (8 * (height - 1))) % 256) as u8
}

/// The bytes of a key, the highest first.
pub fn bytes_of(key: u64) -> [u8; 8]
    ensures long { length result ≡ 8 }
    ensures is { (i : ℕ) → i < 8 → slice_index result i ≡ digit (8 - i) key }
{
    [
        byte_at(key, 8),
        byte_at(key, 7),
        byte_at(key, 6),
        byte_at(key, 5),
        byte_at(key, 4),
        byte_at(key, 3),
        byte_at(key, 2),
        byte_at(key, 1),
    ]
}

// The name of the root. The caller picks what the seat has seen then. `None` where there is none yet, or a writer came in
// between.
#[inline(always)]
fn root_by<S: Sees>(nodes: &Nodes, key: u64, seat: &mut Seat) -> Option<u64>
    requires book { seat.old.book ≡ nodes.now }
    requires root_word { KnowsRootWord seat.old.view }
    requires learns { MayLearnRoot S.sees seat.old.id seat.old.view.client }
    ensures book { seat.new.book ≡ seat.old.book }
    ensures id { seat.new.id ≡ seat.old.id }
    ensures keeps { Keeps seat.old.view seat.new.view }
    ensures root { SeesRoot S.sees seat.old.view seat.new.view result }
    ensures named { IfSome result (λ name. Names seat.new.view name key 8) }
{
    let words = nodes.root_words();
    let root_word = &words[0];
    let number = &words[1];
    let taken = node::take(root_word, seat);
    if taken % 4 != 0 {
        return None;
    }
    let name = node::read(number, seat);
    if !node::check::<MapView, MapLaw, Root<S>>(root_word, taken, seat) {
        return None;
    }
    if name == 0 {
        return None;
    }
    Some(name)
}

/// The name of the root. `None` where there is none yet, or a writer came in between.
#[inline(always)]
pub fn root(nodes: &Nodes, key: u64, seat: &mut Seat) -> Option<u64>
    requires book { seat.old.book ≡ nodes.now }
    requires root_word { KnowsRootWord seat.old.view }
    ensures book { seat.new.book ≡ seat.old.book }
    ensures id { seat.new.id ≡ seat.old.id }
    ensures keeps { Keeps seat.old.view seat.new.view }
    ensures seen { seat.new.view.client.seen ≡ seat.old.view.client.seen }
    ensures named { IfSome result (λ name. Names seat.new.view name key 8) }
{
    root_by::<Brand>(nodes, key, seat)
}

/// The name of the root, for a reader that begins. Its entry is then the last of the history that it has seen. `None` where there
/// is none yet, or a writer came in between: then it has seen no more.
#[inline(always)]
pub fn root_begun(nodes: &Nodes, key: u64, seat: &mut Seat) -> Option<u64>
    requires book { seat.old.book ≡ nodes.now }
    requires root_word { KnowsRootWord seat.old.view }
    ensures book { seat.new.book ≡ seat.old.book }
    ensures id { seat.new.id ≡ seat.old.id }
    ensures keeps { Keeps seat.old.view seat.new.view }
    ensures root { SeesRoot (Begins seat.old.id) seat.old.view seat.new.view result }
    ensures named { IfSome result (λ name. Names seat.new.view name key 8) }
{
    root_by::<Brand>(nodes, key, seat)
}

/// The words of the node that a number names. `None` where its segment isn't there yet.
#[inline(always)]
pub fn words_at(nodes: &Nodes, name: u64) -> Option<&[Cell]>
    ensures { IfSome result (λ words. AreNamed nodes.now name words.now) }
{
    nodes.span(slot_below(name), words_in(form_below(name)) + 1)
}

/// A node that a seat has opened: its words, and the version word that the seat took last, by which it is free.
#[derive(Clone, Copy)]
pub struct Opened<'a> {
    pub words: &'a [Cell],
    pub taken: u64,
}

/// Opens the node that a number names. `None` where a writer is busy there, or its segment isn't there yet.
#[inline(always)]
pub fn open<'a>(nodes: &'a Nodes, name: u64, seat: &mut Seat) -> Option<Opened<'a>>
    requires book { seat.old.book ≡ nodes.now }
    requires sighted { Sights seat.old.view name }
    ensures book { seat.new.book ≡ seat.old.book }
    ensures id { seat.new.id ≡ seat.old.id }
    ensures keeps { Keeps seat.old.view seat.new.view }
    ensures client { seat.new.view.client ≡ seat.old.view.client }
    ensures opened { IfSome result (λ here. (here.taken % 4 ≡ 0)
        × ((n : Sights seat.old.view name)
        → HasOpened seat.new.view seat.new.book here.words.now here.taken n.spot)) }
    ensures taken { IfSome result (λ here. (n : Sights seat.old.view name)
        → seat.new.view.reads ≡ read n.spot.number here.taken [] ∷ seat.old.view.reads) }
{
    let words = words_at(nodes, name)?;
    let taken = node::take(&words[0], seat);
    if taken % 4 != 0 {
        return None;
    }
    Some(Opened { words, taken })
}

/// What an open node of this height has under the key's digit. `None` where a writer came in between.
#[inline(always)]
pub fn look<A: Asks>(
    here: Opened<'_>,
    name: u64,
    height: usize,
    key: u64,
    seat: &mut Seat,
) -> Option<Option<u64>>
    requires asks { (A.ask.key ≡ key) × (A.ask.caller ≡ seat.old.id) }
    requires open { IsOpen seat.old.view seat.old.book here.words.now here.taken name key height }
    requires height { (1 ≤ height) × (height ≤ 8) }
    ensures book { seat.new.book ≡ seat.old.book }
    ensures id { seat.new.id ≡ seat.old.id }
    ensures keeps { Keeps seat.old.view seat.new.view }
    ensures looked { Looked A.reads A.ask height result seat.old.view seat.new.view }
{
    let Opened { words, taken } = here;
    let form = form_below(name);
    let byte = byte_at(key, height);
    let row = SharedWords { words };
    let found = find(&row, form, byte, seat);
    if !node::check::<MapView, MapLaw, Look<A>>(&words[0], taken, seat) {
        return None;
    }
    Some(found)
}
