//! A look-up of a key, which may end a call: the key's value, and its leaf.
ghost use Rattle.std.specs.Prelude.{◌≡◌, ◌≤◌, IfSome};
ghost use Rattle.live_reads.specs.Paths.{KnowsRootWord, Sights, IsOpen, Keeps};
ghost use Rattle.live_reads.specs.Positions.{KnowsLast};
ghost use Rattle.live_updates.specs.inner.Lookups.{IsLookup, MaySight, Found, Lacks, Sought, IsOpenWith};

use live_layout::form::form_below;
use live_layout::search::find;
use live_nodes::map_law::{MapLaw, MapView};
use live_nodes::node;
use live_nodes::plays::OnCheck;
use live_nodes::rows::SharedWords;
use live_reads::descend::{End, Position, descend_from};
use live_reads::last_leaf::LastLeaf;
use live_reads::mismatch::watch;
use live_reads::path::{Nodes, Opened, Seat, byte_at};
use live_reads::prefix_match::enter;
use std::marker::{Brand, PhantomData};

/// A look-up: who makes it, of which key, and where its call ends. A caller picks it.
pub trait Lookups {
    ghost use Rattle.live_updates.specs.inner.Lookups.{Lookup};

    ghost lookup: { Lookup };
}

impl Lookups for Brand {
    ghost use Rattle.std.specs.Prelude.{None};
    ghost use Rattle.live_updates.specs.inner.Lookups.{lookup_of};

    ghost lookup = { lookup_of 0 0 (λ _. None) };
}

/// A key is absent, or its path ends at that leaf, which is open, and it has that value.
#[derive(Clone, Copy)]
pub enum Site<'a> {
    Absent,
    At(End<'a>, u64),
}

/// A call ends at a node, or goes on with what was found there.
pub struct Learn<Q> {
    of: PhantomData<Q>,
}

impl<Q: Lookups> OnCheck<MapView> for Learn<Q> {
    ghost use Rattle.live_updates.specs.inner.Lookups.{LearnsSeek};

    ghost told = { LearnsSeek Q.lookup };
}

/// What an open leaf has under the key's digit. It stays open. `None` where a writer came in between.
pub fn ends_in<Q: Lookups>(
    here: Opened<'_>,
    name: u64,
    key: u64,
    seat: &mut Seat,
) -> Option<Option<u64>>
    requires asks { (Q.lookup.key ≡ key) × (Q.lookup.caller ≡ seat.old.id) }
    requires legal { IsLookup Q.lookup }
    requires open { IsOpen seat.old.view seat.old.book here.words.now here.taken name key 1 }
    ensures book { seat.new.book ≡ seat.old.book }
    ensures id { seat.new.id ≡ seat.old.id }
    ensures keeps { Keeps seat.old.view seat.new.view }
    ensures found { Found Q.lookup result seat.old.view seat.new.view }
    ensures still { let at = here.entry in IfSome result
        (IsOpenWith seat.new.view seat.new.book at.words.now at.taken name key) }
{
    let Opened { words, taken } = here;
    let form = form_below(name);
    let byte = byte_at(key, 1);
    let row = SharedWords { words };
    let found = find(&row, form, byte, seat);
    if !node::check::<MapView, MapLaw, Learn<Q>>(&words[0], taken, seat) {
        return None;
    }
    Some(found)
}

/// Whether the key is absent, as an open inner node has no child for it. `false` where it has one, or a writer came in
/// between.
fn has_no_child<Q: Lookups>(
    here: Opened<'_>,
    name: u64,
    height: usize,
    key: u64,
    seat: &mut Seat,
) -> bool
    requires asks { (Q.lookup.key ≡ key) × (Q.lookup.caller ≡ seat.old.id) }
    requires legal { IsLookup Q.lookup }
    requires open { IsOpen seat.old.view seat.old.book here.words.now here.taken name key height }
    requires height { (2 ≤ height) × (height ≤ 8) }
    ensures book { seat.new.book ≡ seat.old.book }
    ensures id { seat.new.id ≡ seat.old.id }
    ensures keeps { Keeps seat.old.view seat.new.view }
    ensures lacks { Lacks Q.lookup result seat.old.view seat.new.view }
{
    let Opened { words, taken } = here;
    let form = form_below(name);
    let byte = byte_at(key, height);
    let row = SharedWords { words };
    if find(&row, form, byte, seat).is_some() {
        return false;
    }
    node::check::<MapView, MapLaw, Learn<Q>>(&words[0], taken, seat)
}

/// Whether the key is absent, as an open node leads on to one whose path the key leaves. `false` where a writer came in
/// between.
fn leads_aside<Q: Lookups>(
    nodes: &Nodes,
    here: Opened<'_>,
    name: u64,
    height: usize,
    below: u64,
    key: u64,
    seat: &mut Seat,
) -> bool
    requires book { seat.old.book ≡ nodes.now }
    requires asks { (Q.lookup.key ≡ key) × (Q.lookup.caller ≡ seat.old.id) }
    requires legal { IsLookup Q.lookup }
    requires open { IsOpen seat.old.view seat.old.book here.words.now here.taken name key height }
    requires height { (2 ≤ height) × (height ≤ 8) }
    requires below { Sights seat.old.view below }
    ensures book { seat.new.book ≡ seat.old.book }
    ensures id { seat.new.id ≡ seat.old.id }
    ensures keeps { Keeps seat.old.view seat.new.view }
    ensures lacks { Lacks Q.lookup result seat.old.view seat.new.view }
{
    let Some(_) = watch::<Brand>(nodes, here, name, height, below, key, seat) else {
        return false;
    };
    node::check::<MapView, MapLaw, Learn<Q>>(&here.words[0], here.taken, seat)
}

/// Whether the key is absent, as an inner node has no child for it, or leads on to a node whose path the key leaves. `false`
/// where a writer came in between.
pub fn is_absent<Q: Lookups>(
    nodes: &Nodes,
    name: u64,
    height: usize,
    below: Option<u64>,
    key: u64,
    seat: &mut Seat,
) -> bool
    requires book { seat.old.book ≡ nodes.now }
    requires asks { (Q.lookup.key ≡ key) × (Q.lookup.caller ≡ seat.old.id) }
    requires legal { IsLookup Q.lookup }
    requires sighted { Sights seat.old.view name }
    requires height { (2 ≤ height) × (height ≤ 8) }
    requires below { MaySight seat.old.view below }
    ensures book { seat.new.book ≡ seat.old.book }
    ensures id { seat.new.id ≡ seat.old.id }
    ensures keeps { Keeps seat.old.view seat.new.view }
    ensures lacks { Lacks Q.lookup result seat.old.view seat.new.view }
{
    let Some(here) = enter(nodes, name, height, key, seat) else {
        return false;
    };
    match below {
        Some(below) => leads_aside::<Q>(nodes, here, name, height, below, key, seat),
        None => has_no_child::<Q>(here, name, height, key, seat),
    }
}

// The key is absent at a node where its path ends. `None` where a writer came in between.
fn absent_at<'a, Q: Lookups>(
    nodes: &'a Nodes,
    name: u64,
    height: usize,
    below: Option<u64>,
    key: u64,
    seat: &mut Seat,
) -> Option<Site<'a>>
    requires book { seat.old.book ≡ nodes.now }
    requires asks { (Q.lookup.key ≡ key) × (Q.lookup.caller ≡ seat.old.id) }
    requires legal { IsLookup Q.lookup }
    requires sighted { Sights seat.old.view name }
    requires height { (2 ≤ height) × (height ≤ 8) }
    requires below { MaySight seat.old.view below }
    ensures book { seat.new.book ≡ seat.old.book }
    ensures id { seat.new.id ≡ seat.old.id }
    ensures keeps { Keeps seat.old.view seat.new.view }
    ensures sought { Sought Q.lookup seat.new.book result seat.old.view seat.new.view }
{
    if is_absent::<Q>(nodes, name, height, below, key, seat) {
        return Some(Site::Absent);
    }
    None
}

/// Where a key is: its leaf is open. The call has ended there, if it ends by what was found. The path begins at the leaf that the
/// caller has come to last, or at the root. `None` where a writer came in between.
#[inline(always)]
pub fn seek<'a, Q: Lookups>(
    nodes: &'a Nodes,
    key: u64,
    last: &mut LastLeaf,
    seat: &mut Seat,
) -> Option<Site<'a>>
    requires book { seat.old.book ≡ nodes.now }
    requires asks { (Q.lookup.key ≡ key) × (Q.lookup.caller ≡ seat.old.id) }
    requires legal { IsLookup Q.lookup }
    requires root_word { KnowsRootWord seat.old.view }
    requires last { KnowsLast seat.old.view last.old }
    ensures book { seat.new.book ≡ seat.old.book }
    ensures id { seat.new.id ≡ seat.old.id }
    ensures keeps { Keeps seat.old.view seat.new.view }
    ensures sought { Sought Q.lookup seat.new.book result seat.old.view seat.new.view }
    ensures last { KnowsLast seat.new.view last.new }
{
    let end = descend_from(nodes, *last, key, seat)?;
    let position = end.position;
    let Position { name, height, .. } = position;
    if let Some(mismatch) = end.mismatch {
        return absent_at::<Q>(nodes, name, height, Some(mismatch.below), key, seat);
    }
    if height > 1 {
        return absent_at::<Q>(nodes, name, height, None, key, seat);
    }
    *last = LastLeaf { key, position };
    match ends_in::<Q>(end.here, name, key, seat)? {
        Some(value) => Some(Site::At(end, value)),
        None => Some(Site::Absent),
    }
}
