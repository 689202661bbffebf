//! The step of a reader at a leaf.
ghost use Rattle.std.specs.Prelude.{◌≡◌, ◌≢◌, ◌+◌, ◌%◌, ◌<◌, ◌≤◌, ◌^◌, cond, length, take, drop, IfSome};
ghost use Rattle.live_layout.specs.Page.{pairs_of};
ghost use Rattle.live_reads.specs.Paths.{Names, Keeps};
ghost use Rattle.live_scans.specs.inner.Directions.{low_of, high_of, ascending};
ghost use Rattle.live_scans.specs.inner.Moments.{SeesMore, Reads};
ghost use Rattle.live_scans.specs.inner.Nexts.{IsLeafOpen, IsReadOn};

use crate::fill::fill_on;
use crate::on_check::Whole;
use live_layout::form::form_below;
use live_layout::page::{Filled, Part, RangeEntry};
use live_nodes::map_law::{Asks, MapLaw, MapView};
use live_nodes::node;
use live_nodes::rows::SharedWords;
use live_reads::path::{Nodes, Opened, Seat};
use live_reads::prefix_match::enter;

/// Writes a part of a leaf that is open into a buffer, from a place there on, upwards (`true`) or downwards. `None` where a writer
/// came in between.
#[inline(always)]
pub fn read_leaf<A: Asks, P: RangeEntry>(
    leaf: Opened<'_>,
    name: u64,
    up: bool,
    part: Part,
    buffer: &mut [P],
    start: usize,
    seat: &mut Seat,
) -> Option<Filled>
    requires asks { A.ask.caller ≡ seat.old.id }
    requires open { IsLeafOpen seat.old.view seat.old.book leaf.words.now leaf.taken name
        (part.base + part.first) }
    requires part { (part.first ≤ part.last) × (part.base + 255 < 2 ^ 64) × (part.base % 256 ≡ 0) }
    requires start { start < length buffer.old }
    ensures before { take start (pairs_of P.pair buffer.new)
        ≡ take start (pairs_of P.pair buffer.old) }
    ensures filled { IfSome result (λ f. (start ≤ f.count) × (f.count ≤ length buffer.old)
        × (part.first ≤ f.reached) × (f.reached ≤ part.last)
        × (f.reached ≢ cond up part.last part.first → f.count ≡ length buffer.old)) }
    ensures book { seat.new.book ≡ seat.old.book }
    ensures id { seat.new.id ≡ seat.old.id }
    ensures keeps { Keeps seat.old.view seat.new.view }
    ensures seen { SeesMore seat.new.view.client.seen seat.old.id seat.old.view.client.seen }
    ensures on { IfSome result (λ _. IsReadOn seat.old.view.reads seat.new.view.reads) }
    ensures reads { IfSome result (λ f. let from = part.base + cond up part.first part.last
        in let to = part.base + f.reached
        in Reads up seat.old.id seat.old.view seat.new.view (low_of up from to) (high_of up from to)
        (ascending up (drop start (take f.count (pairs_of P.pair buffer.new))))) }
{
    let Opened { words, taken } = leaf;
    let form = form_below(name);
    let row = SharedWords { words };
    let filled = fill_on(&row, form, up, part, buffer, start, seat);
    if !node::check::<MapView, MapLaw, Whole<A>>(&words[0], taken, seat) {
        return None;
    }
    Some(filled)
}

/// Writes a part of a leaf into a buffer, from a place there on, upwards (`true`) or downwards. `None` where a writer came in between.
pub fn leaf_page<A: Asks, P: RangeEntry>(
    nodes: &Nodes,
    name: u64,
    up: bool,
    part: Part,
    buffer: &mut [P],
    start: usize,
    seat: &mut Seat,
) -> Option<Filled>
    requires book { seat.old.book ≡ nodes.now }
    requires asks { A.ask.caller ≡ seat.old.id }
    requires named { Names seat.old.view name (part.base + part.first) 1 }
    requires part { (part.first ≤ part.last) × (part.base + 255 < 2 ^ 64) × (part.base % 256 ≡ 0) }
    requires start { start < length buffer.old }
    ensures before { take start (pairs_of P.pair buffer.new)
        ≡ take start (pairs_of P.pair buffer.old) }
    ensures filled { IfSome result (λ f. (start ≤ f.count) × (f.count ≤ length buffer.old)
        × (part.first ≤ f.reached) × (f.reached ≤ part.last)
        × (f.reached ≢ cond up part.last part.first → f.count ≡ length buffer.old)) }
    ensures book { seat.new.book ≡ seat.old.book }
    ensures id { seat.new.id ≡ seat.old.id }
    ensures keeps { Keeps seat.old.view seat.new.view }
    ensures seen { SeesMore seat.new.view.client.seen seat.old.id seat.old.view.client.seen }
    ensures reads { IfSome result (λ f. let from = part.base + cond up part.first part.last
        in let to = part.base + f.reached
        in Reads up seat.old.id seat.old.view seat.new.view (low_of up from to) (high_of up from to)
        (ascending up (drop start (take f.count (pairs_of P.pair buffer.new))))) }
{
    let leaf = enter(nodes, name, 1, part.base + part.first as u64, seat)?;
    read_leaf::<A, P>(leaf, name, up, part, buffer, start, seat)
}
