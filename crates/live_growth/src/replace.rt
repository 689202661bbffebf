//! A node of another form takes the place of a node, with its children. It is one that was obsolete.
ghost use Rattle.std.specs.Prelude.{◌≡◌, ℕ, ◌<◌, ◌≤◌, ◌^◌, length};
ghost use Rattle.spec_node.specs.TableNode.{TableNode};
ghost use Rattle.live_layout.specs.Words.{Apart, Stays};
ghost use Rattle.live_layout.specs.Encodes.{words_of, Encodes, in_form};
ghost use Rattle.live_growth.specs.Rooms.{HasGrown};
ghost use Rattle.live_growth.specs.Three.{HasThree};

use crate::held::unlock_again;
use crate::source::Source;
use crate::two::Two;
use live_layout::change::change;
use live_layout::fill::grow_to;
use live_layout::form::{form_below, word_below};
use live_layout::words::WriteWords;
use live_nodes::map_law::{Asks, MapLaw, MapView, Same};
use live_nodes::node;
use live_nodes::rows::LockedWords;
use live_reads::descend::Position;
use live_reads::path::{Cell, Seat, byte_at};
use node_base::base_node::NodeType;
use std::marker::Brand;

/// An obsolete node that was locked again: its name, its words, and the word that `unlock` takes.
#[derive(Clone, Copy)]
pub struct Reclaimed<'a> {
    pub name: u64,
    pub words: &'a [Cell],
    pub free: u64,
}

/// How a node of another form gets the children of a node.
pub trait Resizes {
    ghost use Rattle.node_base.specs.declared.base_node.NodeType.{NodeType};
    ghost use Rattle.live_nodes.specs.Nodes.{Content};

    // What is asked of the node's form, of the other one, and of the node's content.
    ghost asks: { NodeType → NodeType → Content → Type 0 };

    /// Writes the words of a node of that form, with the children of another node.
    fn resize<S, D: WriteWords<S>, E: WriteWords<S>>(
        from: &D,
        form: NodeType,
        to: &E,
        other: NodeType,
        seat: &mut S,
    )
        requires asks { asks form other (D.words from.now seat.old) }
        requires may { D.may_write from.now seat.old × E.may_write to.now seat.old }
        requires apart { Apart D.may_write D.words E.rest from.now to.now }
        requires long { (length (D.words from.now seat.old) ≡ words_of form)
            × (length (E.words to.now seat.old) ≡ words_of other) }
        ensures seat { Stays E.may_write E.rest to.now seat.old seat.new }
        ensures is { (n : TableNode ℕ) → Encodes (D.words from.now seat.old) n → n.form ≡ form
            → Encodes (E.words to.now seat.new) (in_form n other) };
}

/// Into a larger form.
pub struct Enlarges;

impl Resizes for Enlarges {
    ghost use Rattle.std.specs.Prelude.{◌<◌};
    ghost use Rattle.node_base.specs.Form.{form_place};
    ghost use Rattle.live_layout.specs.Encodes.{IsCounted};

    ghost asks = { λ form other c. (form_place form < form_place other) × IsCounted form c };

    fn resize<S, D: WriteWords<S>, E: WriteWords<S>>(
        from: &D,
        form: NodeType,
        to: &E,
        other: NodeType,
        seat: &mut S,
    ) {
        grow_to(from, form, to, other, seat)
    }
}

/// Puts a node that is used again in the place of another one, below the node above. All three are locked.
pub fn replace<A: Asks, R: Resizes>(
    words: &[Cell],
    words_above: &[Cell],
    position: Position,
    key: u64,
    two: Two,
    spare: Reclaimed<'_>,
    seat: &mut Seat,
)
    requires asks { (A.ask.key ≡ key) × (A.ask.height ≡ position.height) }
    requires height { (1 ≤ position.height) × (position.height < position.level)
        × (position.level ≤ 8) }
    requires spare { spare.name < 2 ^ 56 }
    requires three { HasThree R.asks seat.old.view seat.old.book words.now words_above.now
        spare.words.now two.free two.free_above spare.free spare.name position key }
    ensures seat { (seat.new.book ≡ seat.old.book) × (seat.new.id ≡ seat.old.id) }
    ensures grown { HasGrown seat.old.view seat.new.view }
    ensures room { seat.new.view.room ≡ seat.old.view.room }
{
    let Reclaimed {
        name,
        words: others,
        free: back,
    } = spare;
    let form = form_below(position.name);
    let other = form_below(name);
    let source = Source { words };
    let new: LockedWords<'_, MapView, MapLaw, 0> = LockedWords { words: others };
    R::resize(&source, form, &new, other, seat);
    let above = form_below(position.above);
    let byte = byte_at(key, position.level);
    let held: LockedWords<'_, MapView, MapLaw, 2> = LockedWords { words: words_above };
    let _ = change(&held, above, byte, word_below(name, other), seat);
    unlock_again::<A, Brand>(&words_above[0], two.free_above, seat);
    node::unlock::<MapView, MapLaw, Same>(&others[0], back, seat);
    node::retire::<MapView, MapLaw, Same>(&words[0], two.free, seat);
}
