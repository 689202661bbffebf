//! The call for what an inner node has in the place of one child.
//!
//! Tested in `test_owned` and `tools/dev/try-commands`.

ghost use Rattle.std.specs.Prelude.{◌≡◌, ◌<◌, length, IfOk, IfErr, OnOk, OnErr, Some, None};
ghost use Rattle.spec_map.specs.Map.{lookup, put};
ghost use Rattle.spec_node.specs.declared.child.Child.TheVariants.{Node};

use crate::inner_row::{exchange_in, exchange_place};
use crate::row_node::{RowKind, RowNode};

impl<P: Drop, C: Drop> RowNode<P, C> {
    /// Replaces what an inner node has in the place of a child, and returns the previous one. If there is none, `Err` returns
    /// the new one. One jump by the form, and nothing goes through a `Child`.
    // (inline, as `exchange`)
    #[inline(always)]
    pub fn exchange_place(&mut self, byte: u8, place: C) -> Result<C, C>
        requires inner { length self.old.prefix < 7 }
        ensures before { IfOk result (λ c. lookup self.old.children byte ≡ Some (Node c)) }
        ensures after { OnOk result (self.new
            ≡ record self.old { children = put self.old.children byte (Node place) }) }
        ensures absent { OnErr result (lookup self.old.children byte ≡ None) }
        ensures back { IfErr result (λ c. c ≡ place) }
        ensures same { OnErr result (self.new ≡ self.old) }
    {
        match &mut self.kind {
            RowKind::Inner4(node, row) => exchange_in::<P, C, _>(node, row, byte, place),
            RowKind::Inner16(node, row) => exchange_in::<P, C, _>(node, row, byte, place),
            RowKind::Inner48(head, row) => exchange_place::<P, C>(head, row, byte, place),
            RowKind::Inner256(node, row) => exchange_in::<P, C, _>(node, row, byte, place),
            RowKind::Leaf4(..) | RowKind::Leaf16(..) | RowKind::Leaf48(..) | RowKind::Leaf256(..) =>
                { unreachable!() }
        }
    }
}
