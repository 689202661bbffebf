//! A row that is kept ready for the children of a node whose own row has no room for one more.
//!
//! A row begins with sixteen places, and grows by four.
//!
//! Tested in `test_owned` and `tools/dev/try-commands`.

ghost use Rattle.std.specs.Prelude.{◌≡◌, ◌+◌, ◌<◌, ◌≤◌, length, IfOk, vec_capacity};
ghost use Rattle.node_rows.specs.Spare.{IsSpareFor};
ghost use Rattle.node_rows.specs.inner.Steps.{HasSteps};

use node_base::row::move_row;
use spec_map::error::OOMError;
use std::alloc::Global;

/// The spare row for an insertion: none where the node needs none.
pub type Spare<C> = Option<Vec<C>>;

/// The spare row for a node with so many children; a refusal only for lack of memory.
pub(crate) fn spare_row<C>(alloc: Global, count: usize) -> Result<Spare<C>, OOMError>
    requires { count ≤ 48 }
    ensures { IfOk result (λ spare. IsSpareFor count spare) }
{
    if count < 16 || count % 4 != 0 {
        return Ok(None);
    }
    let row = Vec::with_capacity(alloc, count + 4)?;
    Ok(Some(row))
}

/// Moves the children of a row to the spare one, if there is one, so that there is room for one more.
pub(crate) fn make_room<C: Drop>(row: &mut Vec<C>, spare: Spare<C>)
    requires steps { HasSteps (length row.old.items) (vec_capacity row.old) }
    requires spare { IsSpareFor (length row.old.items) spare }
    ensures same { row.new.items ≡ row.old.items }
    ensures room { length row.old.items < vec_capacity row.new }
    ensures steps { HasSteps (length row.old.items + 1) (vec_capacity row.new) }
{
    if let Some(larger) = spare {
        let mut larger = larger;
        move_row(row, &mut larger);
        *row = larger;
    }
}
