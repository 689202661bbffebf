//! A node's next larger form, and its next smaller one.
//!
//! Tested in `test_owned` and `tools/dev/try-commands`.

ghost use Rattle.std.specs.Prelude.{◌≡◌, ◌+◌, length, OnErr, OnOk};
ghost use Rattle.node_base.specs.Form.{Fits, next_form, smaller_form};

use crate::other_form::{head_48, larger_256, row_16, row_from};
use crate::row_node::{RowKind, RowNode};
use node_base::head::{Own, Whole};
use node_forms::head_16::Head16;
use node_forms::node_48::Node48;
use node_forms::node_256::Node256;
use node_forms::smaller::{smaller_4, smaller_16, smaller_48};
use node_table::kinds::{InnerHead, Leaf};
use spec_map::error::OOMError;
use std::alloc::Global;
use std::mem;

impl<P: Drop, C: Drop> RowNode<P, C> {
    /// Becomes the next form with the same prefix and children; the largest stays.
    ///
    /// All memory is taken before the first change, and refused only for lack of it.
    pub fn grow(&mut self, alloc: Global) -> Result<(), OOMError>
        ensures ok { OnOk result (self.new ≡ record self.old { form = next_form self.old.form }) }
        ensures room { OnOk result (Fits self.new.form (length self.new.children + 1)) }
        ensures err { OnErr result (self.new ≡ self.old) }
    {
        let grown = match &mut self.kind {
            RowKind::Inner4(old, row) => match Head16::grown_from(alloc, &mut old.head, row) {
                Ok((head, row)) => RowKind::Inner16(InnerHead { head }, row),
                Err(error) => return Err(error),
            },
            RowKind::Inner16(old, row) => {
                let head = head_48(&old.head, row);
                RowKind::Inner48(head, mem::replace(row, Vec::new(alloc)))
            }
            RowKind::Inner48(old, row) => match larger_256(alloc, old, row) {
                Ok(head) => RowKind::Inner256(InnerHead { head }, Own),
                Err(error) => return Err(error),
            },
            RowKind::Leaf4(old, row) => match Head16::grown_from(alloc, &mut old.head, row) {
                Ok((head, row)) => RowKind::Leaf16(Leaf { head }, row),
                Err(error) => return Err(error),
            },
            RowKind::Leaf16(old, row) => match Node48::grown_from_parts(alloc, &mut old.head, row) {
                Ok(node) => RowKind::Leaf48(
                    Leaf {
                        head: Whole { node },
                    },
                    Own,
                ),
                Err(error) => return Err(error),
            },
            RowKind::Leaf48(old, _) => match Node256::grown_from(alloc, &mut old.head.node) {
                Ok(node) => RowKind::Leaf256(
                    Leaf {
                        head: Whole { node },
                    },
                    Own,
                ),
                Err(error) => return Err(error),
            },
            RowKind::Inner256(..) | RowKind::Leaf256(..) => return Ok(()),
        };
        self.kind = grown;
        Ok(())
    }

    /// Becomes the next smaller form with the same prefix and children, for which there are few enough; the smallest
    /// stays.
    ///
    /// All memory is taken before the first change, and refused only for lack of it.
    pub fn shrink(&mut self, alloc: Global) -> Result<(), OOMError>
        requires { Fits (smaller_form self.old.form) (length self.old.children) }
        ensures ok { OnOk result (self.new ≡ record self.old { form = smaller_form self.old.form }) }
        ensures err { OnErr result (self.new ≡ self.old) }
    {
        let shrunk = match &mut self.kind {
            RowKind::Inner4(..) | RowKind::Leaf4(..) => return Ok(()),
            RowKind::Inner16(old, row) => {
                let (head, row) = smaller_4(&mut old.head, row);
                RowKind::Inner4(InnerHead { head }, row)
            }
            RowKind::Inner48(old, row) => match row_16(alloc, old, row) {
                Ok((head, row)) => RowKind::Inner16(InnerHead { head }, row),
                Err(error) => return Err(error),
            },
            RowKind::Inner256(old, row) => match row_from(alloc, &mut old.head, row) {
                Ok((head, row)) => RowKind::Inner48(head, row),
                Err(error) => return Err(error),
            },
            RowKind::Leaf16(old, row) => {
                let (head, row) = smaller_4(&mut old.head, row);
                RowKind::Leaf4(Leaf { head }, row)
            }
            RowKind::Leaf48(old, row) => match smaller_16(alloc, &mut old.head, row) {
                Ok((head, row)) => RowKind::Leaf16(Leaf { head }, row),
                Err(error) => return Err(error),
            },
            RowKind::Leaf256(old, row) => match smaller_48(alloc, &mut old.head, row) {
                Ok(head) => RowKind::Leaf48(Leaf { head }, Own),
                Err(error) => return Err(error),
            },
        };
        self.kind = shrunk;
        Ok(())
    }
}
