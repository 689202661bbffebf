//! What a node of any form has under a byte, set where there is room for it.
//!
//! Tested in `congee_nodes`.

ghost use Rattle.std.specs.Prelude.{◌≡◌, ◌+◌, length, IfOk, IfErr, OnOk, OnErr, IsTrue, false, None};
ghost use Rattle.spec_map.specs.Map.{lookup, put};
ghost use Rattle.node_base.specs.Form.{Fits};

use node_base::base_node::{BaseNode, NodeType};
use node_base::head::Head;

/// Whether a node with this base has no room for one child more.
#[inline(always)]
pub fn has_no_room(base: &BaseNode) -> bool
    ensures full { IsTrue result → Fits base.now.form (base.now.count + 1) → ⊥ }
    ensures room { result ≡ false → Fits base.now.form (base.now.count + 1) }
{
    let count = base.value_count();
    match base.get_type() {
        NodeType::N4 => count >= 4,
        NodeType::N16 => count >= 16,
        NodeType::N48 => count >= 48,
        NodeType::N256 => false,
    }
}

/// Sets what a node has under a byte, where there is something or room for one child more, and returns the previous one.
/// Otherwise `Err` returns the new one.
#[inline(always)]
pub fn set_child<C, H: Head<C>>(
    head: &mut H,
    row: &mut H::Row,
    byte: u8,
    child: C,
) -> Result<Option<C>, C>
    requires { H.IsNode head.old row.old }
    ensures node { H.IsNode head.new row.new }
    ensures before { IfOk result (λ before.
        lookup (H.children head.old row.old) byte ≡ before) }
    ensures room { IfOk result (λ before. before ≡ None
        → Fits (H.form head.old) (length (H.children head.old row.old) + 1)) }
    ensures after { OnOk result
        (H.children head.new row.new ≡ put (H.children head.old row.old) byte child) }
    ensures absent { OnErr result (lookup (H.children head.old row.old) byte ≡ None) }
    ensures full { OnErr result
        (Fits (H.form head.old) (length (H.children head.old row.old) + 1) → ⊥) }
    ensures back { IfErr result (λ back. back ≡ child) }
    ensures same { OnErr result (H.children head.new row.new ≡ H.children head.old row.old) }
    ensures prefix { H.prefix head.new ≡ H.prefix head.old }
    ensures form { H.form head.new ≡ H.form head.old }
{
    match head.exchange(row, byte, child) {
        Ok(before) => Ok(Some(before)),
        Err(back) => {
            if has_no_room(head.base(row)) {
                return Err(back);
            }
            head.insert(row, byte, back);
            Ok(None)
        }
    }
}
