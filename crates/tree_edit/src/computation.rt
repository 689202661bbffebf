//! A computation at a key that is present: what a closure returns replaces the payload, or the payload is removed.
//!
//! Never fails: where the payload is removed, this is a removal.
//!
//! Tested in `test_owned` and `tools/dev/try-commands`.

ghost use Rattle.std.specs.Fn.{TakesAt};
ghost use Rattle.std.specs.Int.{from_be_bytes, w64};
ghost use Rattle.std.specs.Option.{ForSome};
ghost use Rattle.tree_edit.specs.TreeCalls.{ComputesIfPresent, ReadsPath};
ghost use Rattle.tree_edit.specs.Tree.{payload_at};
ghost use Rattle.spec_map.specs.Map.{IsMap};

use crate::insertion::{change_payload, current};
use crate::removal::take_out;
use crate::tree::Tree;
use node_table::allocator::Allocator;
use std::sync::ledger::Ledger;
use tree_path::reads::ReadCount;

impl<P: Drop, A: Allocator> Tree<P, A> {
    /// Calls the closure on the key's payload, where the key is present: the payload that it returns replaces that one,
    /// and `None` removes the pair. Returns the previous payload. `reads` goes up by one for each node on the key's
    /// path.
    pub fn compute_if_present<F: FnMut(&P) -> Option<P>, L: Ledger>(
        &mut self,
        key: &[u8; 8],
        f: &mut F,
        reads: &mut ReadCount<L>,
    ) -> Option<P>
        requires { ForSome (payload_at self.old key.now) (TakesAt F.FnMut f.old) }
        ensures ordered { IsMap self.old.pairs }
        ensures computes { let number = from_be_bytes w64 key.now in
            ComputesIfPresent A.charge self.old number F.FnMut f.old result f.new self.new }
        ensures reads { ReadsPath self.old.nodes key.now reads.old reads.new }
    {
        let mut trail = [self.root; 8];
        let spot = self.nodes.seek_along(self.root, key, reads, &mut trail);
        let Some(payload) = current(&self.nodes, &spot, key) else {
            return None;
        };
        match f(payload) {
            Some(answer) => {
                let before = change_payload(&mut self.nodes, &spot, key, answer);
                Some(before)
            }
            None => {
                let Some(before) = take_out(
                    &mut self.nodes,
                    &mut self.supply,
                    &spot,
                    &trail,
                    key,
                    true,
                ) else {
                    unreachable!()
                };
                self.count -= 1;
                self.release_slots(true);
                Some(before)
            }
        }
    }
}
