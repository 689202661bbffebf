//! Calls by the keys' numbers, for those who have no keys: a number may be one that no key is written as.
//!
//! Tested in `test_live_payloads`.

ghost use Rattle.std.specs.Prelude.{◌≡◌, IfOk, map as each, option_copied};
ghost use Rattle.spec_map.specs.Map.{lookup};
ghost use Rattle.tree_edit.specs.TreeCalls.{Inserts};

use super::PayloadCongee;
use congee_tree::by_number;
use node_table::allocator::Allocator;
use spec_map::error::OOMError;
use spec_map::payload::Payload;
use spec_map::traits::Word;
use std::marker::Brand;
use std::sync::ledger::Blank;

impl<K: Word, P: Payload, A: Allocator> PayloadCongee<K, P, A> {
    /// The numbers of the keys, ascending. `OOMError` comes where there is no memory for the list.
    pub fn numbers(&self) -> Result<Vec<u64>, OOMError>
        ensures { IfOk result (λ numbers. numbers.items ≡ each (λ pair. pair.0) self.now.pairs) }
    {
        self.tree.keys::<u64>()
    }

    /// The payload at the key with this number. Takes no memory.
    pub fn get_by_number(&self, number: u64) -> Option<&P>
        ensures { option_copied result ≡ lookup self.now.pairs number }
    {
        by_number::get::<Brand, P, A>(&self.tree, number, Blank::new(1))
    }

    /// Sets the payload at the key with this number, and returns the previous one. `OOMError` comes only for a new key
    /// that needs a node of its own or a larger one, where memory is missing for that. It leaves the map unchanged, and
    /// the given payload is dropped.
    pub fn insert_by_number(&mut self, number: u64, payload: P) -> Result<Option<P>, OOMError>
        ensures { Inserts A.charge self.old number payload result self.new }
    {
        by_number::insert::<Brand, P, A>(&mut self.tree, number, payload, Blank::new(1))
    }
}
