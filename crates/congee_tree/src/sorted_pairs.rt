//! The plainest ordered map: one vector of pairs, their keys ascending.
//!
//! Its contract is the definition of the ordered map, call for call. So tests may compare any other body with it.
//!
//! Tested in `test_owned` and `tools/dev/try-commands`.

ghost use Rattle.std.specs.Prelude.{◌≡◌, ℕ, [], length, IfOk, IfErr, OnOk, OnErr, option_copied};
ghost use Rattle.spec_map.specs.Map.{lookup, put, without, IsMap};
ghost use Rattle.spec_map.specs.Refusal.{IsNewKey};
ghost use Rattle.congee_tree.specs.inner.Place.{IsPairAt, IsGapFor};

use spec_map::error::OOMError;
use std::alloc::Global;
use std::marker::Model;
use std::mem;

/// A map from numbers to values: 16 bytes a pair at a `u64`. A look-up takes time in the logarithm of the number of
/// pairs, an insertion of a new key and a removal in their number.
#[derive(Drop)]
pub struct SortedPairs<P> {
    pairs: Vec<(u64, P)>,
}

impl<P> Model for SortedPairs<P> {
    ghost use Rattle.std.specs.Coded.{coded×, coded_list, coded_ℕ};
    ghost use Rattle.spec_map.specs.Map.{Pairs, IsMap};

    ghost Value = { Pairs P };

    ghost coded = { coded_list (coded× coded_ℕ P.code) };

    ghost view = { λ m. m.pairs.items };

    ghost invariant = { λ m. IsMap m.pairs.items };
}

impl<P: Drop> SortedPairs<P> {
    /// An empty map. Takes no memory.
    pub fn new(alloc: Global) -> Self
        ensures { result ≡ [] }
    {
        SortedPairs {
            pairs: Vec::new(alloc),
        }
    }

    /// The value at the key. Takes no memory.
    pub fn get(&self, key: u64) -> Option<&P>
        ensures { option_copied result ≡ lookup self.now key }
    {
        match search(&self.pairs, key) {
            Ok(at) => Some(&self.pairs[at].1),
            Err(_) => None,
        }
    }

    /// All pairs, keys ascending. Takes no memory.
    pub fn pairs(&self) -> &[(u64, P)]
        ensures { result.now ≡ self.now }
    {
        &self.pairs
    }

    /// Sets the value at the key, and returns the previous one. `OOMError` comes only for a new key, where the vector
    /// finds no memory to grow, and changes nothing.
    pub fn insert(&mut self, key: u64, value: P) -> Result<Option<P>, OOMError>
        ensures before { IfOk result (λ before. before ≡ lookup self.old key) }
        ensures ok { OnOk result (self.new ≡ put self.old key value) }
        ensures err { OnErr result (self.new ≡ self.old) }
        ensures refused { OnErr result (IsNewKey self.old key) }
    {
        match search(&self.pairs, key) {
            Ok(at) => {
                let slot = &mut self.pairs[at];
                Ok(Some(mem::replace(slot, (key, value)).1))
            }
            Err(at) => {
                self.pairs.insert(at, (key, value))?;
                Ok(None)
            }
        }
    }

    /// Removes the pair at the key, and returns its value. Takes no memory.
    pub fn remove(&mut self, key: u64) -> Option<P>
        ensures before { result ≡ lookup self.old key }
        ensures pairs { self.new ≡ without self.old key }
    {
        match search(&self.pairs, key) {
            Ok(at) => Some(self.pairs.remove(at).1),
            Err(_) => None,
        }
    }
}

// Where the key is, or where it would go.
fn search<P>(pairs: &[(u64, P)], key: u64) -> Result<usize, usize>
    requires { IsMap pairs.now }
    ensures found { IfOk result (IsPairAt pairs.now key) }
    ensures absent { IfErr result (IsGapFor pairs.now key) }
{
    pairs.binary_search_by_key(&key, |pair| pair.0)
}
