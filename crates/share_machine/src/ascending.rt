//! The least pair of a machine of numbers from a key on. No event is made, and no node's word is looked at.
//!
//! Tested in `test_share_faces/upward`.

ghost use Rattle.std.specs.Prelude.{◌≡◌, ℕ, option_map};
ghost use Rattle.spec_map.specs.Map.{Pairs};
ghost use Rattle.spec_map.specs.Near.{above_of, ceiling_of};
ghost use Rattle.spec_olc.specs.Content.{IsContent};
ghost use Rattle.spec_olc.specs.Meaning.{meant};

use crate::events::Events;
use node_table::allocator::Allocator;
use olc_machine::machine::Machine;
use share_backend::ascending::{Ascending, Upward};

// The pair itself, if one was found.
fn copied(found: Option<(u64, &u64)>) -> Option<(u64, u64)>
    ensures { result ≡ option_map (λ lent. (lent.0, lent.1.now)) found.entry }
{
    let (key, number) = found?;
    Some((key, *number))
}

// The pair with the least key that is at least this one.
fn pair_at_least<A: Allocator>(machine: &Machine<u64, A>, key: u64) -> Option<(u64, u64)>
    ensures { (m : Pairs ℕ) → IsContent (meant (λ x. x) machine.now) m
        → result ≡ ceiling_of m key }
{
    copied(machine.pair_from(key))
}

// The pair with the least key above this one.
fn pair_above<A: Allocator>(machine: &Machine<u64, A>, key: u64) -> Option<(u64, u64)>
    ensures { (m : Pairs ℕ) → IsContent (meant (λ x. x) machine.now) m
        → result ≡ above_of m key }
{
    if key == u64::MAX {
        return None;
    }
    pair_at_least(machine, key + 1)
}

impl<A: Allocator> Ascending for Events<u64, A> {
    fn upward(&self, place: Upward) -> Option<(u64, u64)> {
        match place {
            Upward::First => pair_at_least(&self.machine, 0),
            Upward::Ceiling(key) => pair_at_least(&self.machine, key),
            Upward::Above(key) => pair_above(&self.machine, key),
        }
    }
}
