//! What a tree can store: values that are shared and compared.
//!
//! Tested in `congee_nodes` and `test_owned`.

ghost use Rattle.std.specs.Prelude.{◌≡◌, Bool, true, false, IfOk, IsOk, ◌==◌, refl};
ghost use Rattle.std.specs.Arc.{arc_value};
ghost use Rattle.std.proofs.Common.{rules, ◌∙◌};

use crate::error::OOMError;
use std::sync::Arc;

/// A stored value, which a call may hand out again and compare with another.
///
/// `share` returns a value that is alike: the same number, or one more owner of what an `Arc` holds. `same` is a
/// function of its two values, and true means that they are equal; it may return false for equal ones.
pub trait Payload: Drop {
    /// The second represents the same value as the first.
    ghost alike: { Self → Self → Type 0 };

    /// What `same` returns.
    ghost tells_same: { Self → Self → Bool };

    /// Sharing takes nothing that could be missing.
    ghost always_shared: { Type 0 };

    /// One more of the same, or `OOMError` if it takes memory and there is none.
    fn share(&self) -> Result<Self, OOMError>
        ensures alike { IfOk result (λ copy. alike self.now copy) }
        ensures granted { always_shared → IsOk result };

    /// Whether a change from one to the other would be none.
    fn same(&self, other: &Self) -> bool
        ensures { result ≡ tells_same self.now other.now };

    ghost alike_itself: { (x : Self) → alike x x };

    ghost alike_onward: { (x y z : Self) → alike x y → alike y z → alike x z };

    ghost same_is_equal: { (x y : Self) → tells_same x y ≡ true → x ≡ y };
}

impl Payload for u64 {
    ghost alike = { λ x y. y ≡ x };

    ghost tells_same = { λ x y. x == y };

    ghost always_shared = { Unit {0} };

    /// Never refused.
    fn share(&self) -> Result<u64, OOMError>
        ensures alike { IfOk result (λ copy. copy ≡ self.now) }
        ensures never_refused { IsOk result }
    {
        Ok(*self)
    }

    fn same(&self, other: &u64) -> bool {
        *self == *other
    }

    ghost alike_itself = { λ x. refl };

    ghost alike_onward = { λ x y z first second. second ∙ first };

    ghost same_is_equal = { Prim.search rules };
}

impl<V: Drop> Payload for Arc<V> {
    ghost alike = { λ x y. arc_value y ≡ arc_value x };

    ghost tells_same = { λ _ _. false };

    ghost always_shared = { ⊥ };

    /// One more owner; refused where the count of owners can't grow.
    fn share(&self) -> Result<Arc<V>, OOMError> {
        Ok(self.clone()?)
    }

    /// Always false: what two owners hold isn't compared.
    fn same(&self, _other: &Arc<V>) -> bool {
        false
    }

    ghost alike_itself = { λ x. refl };

    ghost alike_onward = { λ x y z first second. second ∙ first };

    ghost same_is_equal = { Prim.search rules };
}
