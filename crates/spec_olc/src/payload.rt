//! The meaning of a payload.

ghost use Rattle.std.specs.Prelude.{◌≡◌, Bool, true, false, ◌==◌, refl};
ghost use Rattle.std.specs.Arc.{arc_value};
ghost use Rattle.std.proofs.lemmas.Bool.{eqb-true, false≢true};

use spec_map::payload::Payload;
use std::sync::Arc;

/// A payload with a meaning: of a number the number itself, of an `Arc` the value that it owns.
///
/// A share has the same meaning. `same` is a function of two meanings: true means that they are equal, and false may be
/// returned for equal ones, too.
pub trait HasMeaning: Payload {
    /// The type of the meanings.
    ghost Meaning: { Type 0 };

    /// The meaning of a value.
    ghost meaning: { Self → Meaning };

    /// What `same` returns, by the meanings of its values.
    ghost same_meaning: { Meaning → Meaning → Bool };

    ghost alike_in_meaning: { (x y : Self) → Self.alike x y → meaning y ≡ meaning x };

    ghost same_by_meaning: { (x y : Self) → Self.tells_same x y ≡ same_meaning (meaning x) (meaning y) };

    ghost same_is_equal_meaning: { (x y : Meaning) → same_meaning x y ≡ true → x ≡ y };
}

impl HasMeaning for u64 {
    ghost use Rattle.std.specs.Prelude.{ℕ};

    ghost Meaning = { ℕ };

    ghost meaning = { λ x. x };

    ghost same_meaning = { λ x y. x == y };

    ghost alike_in_meaning = { λ x y e. e };

    ghost same_by_meaning = { λ x y. refl };

    ghost same_is_equal_meaning = { eqb-true };
}

impl<V: Drop> HasMeaning for Arc<V> {
    ghost Meaning = { V };

    ghost meaning = { λ x. arc_value x };

    ghost same_meaning = { λ _ _. false };

    ghost alike_in_meaning = { λ x y e. e };

    ghost same_by_meaning = { λ x y. refl };

    ghost same_is_equal_meaning = { λ x y e. absurd (false≢true e) };
}
