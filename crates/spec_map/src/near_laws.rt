//! What follows from the definitions of a map's ends and of a key's neighbours alone.
//!
//! Each law is the contract of a function with no body. `P` is the type of what a map stores.

ghost use Rattle.std.specs.Prelude.{◌≡◌, ℕ, ◌+◌, ◌-◌, ◌^◌, ◌<◌, ◌≤◌, [], ◌∷◌, ◌++◌, Some, None};
ghost use Rattle.spec_map.specs.Map.{Pairs, lookup, without, between, IsMap};
ghost use Rattle.spec_map.specs.Near.{first_of, last_of, floor_of, below_of, ceiling_of, above_of};

/// `floor_of` is a stored pair with a key that is at most `k`, and no key between the two is stored; where it is none,
/// no key up to `k` is.
pub fn floor_is_greatest<P>()
    ensures stored { (m : Pairs P) (k : ℕ) (p : ℕ × P) → IsMap m → floor_of m k ≡ Some p
        → lookup m p.0 ≡ Some p.1 }
    ensures within { (m : Pairs P) (k : ℕ) (p : ℕ × P) → IsMap m → floor_of m k ≡ Some p
        → p.0 ≤ k }
    ensures greatest { (m : Pairs P) (k j : ℕ) (p : ℕ × P) → IsMap m → floor_of m k ≡ Some p
        → p.0 < j → j ≤ k → lookup m j ≡ None }
    ensures none { (m : Pairs P) (k j : ℕ) → IsMap m → floor_of m k ≡ None
        → j ≤ k → lookup m j ≡ None }
{}

/// `ceiling_of` is a stored pair with a key that is at least `k`, and no key between the two is stored; where it is
/// none, no key from `k` on is.
pub fn ceiling_is_least<P>()
    ensures stored { (m : Pairs P) (k : ℕ) (p : ℕ × P) → IsMap m → ceiling_of m k ≡ Some p
        → lookup m p.0 ≡ Some p.1 }
    ensures within { (m : Pairs P) (k : ℕ) (p : ℕ × P) → IsMap m → ceiling_of m k ≡ Some p
        → k ≤ p.0 }
    ensures least { (m : Pairs P) (k j : ℕ) (p : ℕ × P) → IsMap m → ceiling_of m k ≡ Some p
        → k ≤ j → j < p.0 → lookup m j ≡ None }
    ensures none { (m : Pairs P) (k j : ℕ) → IsMap m → ceiling_of m k ≡ None
        → k ≤ j → lookup m j ≡ None }
{}

/// The ends and the strict neighbours are a floor or a ceiling, too: so the laws of those are theirs.
pub fn each_is_a_floor_or_ceiling<P>()
    ensures first { (m : Pairs P) → IsMap m → first_of m ≡ ceiling_of m 0 }
    ensures last { (m : Pairs P) → IsMap m → last_of m ≡ floor_of m (2 ^ 64 - 1) }
    ensures above { (m : Pairs P) (k : ℕ) → above_of m k ≡ ceiling_of m (k + 1) }
    ensures below { (m : Pairs P) (k : ℕ) → below_of m (k + 1) ≡ floor_of m k }
    ensures nothing_below { (m : Pairs P) → below_of m 0 ≡ None }
{}

/// A map is its first pair and the others, or the others and its last pair; only the empty one has neither.
pub fn map_without_an_end<P>()
    ensures first { (m : Pairs P) (p : ℕ × P) → first_of m ≡ Some p → m ≡ p ∷ without m p.0 }
    ensures last { (m : Pairs P) (p : ℕ × P) → IsMap m → last_of m ≡ Some p
        → m ≡ without m p.0 ++ (p ∷ []) }
    ensures no_first { (m : Pairs P) → first_of m ≡ None → m ≡ [] }
    ensures no_last { (m : Pairs P) → last_of m ≡ None → m ≡ [] }
{}
