//! What follows from a page. Each law is the contract of a function with no body: to use it, call it.
ghost use Rattle.std.specs.Prelude.{◌≡◌, ℕ, ◌<◌, ◌≤◌, nat_eq, Bool, List, [], ◌∷◌, ◌++◌, length, reverse, Option, None};
ghost use Rattle.spec_map.specs.Map.{Pairs, lookup};
ghost use Rattle.share_rule.specs.History.{Entry, StartsWith, IsHistory};
ghost use Rattle.live_nodes.specs.Known.{Known};
ghost use Rattle.live_nodes.specs.Begun.{began};
ghost use Rattle.live_scans.specs.Scans.{Moment, IsBetween, HasRead, HasPage};
ghost use Rattle.live_scans.specs.Descents.{HasPageDown};

/// A key that has one value at all moments in between is given with it. One that is absent throughout isn't given.
pub fn what_stays_is_given()
    ensures { (up : Bool) (old new : List (Entry ℕ)) (low high : ℕ) (pairs : Pairs ℕ) (key : ℕ)
        (value : Option ℕ) → HasRead up old new low high pairs → low ≤ key → key < high
        → ((m : Moment) → IsBetween old new m → lookup m.pairs key ≡ value)
        → lookup pairs key ≡ value }
{}

/// A key that isn't given by a page which isn't full was absent at a moment after all that the guard had seen, and after the
/// entry with which the reader began.
pub fn what_is_not_given_was_absent()
    ensures { (k n : Known) (low high room key : ℕ) (pairs : Pairs ℕ) → HasPage k low high room pairs n
        → length pairs < room → low ≤ key → key < high → lookup pairs key ≡ None
        → (m : Moment) × (IsHistory nat_eq m.history m.pairs)
        × ((older : List (Entry ℕ)) × StartsWith m.history ((k.seen ++ older) ++ began k.caller ∷ []))
        × (lookup m.pairs key ≡ None) }
{}

/// A key that isn't given by a page downwards which isn't full was absent at a moment after all that the guard had seen, and after the
/// entry with which the reader began.
pub fn what_is_not_given_downwards_was_absent()
    ensures { (k n : Known) (low high room key : ℕ) (pairs : Pairs ℕ)
        → HasPageDown k low high room pairs n → length pairs < room → low ≤ key → key < high
        → lookup (reverse pairs) key ≡ None
        → (m : Moment) × (IsHistory nat_eq m.history m.pairs)
        × ((older : List (Entry ℕ)) × StartsWith m.history ((k.seen ++ older) ++ began k.caller ∷ []))
        × (lookup m.pairs key ≡ None) }
{}
