//! What follows from the definitions alone: laws by which a reader can check the definitions.
//!
//! Each law is the contract of a function with no body. `P` is the type of what a map stores.

ghost use Rattle.std.specs.Prelude.{◌≡◌, ◌≢◌, ℕ, ◌<◌, ◌≤◌, ◌^◌, Bool, List, map, Some, None};
ghost use Rattle.spec_map.specs.Map.{Pairs, lookup, put, without, between, IsMap};
ghost use Rattle.spec_map.specs.Call.{Operation};
ghost use Rattle.spec_map.specs.Refusal.{MayRunOut, at_new_key, at_new_node};
ghost use Rattle.spec_map.specs.Legal.{IsLegal, KeysFitU64};
ghost use Rattle.spec_map.specs.Request.{Request, request_of};

/// A map is known by its look-ups: two maps with the same value at every key are one list of pairs.
pub fn known_by_lookups<P>()
    ensures { (m n : Pairs P) → IsMap m → IsMap n
        → ((k : ℕ) → lookup m k ≡ lookup n k) → m ≡ n }
{}

/// Look-ups after a `put`: the new value at its key, the previous value at every other key.
pub fn lookup_after_put<P>()
    ensures same { (m : Pairs P) (k : ℕ) (v : P) → lookup (put m k v) k ≡ Some v }
    ensures other { (m : Pairs P) (k j : ℕ) (v : P) → j ≢ k → lookup (put m k v) j ≡ lookup m j }
{}

/// Look-ups after a `without`: nothing at its key, the previous value at every other key.
pub fn lookup_after_without<P>()
    ensures same { (m : Pairs P) (k : ℕ) → IsMap m → lookup (without m k) k ≡ None }
    ensures other { (m : Pairs P) (k j : ℕ) → j ≢ k → lookup (without m k) j ≡ lookup m j }
{}

/// Look-ups in `between`: the map's value from the first key on and below the second, nothing elsewhere.
pub fn lookup_between<P>()
    ensures inside { (m : Pairs P) (a b k : ℕ) → a ≤ k → k < b
        → lookup (between m a b) k ≡ lookup m k }
    ensures below { (m : Pairs P) (a b k : ℕ) → k < a → lookup (between m a b) k ≡ None }
    ensures above { (m : Pairs P) (a b k : ℕ) → b ≤ k → lookup (between m a b) k ≡ None }
{}

/// The pairs stay ascending.
pub fn stays_a_map<P>()
    ensures put { (m : Pairs P) (k : ℕ) (v : P) → IsMap m → k < 2 ^ 64 → IsMap (put m k v) }
    ensures without { (m : Pairs P) (k : ℕ) → IsMap m → IsMap (without m k) }
    ensures between { (m : Pairs P) (a b : ℕ) → IsMap m → IsMap (between m a b) }
{}

/// A legal run of calls whose keys have 64 bits leads from a map to a map.
pub fn run_stays_a_map<P>()
    ensures { (same : P → P → Bool) (r : MayRunOut) (m n : Pairs P) (operations : List (Operation ℕ P P))
        → IsMap m → KeysFitU64 operations → IsLegal same r m operations n → IsMap n }
{}

/// The calls, what their closures returned, and which of them were refused determine the replies and the end of a run.
pub fn run_is_determined<P>()
    ensures { (same : P → P → Bool) (r : MayRunOut) (m n n' : Pairs P)
        (operations operations' : List (Operation ℕ P P))
        → IsLegal same r m operations n → IsLegal same r m operations' n'
        → map request_of operations ≡ map request_of operations'
        → (operations ≡ operations') × (n ≡ n') }
{}

/// A run of a tree is one of a sorted vector, which may refuse more.
pub fn tree_refuses_less<P>()
    ensures { (same : P → P → Bool) (m n : Pairs P) (operations : List (Operation ℕ P P))
        → IsLegal same at_new_node m operations n → IsLegal same at_new_key m operations n }
{}
