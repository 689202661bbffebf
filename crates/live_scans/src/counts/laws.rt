//! What follows from a count. Each law is the contract of a function with no body: to use it, call it.
ghost use Rattle.std.specs.Prelude.{◌≡◌, ℕ, length};
ghost use Rattle.spec_map.specs.Map.{Pairs, IsMap};
ghost use Rattle.live_nodes.specs.Known.{Known};
ghost use Rattle.live_scans.specs.Scans.{Moment, IsBetween};
ghost use Rattle.live_scans.specs.Counts.{HasCounted};

/// Where the map has the same pairs at all moments in between, the count is exact.
pub fn what_stays_is_counted()
    ensures { (k n : Known) (count : ℕ) (pairs : Pairs ℕ) → HasCounted k count n → IsMap pairs
        → ((m : Moment) → IsBetween k.seen n.seen m → m.pairs ≡ pairs) → count ≡ length pairs }
{}
