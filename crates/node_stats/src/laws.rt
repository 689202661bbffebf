//! What follows from the definitions of the statistics alone. Each law is the contract of a function with no body.

ghost use Rattle.std.specs.Prelude.{◌≡◌, ℕ, ◌+◌, ◌<◌, ◌^◌, List, [], ◌∷◌, ◌++◌, length, sum_by};
ghost use Rattle.node_stats.specs.declared.levels.LevelStats.{LevelStats};
ghost use Rattle.node_stats.specs.Fractions.{IsNearestHundredth};
ghost use Rattle.spec_node.specs.Key.{Begins};
ghost use Rattle.node_table.specs.Shape.{AreUnder, AllBegin};
ghost use Rattle.node_stats.specs.Stats.{Visit, visit, IsTally};
ghost use Rattle.node_stats.specs.StatsText.{all_nodes, all_entries};
ghost use Rattle.node_table.specs.Table.{NodeTable, NodeInfo, pairs_at, nodes_at, IsTree};
ghost use Rattle.node_stats.specs.Visits.{visits_below};

/// One number of hundredths alone is the nearest to a fraction, so `IsNearestHundredth` determines it.
pub fn one_nearest_hundredth()
    ensures { (p q h i : ℕ) → 0 < q → IsNearestHundredth p q h → IsNearestHundredth p q i → h ≡ i }
{}

/// If no count saturates, no node is lost or counted twice: the sums over all levels and forms are those over the list
/// of nodes.
#[tactic(auto, using(crate::proofs::TallySums::nodes_complete, crate::proofs::TallySums::entries_complete))]
pub fn tally_is_complete()
    ensures nodes { (nodes : List Visit) (levels : List LevelStats) → IsTally nodes levels
        → length nodes < 2 ^ 64 → all_nodes levels ≡ length nodes }
    ensures entries { (nodes : List Visit) (levels : List LevelStats) → IsTally nodes levels
        → sum_by (λ n. n.entries) nodes < 2 ^ 64
        → all_entries levels ≡ sum_by (λ n. n.entries) nodes }
{}

/// A node whose bytes go on to all others of a list is on the first level of that part of a tree, and they are a level
/// deeper.
pub fn levels_below_a_node()
    ensures { (above : ℕ) (n : NodeInfo) (nodes : List NodeInfo)
        → Begins n.edge n.prefix → AreUnder (λ _. Unit {0}) n.prefix nodes
        → visits_below above (n ∷ nodes)
        ≡ visit above n.form n.count ∷ visits_below (above + 1) nodes }
{}

/// The nodes under a byte and those under greater bytes have their levels apart from each other.
pub fn levels_side_by_side()
    ensures { (above : ℕ) (p : List ℕ) (b : ℕ) (xs ys : List NodeInfo)
        → AllBegin (p ++ b ∷ []) xs → AreUnder (λ c. b < c) p ys
        → visits_below above (xs ++ ys) ≡ visits_below above xs ++ visits_below above ys }
{}

/// Each entry of a node of a tree is a pair or leads to a node, and the root alone has none that leads to it: the
/// entries are the pairs plus the nodes minus 1.
pub fn entries_of_a_tree<P>()
    ensures { (s : NodeTable P) (levels slot : ℕ) (q : List ℕ) → IsTree s levels q slot
        → sum_by (λ n. n.count) (nodes_at s levels q slot) + 1
        ≡ length (pairs_at s levels slot) + length (nodes_at s levels q slot) }
{}
