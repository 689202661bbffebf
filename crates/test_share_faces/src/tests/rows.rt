//! Calls of one key with their answers, for each of the three maps.

use congee::NodeStats;
use congee::shared::{Gate, Report};

/// A call of one key. A gated one has a gate, a counted one a share.
#[derive(Clone, Copy)]
pub(crate) enum Call {
    Get(u64),
    GetGated(u64),
    Insert(u64, u64),
    InsertGated(u64, u64),
    InsertCounted(u64, u64),
    Remove(u64),
    RemoveGated(u64),
    RemoveCounted(u64),
}

/// The calls on a new map, the values that they return, and how often each calls its gate over the machine: once for
/// each event but the last. They leave the value 7 at the key 256, and 12 at 1.
pub(crate) const ROWS: [(Call, Option<u64>, u64); 20] = [
    (Call::Get(1), None, 0),
    (Call::Insert(1, 10), None, 0),
    (Call::Insert(1, 42), Some(10), 0),
    (Call::GetGated(1), Some(42), 8),
    (Call::InsertCounted(2, 20), None, 0),
    (Call::InsertCounted(2, 21), Some(20), 0),
    (Call::InsertGated(1, 12), Some(42), 11),
    (Call::InsertGated(3, 30), None, 11),
    (Call::InsertGated(256, 7), None, 13),
    (Call::Get(2), Some(21), 0),
    (Call::GetGated(3), Some(30), 12),
    (Call::GetGated(4), None, 12),
    (Call::Remove(4), None, 0),
    (Call::RemoveGated(4), None, 12),
    (Call::RemoveGated(3), Some(30), 15),
    (Call::RemoveCounted(3), None, 0),
    (Call::RemoveCounted(2), Some(21), 0),
    (Call::Get(2), None, 0),
    (Call::Get(1), Some(12), 0),
    (Call::Get(256), Some(7), 0),
];

/// The calls on a new map under a budget of 2168 bytes, in which the root has room and one leaf of four, and the values that
/// they return: nothing where a call is refused. They leave two pairs.
pub(crate) const LIMITED: [(Call, Option<Option<u64>>); 12] = [
    (Call::InsertCounted(0, 100), Some(None)),
    (Call::Insert(u64::MAX, 100), None),
    (Call::InsertGated(u64::MAX, 100), None),
    (Call::InsertCounted(u64::MAX, 100), None),
    (Call::Get(u64::MAX), Some(None)),
    (Call::Get(0), Some(Some(100))),
    (Call::InsertCounted(1, 11), Some(None)),
    (Call::Insert(256, 2), None),
    (Call::Get(256), Some(None)),
    (Call::Get(1), Some(Some(11))),
    (Call::Insert(0, 7), Some(Some(100))),
    (Call::Get(0), Some(Some(7))),
];

/// Counts how often it is called between events.
#[derive(Drop)]
pub(crate) struct Count {
    pub(crate) calls: u64,
}

impl Gate for Count {
    fn between(&mut self, _report: &Report) {
        self.calls = self.calls.wrapping_add(1);
    }
}

/// Whether the statistics are those of the keys 1 and 256: the root leads to a node of seven bytes less, which leads to
/// their leaves.
pub(crate) fn are_of_two(stats: &NodeStats) -> bool {
    let levels = stats.levels.as_slice();
    if levels.len() != 3 || stats.kv_pairs != 2 {
        return false;
    }
    let (root, above, leaves) = (levels[0], levels[1], levels[2]);
    root.nodes == [0, 0, 0, 1]
        && root.entries == [0, 0, 0, 1]
        && above.nodes == [1, 0, 0, 0]
        && above.entries == [2, 0, 0, 0]
        && leaves.nodes == [2, 0, 0, 0]
        && leaves.entries == [2, 0, 0, 0]
}
