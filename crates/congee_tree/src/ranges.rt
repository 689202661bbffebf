//! The pairs of a range, ascending or descending.
//!
//! Tested in `test_owned` and `tools/dev/try-commands`.

ghost use Rattle.std.specs.Prelude.{◌≡◌, ◌+◌, ◌++◌, length, map, min, take, drop, reverse};
ghost use Rattle.std.specs.Int.{from_be_bytes, w64};
ghost use Rattle.spec_map.specs.Map.{between};

use crate::tree::RawCongee;
use node_table::allocator::Allocator;
use tree_walk::range_down::scan_down;
use tree_walk::range_scan::{RangeEntry, scan};

impl<A: Allocator> RawCongee<u64, A> {
    /// Writes the first pairs with `start <= key < end`, keys ascending, and returns their number: all of them, or as
    /// many as the buffer has places for. The places after them are unchanged. Takes no memory.
    pub fn range<E: RangeEntry>(&self, start: &[u8; 8], end: &[u8; 8], buffer: &mut [E]) -> usize
        ensures count { let first = from_be_bytes w64 start.now in
            let past = from_be_bytes w64 end.now in
            result ≡ min (length buffer.old) (length (between self.now.pairs first past)) }
        ensures written { let first = from_be_bytes w64 start.now in
            let past = from_be_bytes w64 end.now in
            let entries = map (λ pair. E.entry pair.0 pair.1) (between self.now.pairs first past) in
            buffer.new ≡ take result entries ++ drop result buffer.old }
    {
        let first = u64::from_be_bytes(*start);
        let past = u64::from_be_bytes(*end);
        if past == 0 {
            return 0;
        }
        self.range_inclusive(first, past - 1, buffer)
    }

    /// Writes the first pairs with `start <= key <= last`, which can include the greatest key, keys ascending, and
    /// returns their number: all of them, or as many as the buffer has places for. The places after them are unchanged.
    /// Takes no memory.
    pub fn range_inclusive<E: RangeEntry>(&self, start: u64, last: u64, buffer: &mut [E]) -> usize
        ensures count { result
            ≡ min (length buffer.old) (length (between self.now.pairs start (last + 1))) }
        ensures written { let pairs = between self.now.pairs start (last + 1) in
            let entries = map (λ pair. E.entry pair.0 pair.1) pairs in
            buffer.new ≡ take result entries ++ drop result buffer.old }
    {
        let (nodes, root) = self.tree.table();
        scan(nodes, root, start, last, buffer, 0)
    }

    /// Writes the last pairs with `start <= key <= last`, keys descending, and returns their number: all of them, or as
    /// many as the buffer has places for. The places after them are unchanged. Takes no memory.
    pub fn range_descending<E: RangeEntry>(&self, start: u64, last: u64, buffer: &mut [E]) -> usize
        ensures count { result
            ≡ min (length buffer.old) (length (between self.now.pairs start (last + 1))) }
        ensures written { let pairs = reverse (between self.now.pairs start (last + 1)) in
            let entries = map (λ pair. E.entry pair.0 pair.1) pairs in
            buffer.new ≡ take result entries ++ drop result buffer.old }
    {
        let (nodes, root) = self.tree.table();
        scan_down(nodes, root, start, last, buffer, 0)
    }
}
