//! Each request for memory refused in turn.

ghost use Rattle.std.specs.Prelude.{None};

use super::rows::{Wanted, right_replies};
use congee_owned::{Allocator, NodeSize, OOMError};
use congee_table::calls::TableCall;
use congee_table::table::{Row, Table, TableError};
use std::alloc::Global;

// Grants as many requests as are left, and refuses those after them.
#[derive(Drop)]
struct Granting {
    left: u64,
}

impl Allocator for Granting {
    ghost charge = { λ _. None };

    fn allocate(&mut self, _size: NodeSize) -> Result<(), OOMError> {
        if self.left == 0 {
            return Err(OOMError::new());
        }
        self.left -= 1;
        Ok(())
    }

    fn deallocate(&mut self, _size: NodeSize) {}
}

const CALLS: [(TableCall, Wanted); 15] = [
    // a leaf in each index; none; a split in each
    (TableCall::Put(row!(0, 0, 10)), Wanted::Found(None)),
    (TableCall::Put(row!(1, 0, 11)), Wanted::Found(None)),
    (TableCall::Put(row!(256, 0, 12)), Wanted::Found(None)),
    // a split in the second index alone; a leaf there; none
    (TableCall::Put(row!(2, 1, 13)), Wanted::Found(None)),
    (
        TableCall::Put(row!(1, 2, 14)),
        Wanted::Found(Some(row!(1, 0, 11))),
    ),
    (
        TableCall::Put(row!(1, 2, 15)),
        Wanted::Found(Some(row!(1, 2, 14))),
    ),
    // a leaf there; none
    (TableCall::Regroup(0, 3), Wanted::Regrouped(0)),
    (
        TableCall::Regroup(257, 3),
        Wanted::Failed(TableError::Absent),
    ),
    // a leaf there, and a larger node for a fifth group; none from here on
    (TableCall::Regroup(256, 4), Wanted::Regrouped(0)),
    (TableCall::Delete(2), Wanted::Found(Some(row!(2, 1, 13)))),
    (
        TableCall::Put(row!(1, 2, 16)),
        Wanted::Found(Some(row!(1, 2, 15))),
    ),
    (TableCall::Regroup(1, 2), Wanted::Regrouped(2)),
    (TableCall::Get(1), Wanted::Found(Some(row!(1, 2, 16)))),
    (TableCall::Group(2, 0, 8), Wanted::Listed(&[(1, 16)])),
    (TableCall::Delete(1), Wanted::Found(Some(row!(1, 2, 16)))),
];

const ALL: u64 = 1000;

// How many requests each index grants, the first for its root, and the place of the call that is refused then.
const REFUSED: [(u64, u64, usize); 14] = [
    (1, ALL, 0),
    (2, ALL, 2),
    (3, ALL, 2),
    (4, ALL, 15),
    (ALL, 1, 0),
    (ALL, 2, 2),
    (ALL, 3, 2),
    (ALL, 4, 3),
    (ALL, 5, 3),
    (ALL, 6, 4),
    (ALL, 7, 6),
    (ALL, 8, 8),
    (ALL, 9, 8),
    (ALL, 10, 15),
];

const IDS: [u32; 5] = [0, 1, 2, 256, 257];

/// The rows of the ids, and how many there are of each group, with the first of them.
type Content = ([Option<Row>; 5], [(usize, [(u64, u64); 8]); 5]);

fn seen(table: &Table<Granting>) -> Content {
    let mut rows = [None; 5];
    let mut groups = [(0, [(9, 9); 8]); 5];
    for i in 0..5usize {
        rows[i] = table.get(IDS[i]);
        let mut listed = [(9, 9); 8];
        let count = table.group(i as u32, 0, &mut listed);
        groups[i] = (count, listed);
    }
    (rows, groups)
}

// Whether the rows go one by one, and none is left: what needs no node isn't refused.
fn deletes(table: &mut Table<Granting>, rows: &[Option<Row>; 5]) -> bool {
    for i in 0..5usize {
        if table.delete(IDS[i]) != rows[i] {
            return false;
        }
    }
    let (left, _) = seen(table);
    left == [None; 5]
}

// Whether the calls before this place return what they should, and the one there is refused and changes no row.
fn are_right(alloc: Global, table: &mut Table<Granting>, place: usize) -> bool {
    let place = place.min(CALLS.len());
    if right_replies(alloc, table, &CALLS[..place]) as usize != place {
        return false;
    }
    let before = seen(table);
    if place < CALLS.len() {
        let refused = [(CALLS[place].0, Wanted::Failed(TableError::Oom))];
        if right_replies(alloc, table, &refused) != 1 || seen(table) != before {
            return false;
        }
    }
    deletes(table, &before.0)
}

fn is_refused(alloc: Global, first: u64, second: u64, place: usize) -> bool {
    match Table::new(alloc, Granting { left: first }, Granting { left: second }) {
        Ok(mut table) => are_right(alloc, &mut table, place),
        Err(_) => false,
    }
}

// How many requests are refused at the call that needs them.
fn right_refusals(alloc: Global) -> u32 {
    let mut right = 0u32;
    for (first, second, place) in &REFUSED {
        if is_refused(alloc, *first, *second, *place) {
            right = right.wrapping_add(1);
        }
    }
    right
}

#[test]
fn each_request_refused(rt: HostRuntime) {
    assert!(rt; right_refusals(rt.alloc()) == 14);
}
