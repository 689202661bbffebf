//! A budget for each index: what is charged, and what is refused.

use super::rows::{Wanted, right_replies};
use congee_owned::Budget;
use congee_table::calls::TableCall;
use congee_table::table::{Row, Table, TableError};
use std::alloc::Global;

const ROWS: [(TableCall, Wanted); 4] = [
    (TableCall::Put(row!(1, 5, 10)), Wanted::Found(None)),
    (
        TableCall::Put(row!(256, 5, 1)),
        Wanted::Failed(TableError::Oom),
    ),
    (TableCall::Get(256), Wanted::Found(None)),
    (TableCall::Group(5, 0, 8), Wanted::Listed(&[(1, 10)])),
];

/// How many calls returned the right reply, and what is charged.
type Outcome = (u32, (u128, u128));

fn outcome(alloc: Global, first: u64, second: u64) -> Option<Outcome> {
    match Table::new(alloc, Budget::new(first), Budget::new(second)) {
        Ok(mut table) => Some((right_replies(alloc, &mut table, &ROWS), table.charged())),
        Err(_) => None,
    }
}

#[test]
fn first_index_refuses(rt: HostRuntime) {
    assert!(rt; outcome(rt.alloc(), 2168, 2296) == Some((4, (2168, 2232))));
}

fn is_new(alloc: Global, first: u64, second: u64) -> bool {
    outcome(alloc, first, second).is_some()
}

#[test]
fn new_takes_the_roots(rt: HostRuntime) {
    assert!(rt; !is_new(rt.alloc(), 2103, 2104));
    assert!(rt; !is_new(rt.alloc(), 2104, 2103));
    assert!(rt; is_new(rt.alloc(), 2104, 2104));
}
