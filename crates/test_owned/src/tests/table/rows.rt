//! Rows of calls, with what each has to return.

use congee_owned::{Allocator, DefaultAllocator};
use congee_table::calls::{TableCall, TableReply, make_table_call, run_table_calls};
use congee_table::table::{Row, Table, TableError};
use std::alloc::Global;

/// What a call has to return.
#[derive(Clone, Copy)]
pub(super) enum Wanted {
    Found(Option<Row>),
    Regrouped(u32),
    Listed(&'static [(u64, u64)]),
    Failed(TableError),
}

fn is_right(reply: &TableReply, wanted: &Wanted) -> bool {
    match wanted {
        Wanted::Found(wanted) => matches!(reply, TableReply::Found(row) if row == wanted),
        Wanted::Regrouped(wanted) => matches!(reply, TableReply::Regrouped(old) if old == wanted),
        Wanted::Listed(wanted) =>
            matches!(reply, TableReply::Listed(rows) if rows.as_slice() == *wanted),
        Wanted::Failed(wanted) => matches!(reply, TableReply::Failed(error) if error == wanted),
    }
}

/// Makes the calls, one after another, and counts those that return what they have to.
pub(super) fn right_replies<A: Allocator>(
    alloc: Global,
    table: &mut Table<A>,
    rows: &[(TableCall, Wanted)],
) -> u32 {
    let mut right = 0u32;
    for (call, wanted) in rows {
        if is_right(&make_table_call(alloc, table, call), wanted) {
            right = right.wrapping_add(1);
        }
    }
    right
}

const EXAMPLE: [TableCall; 7] = [
    TableCall::Put(row!(1, 5, 10)),
    TableCall::Put(row!(2, 5, 20)),
    TableCall::Put(row!(3, 6, 30)),
    TableCall::Group(5, 0, 8),
    TableCall::Put(row!(1, 6, 11)),
    TableCall::Group(6, 0, 8),
    TableCall::Regroup(9, 1),
];

const REPLIES: [Wanted; 7] = [
    Wanted::Found(None),
    Wanted::Found(None),
    Wanted::Found(None),
    Wanted::Listed(&[(1, 10), (2, 20)]),
    Wanted::Found(Some(row!(1, 5, 10))),
    Wanted::Listed(&[(1, 11), (3, 30)]),
    Wanted::Failed(TableError::Absent),
];

// Moves and deletions, by the rows that the calls before have left.
const MOVES: [(TableCall, Wanted); 7] = [
    (TableCall::Regroup(3, 6), Wanted::Regrouped(6)),
    (TableCall::Regroup(2, 6), Wanted::Regrouped(5)),
    (TableCall::Delete(3), Wanted::Found(Some(row!(3, 6, 30)))),
    (TableCall::Delete(3), Wanted::Found(None)),
    (TableCall::Get(2), Wanted::Found(Some(row!(2, 6, 20)))),
    (
        TableCall::Group(6, 0, 8),
        Wanted::Listed(&[(1, 11), (2, 20)]),
    ),
    (TableCall::Group(5, 0, 8), Wanted::Listed(&[])),
];

// The greatest id, which no scan of the last group includes.
const MAX: u32 = 4294967295;

const LAST_GROUP: [(TableCall, Wanted); 7] = [
    (TableCall::Put(row!(MAX, MAX, 7)), Wanted::Found(None)),
    (TableCall::Put(row!(4, MAX, 8)), Wanted::Found(None)),
    (TableCall::Put(row!(5, 0, 9)), Wanted::Found(None)),
    (
        TableCall::Group(MAX, MAX, 8),
        Wanted::Listed(&[(4294967295, 7)]),
    ),
    (
        TableCall::Group(MAX, 0, 8),
        Wanted::Listed(&[(4, 8), (4294967295, 7)]),
    ),
    (TableCall::Group(MAX, 0, 1), Wanted::Listed(&[(4, 8)])),
    (TableCall::Group(MAX, 5, 0), Wanted::Listed(&[])),
];

fn right_of(replies: &[TableReply], wanted: &[Wanted]) -> u32 {
    let mut right = 0u32;
    for i in 0..wanted.len() {
        if i < replies.len() && is_right(&replies[i], &wanted[i]) {
            right = right.wrapping_add(1);
        }
    }
    right
}

// Makes the calls of the example as one run, and counts those that return what they have to.
fn right_in_run(alloc: Global, table: &mut Table<DefaultAllocator>) -> u32 {
    match run_table_calls(alloc, table, &EXAMPLE) {
        Ok(replies) => right_of(&replies, &REPLIES),
        Err(_) => 0,
    }
}

fn right(alloc: Global) -> (u32, u32, u32) {
    match Table::new(alloc, DefaultAllocator {}, DefaultAllocator {}) {
        Ok(mut table) => (
            right_in_run(alloc, &mut table),
            right_replies(alloc, &mut table, &MOVES),
            right_replies(alloc, &mut table, &LAST_GROUP),
        ),
        Err(_) => (0, 0, 0),
    }
}

#[test]
fn calls_answer_right(rt: HostRuntime) {
    assert!(rt; right(rt.alloc()) == (7, 7, 7));
}

fn errors_print_their_reason(alloc: Global) -> bool {
    match format!(in alloc; "{}, {}", TableError::Oom, TableError::Absent) {
        Ok(text) => text.as_str() == "out of memory, no row has this id",
        Err(_) => false,
    }
}

#[test]
fn errors_print(rt: HostRuntime) {
    assert!(rt; errors_print_their_reason(rt.alloc()));
}
