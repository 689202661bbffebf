//! Calls of a table as data, and whole runs of them.
//!
//! Tested in `test_owned/table`.

ghost use Rattle.std.specs.Prelude.{◌≡◌, ◌∷◌, [], take, IfOk, OnErr};
ghost use Rattle.congee_table.specs.Rows.{group_rows};
ghost use Rattle.congee_table.specs.Calls.{IsRun};

use crate::table::{Row, Table, TableError};
use node_table::allocator::Allocator;
use spec_map::error::OOMError;
use std::alloc::Global;

/// A call of a table.
#[derive(Clone, Copy)]
pub enum TableCall {
    /// Sets the row of its id.
    Put(Row),
    /// The row of an id.
    Get(u32),
    /// Removes the row of an id.
    Delete(u32),
    /// Moves the row of the first number to the group of the second.
    Regroup(u32, u32),
    /// The first rows of a group with ids from the second number on, at most so many.
    Group(u32, u32, usize),
}

/// What a call returns.
#[derive(Drop)]
pub enum TableReply {
    /// The row that had the id.
    Found(Option<Row>),
    /// The group that the row was in.
    Regrouped(u32),
    /// The rows of a group, by id and value.
    Listed(Vec<(u64, u64)>),
    /// Why the call failed. Nothing was changed.
    Failed(TableError),
}

/// Makes one call. The rows of a group are written into a list of their own; without memory for that the call isn't
/// made.
pub fn make_table_call<A: Allocator>(
    alloc: Global,
    table: &mut Table<A>,
    call: &TableCall,
) -> TableReply
    ensures { IsRun table.old.rows (call.now ∷ []) (result ∷ []) table.new.rows }
{
    match call {
        TableCall::Put(row) => match table.put(*row) {
            Ok(before) => TableReply::Found(before),
            Err(error) => TableReply::Failed(error),
        },
        TableCall::Get(id) => TableReply::Found(table.get(*id)),
        TableCall::Delete(id) => TableReply::Found(table.delete(*id)),
        TableCall::Regroup(id, group) => match table.regroup(*id, *group) {
            Ok(old) => TableReply::Regrouped(old),
            Err(error) => TableReply::Failed(error),
        },
        TableCall::Group(group, from, limit) => match listed(alloc, table, *group, *from, *limit) {
            Ok(rows) => TableReply::Listed(rows),
            Err(_) => TableReply::Failed(TableError::Oom),
        },
    }
}

// The first rows of a group, at most so many, in a list of their own.
fn listed<A: Allocator>(
    alloc: Global,
    table: &Table<A>,
    group: u32,
    from: u32,
    limit: usize,
) -> Result<Vec<(u64, u64)>, OOMError>
    ensures { IfOk result (λ rows.
        rows.items ≡ take limit (group_rows table.now.rows group from)) }
{
    let mut rows = vec![in alloc; (0, 0); limit]?;
    let count = table.group(group, from, &mut rows);
    rows.truncate(count);
    Ok(rows)
}

/// Makes the calls, one after another, and returns their replies. `OOMError` comes where there is no memory for the
/// list of replies; then the rows are unchanged.
pub fn run_table_calls<A: Allocator>(
    alloc: Global,
    table: &mut Table<A>,
    calls: &[TableCall],
) -> Result<Vec<TableReply>, OOMError>
    ensures run { IfOk result (λ replies.
        IsRun table.old.rows calls.now replies.items table.new.rows) }
    ensures err { OnErr result (table.new.rows ≡ table.old.rows) }
{
    let mut replies = Vec::with_capacity(alloc, calls.len())?;
    for call in calls {
        replies.push(make_table_call(alloc, table, call)).unwrap();
    }
    Ok(replies)
}
