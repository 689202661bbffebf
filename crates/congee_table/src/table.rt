//! The table: its rows, its calls and their errors.
//!
//! Tested in `test_owned/table`.

ghost use Rattle.std.specs.Prelude.{◌≡◌, ◌≢◌, ◌↔◌, [], ◌++◌, ◌/◌, ◌%◌, ◌^◌, Some, None, IfOk, OnOk, OnErr, IsErrOf, IsOkUnless, codes, length, min, take, drop};
ghost use Rattle.spec_map.specs.Map.{lookup, put, without};
ghost use Rattle.congee_table.specs.Index.{joined_halves, rows_of, AreIndexes};
ghost use Rattle.congee_table.specs.Rows.{row_at, IsInGroup, regrouped, group_rows};
ghost use Rattle.congee_table.specs.declared.table.TableError.TheVariants.{Oom};

use crate::numbers::{high, joined_halves, keep_low, low};
use face_typed::typed_congee::Congee;
use node_table::allocator::Allocator;
use spec_map::error::OOMError;
use std::alloc::Global;
use std::error::Error;
use std::fmt;
use std::marker::Model;

/// The row of an id.
#[derive(Clone, Copy, Debug, PartialEq, Eq)]
pub struct Row {
    pub id: u32,
    pub group: u32,
    pub value: u32,
}

/// Why a call failed. The rows are unchanged.
#[derive(Clone, Copy, Debug, PartialEq, Eq)]
pub enum TableError {
    /// An allocator refused, or memory was missing.
    Oom,
    /// No row has the id.
    Absent,
}

impl fmt::Display for TableError {
    fn fmt<W: fmt::Write>(&self, f: &mut fmt::Formatter<W>) -> fmt::Result {
        f.write_str(match self {
            TableError::Oom => "out of memory",
            TableError::Absent => "no row has this id",
        })
    }
}

impl Error for TableError {}

impl From<OOMError> for TableError {
    ghost from_gives = { λ _ e. e ≡ Oom };

    fn from(_error: OOMError) -> Self {
        TableError::Oom
    }
}

/// An ordered table of rows, each with an id of its own, and a second index by group.
///
/// The first index maps an id to its group and value, the second a group and an id to the value. Each is a map of its
/// own, with its own allocator. Contracts see the rows.
#[derive(Drop)]
pub struct Table<A: Allocator> {
    first: Congee<u64, u64, A>,
    second: Congee<u64, u64, A>,
}

impl<A: Allocator> Model for Table<A> {
    ghost use Rattle.tree_path.specs.Charge.{charge_of};
    ghost use Rattle.congee_table.specs.Rows.{RowsView};
    ghost use Rattle.congee_table.specs.Index.{rows_of, AreIndexes};

    ghost Value = { RowsView };

    ghost view = { λ t. record {
      rows = rows_of t.first.pairs;
      charged = (charge_of t.first.nodes, charge_of t.second.nodes);
    } };

    ghost invariant = { λ t. AreIndexes t.first.pairs t.second.pairs };
}

impl<A: Allocator> Table<A> {
    /// An empty table over these allocators, of which the second is for the index by group. `Oom` comes where one of
    /// them or the machine has no memory for it.
    pub fn new(alloc: Global, first: A, second: A) -> Result<Self, TableError>
        ensures rows { IfOk result (λ table. table.rows ≡ []) }
        ensures error { IsOkUnless result TableError.Oom }
    {
        Ok(Table {
            first: Congee::new(alloc, first)?,
            second: Congee::new(alloc, second)?,
        })
    }

    /// Sets the row of its id, and returns the one that it replaces. `Oom` comes only for a row that is new in its
    /// group, and leaves the rows unchanged.
    pub fn put(&mut self, row: Row) -> Result<Option<Row>, TableError>
        ensures before { IfOk result (λ before. before ≡ row_at self.old.rows row.id) }
        ensures ok { OnOk result (self.new.rows ≡ put self.old.rows row.id (row.group, row.value)) }
        ensures err { OnErr result (self.new.rows ≡ self.old.rows) }
        ensures error { IsOkUnless result TableError.Oom }
        ensures refused { OnErr result (¬ IsInGroup self.old.rows row.id row.group) }
    {
        let Some(number) = enter(&mut self.first, &mut self.second, row)? else {
            return Ok(None);
        };
        let old = row_of(row.id, number);
        leave(&mut self.second, old, row.group);
        Ok(Some(old))
    }

    /// The row of the id. Takes no memory.
    pub fn get(&self, id: u32) -> Option<Row>
        ensures { result ≡ row_at self.now.rows id }
    {
        let number = self.first.get(&u64::from(id))?;
        Some(row_of(id, number))
    }

    /// Removes the row of the id, and returns it. Never fails.
    pub fn delete(&mut self, id: u32) -> Option<Row>
        ensures before { result ≡ row_at self.old.rows id }
        ensures rows { self.new.rows ≡ without self.old.rows id }
    {
        let number = self.first.remove(&u64::from(id))?;
        let row = row_of(id, number);
        self.second.remove(&joined_halves(row.group, row.id));
        Some(row)
    }

    /// Moves the row of the id to this group, and returns the group that it was in. `Absent` comes where no row has the
    /// id, `Oom` only where its row is in another group. Both leave the rows unchanged.
    pub fn regroup(&mut self, id: u32, group: u32) -> Result<u32, TableError>
        ensures old { IfOk result (λ old. IsInGroup self.old.rows id old) }
        ensures ok { OnOk result (self.new.rows ≡ regrouped self.old.rows id group) }
        ensures err { OnErr result (self.new.rows ≡ self.old.rows) }
        ensures absent { IsErrOf result TableError.Absent ↔ (lookup self.old.rows id ≡ None) }
        ensures refused { OnErr result (¬ IsInGroup self.old.rows id group) }
    {
        let Some(row) = self.get(id) else {
            return Err(TableError::Absent);
        };
        self.put(Row {
            id,
            group,
            value: row.value,
        })?;
        Ok(row.group)
    }

    /// Writes the first rows of the group with ids from this one on to the buffer, by id and value, ids ascending, as
    /// many as there are or as fit, and returns how many. The rest of the buffer is unchanged. Takes no memory: it is
    /// one scan of the second index.
    pub fn group(&self, group: u32, from: u32, buffer: &mut [(u64, u64)]) -> usize
        ensures count { result
            ≡ min (length buffer.old) (length (group_rows self.now.rows group from)) }
        ensures written { buffer.new
            ≡ take result (group_rows self.now.rows group from) ++ drop result buffer.old }
    {
        let start = joined_halves(group, from);
        let last = joined_halves(group, u32::MAX);
        let count = self.second.range_inclusive(&start, &last, buffer);
        keep_low(&mut buffer[..count]);
        count
    }

    /// What the allocators of the first and of the second index are charged. Takes no memory.
    pub fn charged(&self) -> (u128, u128)
        ensures { result ≡ self.now.charged }
    {
        (self.first.charged(), self.second.charged())
    }
}

// The row of an id and of the number that the first index has for it.
fn row_of(id: u32, number: u64) -> Row
    ensures { result ≡ record { id = id; group = number / 2 ^ 32; value = number % 2 ^ 32 } }
{
    Row {
        id,
        group: high(number),
        value: low(number),
    }
}

// Enters the row in the second index, then in the first, and returns the number that the first index had for its id.
// Where the first refuses, the entry in the second is removed again.
fn enter<A: Allocator>(
    first: &mut Congee<u64, u64, A>,
    second: &mut Congee<u64, u64, A>,
    row: Row,
) -> Result<Option<u64>, OOMError>
    requires agree { AreIndexes first.old.pairs second.old.pairs }
    ensures before { IfOk result (λ before. before ≡ lookup first.old.pairs row.id) }
    ensures ok { OnOk result (first.new.pairs
        ≡ put first.old.pairs row.id (joined_halves row.group row.value)) }
    ensures entered { OnOk result (second.new.pairs
        ≡ put second.old.pairs (joined_halves row.group row.id) row.value) }
    ensures err { OnErr result (first.new.pairs ≡ first.old.pairs) }
    ensures left { OnErr result (second.new.pairs ≡ second.old.pairs) }
    ensures refused { OnErr result (¬ IsInGroup (rows_of first.old.pairs) row.id row.group) }
{
    second.insert(joined_halves(row.group, row.id), u64::from(row.value))?;
    match first.insert(u64::from(row.id), joined_halves(row.group, row.value)) {
        Ok(before) => Ok(before),
        Err(error) => {
            second.remove(&joined_halves(row.group, row.id));
            Err(error)
        }
    }
}

// Removes the entry of the old row from the second index, unless it is in this group, where the new one replaces it.
fn leave<A: Allocator>(second: &mut Congee<u64, u64, A>, old: Row, group: u32)
    ensures same { old.group ≡ group → second.new.pairs ≡ second.old.pairs }
    ensures other { old.group ≢ group
        → second.new.pairs ≡ without second.old.pairs (joined_halves old.group old.id) }
{
    if old.group != group {
        second.remove(&joined_halves(old.group, old.id));
    }
}
