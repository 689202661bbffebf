//! The counts of one level, and the list of the levels.
//!
//! Tested in `congee_nodes/stats`.

ghost use Rattle.std.specs.Prelude.{◌≡◌, ◌+◌, ◌-◌, ◌<◌, ◌++◌, length, replicate, OnOk, OnErr, slice_set};
ghost use Rattle.node_base.specs.Form.{form_place};
ghost use Rattle.node_stats.specs.LevelCounts.{node_count, entry_count, empty_level};
ghost use Rattle.node_stats.specs.inner.OneMore.{with_one_node};
ghost use Rattle.node_stats.specs.Stats.{counts_at};

use node_base::base_node::NodeType;
use serde::{Described, Serialize, Serializer};
use spec_map::error::OOMError;
use std::fmt;
use std::marker::Model;

// The index of a form's counts.
fn place(form: NodeType) -> usize
    ensures { result ≡ form_place form }
{
    match form {
        NodeType::N4 => 0,
        NodeType::N16 => 1,
        NodeType::N48 => 2,
        NodeType::N256 => 3,
    }
}

/// How many nodes of each form a level has, and how many entries are in them: 64 bytes.
///
/// The forms are in the order of their sizes. An entry is a payload or a node below.
#[derive(Clone, Copy, Debug, Serialize)]
pub struct LevelStats {
    pub nodes: [u64; 4],
    pub entries: [u64; 4],
}

impl LevelStats {
    // A level without nodes.
    fn empty() -> Self
        ensures { result ≡ empty_level }
    {
        LevelStats {
            nodes: [0; 4],
            entries: [0; 4],
        }
    }

    // Counts one node of the form, with its entries.
    fn add(&mut self, form: NodeType, entries: u64)
        ensures { self.new ≡ with_one_node form entries self.old }
    {
        let place = place(form);
        self.nodes[place] = self.nodes[place].saturating_add(1);
        self.entries[place] = self.entries[place].saturating_add(entries);
    }

    // How many nodes of the form there are.
    pub(crate) fn node_count(&self, form: NodeType) -> u64
        ensures { result ≡ node_count form self.now }
    {
        self.nodes[place(form)]
    }

    // How many entries are in the nodes of the form.
    pub(crate) fn entry_count(&self, form: NodeType) -> u64
        ensures { result ≡ entry_count form self.now }
    {
        self.entries[place(form)]
    }
}

/// A list of levels, which contracts see as a list. It is made from a `Vec` and returns it without taking memory.
#[derive(Drop)]
pub struct Levels {
    items: Vec<LevelStats>,
}

impl Model for Levels {
    ghost use Rattle.std.specs.Prelude.{List};
    ghost use Rattle.node_stats.specs.declared.levels.LevelStats.{LevelStats};

    ghost Value = { List LevelStats };

    ghost view = { λ a. a.items.items };
}

impl Levels {
    /// These levels.
    pub fn from_vec(levels: Vec<LevelStats>) -> Self
        ensures { result ≡ levels.items }
    {
        Levels { items: levels }
    }

    /// The levels as a `Vec`.
    pub fn into_vec(self) -> Vec<LevelStats>
        ensures { result.items ≡ self }
    {
        let Levels { items } = self;
        items
    }

    /// The levels, the root's first.
    pub fn as_slice(&self) -> &[LevelStats]
        ensures { result.now ≡ self.now }
    {
        self.items.as_slice()
    }

    // Adds levels without nodes until this one is there.
    pub(crate) fn reach(&mut self, level: usize) -> Result<(), OOMError>
        ensures ok { OnOk result
            (self.new ≡ self.old ++ replicate (level + 1 - length self.old) empty_level) }
        ensures err { OnErr result (self.new ≡ self.old) }
    {
        if level < self.items.len() {
            return Ok(());
        }
        let Some(wanted) = level.checked_add(1) else {
            return Err(OOMError::new());
        };
        self.items.resize(wanted, LevelStats::empty())?;
        Ok(())
    }

    // Counts one node on a level of the list.
    pub(crate) fn add_at(&mut self, level: usize, form: NodeType, entries: u64)
        requires { level < length self.old }
        ensures { self.new
            ≡ slice_set self.old level (with_one_node form entries (counts_at level self.old)) }
    {
        self.items[level].add(form, entries);
    }
}

impl fmt::Debug for Levels {
    fn fmt<W: fmt::Write>(&self, f: &mut fmt::Formatter<W>) -> fmt::Result {
        self.items.fmt(f)
    }
}

impl Described for Levels {}

impl Serialize for Levels {
    fn serialize<S: Serializer>(&self, out: &mut S) -> Result<(), S::Error> {
        self.items.serialize(out)
    }
}
