//! The text of the statistics: a type for each part of it.
//!
//! Tested in `congee_nodes/stats`.

ghost use Rattle.std.specs.Prelude.{◌≡◌, ◌≤◌, ◌<◌, ◌^◌, ◌*◌, length, Some};
ghost use Rattle.node_base.specs.Form.{stated_size};
ghost use Rattle.node_stats.specs.StatsText.{form_name, form_capacity, form_text, level_line, stats_text, node_sum, entry_sum, all_nodes, all_entries, all_bytes, load, full_load, four_lines, too_low, shown_levels};

use crate::NodeStats;
use crate::fraction::{AlignedDecimals, Decimals, hundredths};
use crate::levels::LevelStats;
use node_base::base_node::{NodeSize, NodeType};
use std::fmt;

const MEGABYTE: u128 = 1048576;

fn name(form: NodeType) -> &'static str
    ensures { result.now ≡ form_name form }
{
    match form {
        NodeType::N4 => "N4",
        NodeType::N16 => "N16",
        NodeType::N48 => "N48",
        NodeType::N256 => "N256",
    }
}

// How many children a node of the form has room for.
fn capacity(form: NodeType) -> u128
    ensures { result ≡ form_capacity form }
{
    match form {
        NodeType::N4 => 4,
        NodeType::N16 => 16,
        NodeType::N48 => 48,
        NodeType::N256 => 256,
    }
}

/// A form's part of a level's line.
#[derive(Drop)]
struct FormText<'a> {
    level: &'a LevelStats,
    form: NodeType,
}

impl fmt::Display for FormText<'_> {
    ghost output = { λ x. Some (form_text x.form x.level.now) };

    fn fmt<W: fmt::Write>(&self, f: &mut fmt::Formatter<W>) -> fmt::Result {
        let name = name(self.form);
        let nodes = self.level.node_count(self.form);
        let capacity = capacity(self.form) * nodes as u128;
        let factor = AlignedDecimals {
            hundredths: hundredths(self.level.entry_count(self.form) as u128, capacity),
        };
        write!(f, "{name}: {nodes:8}, {factor}")
    }
}

/// A level's line.
#[derive(Drop)]
struct LevelLine<'a> {
    number: usize,
    level: &'a LevelStats,
}

impl fmt::Display for LevelLine<'_> {
    ghost output = { λ x. Some (level_line x.number x.level.now) };

    #[tactic(auto, unfolding(crate::specs::StatsText::level_line))]
    fn fmt<W: fmt::Write>(&self, f: &mut fmt::Formatter<W>) -> fmt::Result {
        let level = self.level;
        let number = self.number;
        let n4 = FormText {
            level,
            form: NodeType::N4,
        };
        let n16 = FormText {
            level,
            form: NodeType::N16,
        };
        let n48 = FormText {
            level,
            form: NodeType::N48,
        };
        let n256 = FormText {
            level,
            form: NodeType::N256,
        };
        write!(
            f,
            "Level: {number} --- || {n4} || {n16} || {n48} || {n256} ||\n"
        )
    }
}

// How many nodes of a form are on these levels.
fn node_sum(levels: &[LevelStats], form: NodeType) -> u128
    requires few { length levels.now ≤ 8 }
    ensures value { result ≡ node_sum form levels.now }
    ensures bound { result < 2 ^ 67 }
{
    let mut total: u128 = 0;
    for level in levels {
        total += level.node_count(form) as u128;
    }
    total
}

// How many entries are in those nodes.
fn entry_sum(levels: &[LevelStats], form: NodeType) -> u128
    requires few { length levels.now ≤ 8 }
    ensures value { result ≡ entry_sum form levels.now }
    ensures bound { result < 2 ^ 67 }
{
    let mut total: u128 = 0;
    for level in levels {
        total += level.entry_count(form) as u128;
    }
    total
}

/// What the last four lines show. Eight levels have too few nodes and entries for a sum or a product to overflow.
#[derive(Drop)]
struct Totals {
    nodes: u128,
    entries: u128,
    load: u128,
    full_load: u128,
    bytes: u128,
    pairs: u64,
    ghost load_small: { load < 2 ^ 100 },
    ghost full_load_small: { full_load < 2 ^ 100 },
}

impl Totals {
    // The sums over these levels.
    fn of(levels: &[LevelStats], pairs: u64) -> Self
        requires few { length levels.now ≤ 8 }
        ensures nodes { result.nodes ≡ all_nodes levels.now }
        ensures entries { result.entries ≡ all_entries levels.now }
        ensures load { result.load ≡ load levels.now }
        ensures full_load { result.full_load ≡ full_load levels.now }
        ensures bytes { result.bytes ≡ all_bytes levels.now }
        ensures pairs { result.pairs ≡ pairs }
    {
        let n4 = node_sum(levels, NodeType::N4);
        let n16 = node_sum(levels, NodeType::N16);
        let n48 = node_sum(levels, NodeType::N48);
        let n256 = node_sum(levels, NodeType::N256);
        let e4 = entry_sum(levels, NodeType::N4);
        let e16 = entry_sum(levels, NodeType::N16);
        let e48 = entry_sum(levels, NodeType::N48);
        let e256 = entry_sum(levels, NodeType::N256);
        let nodes = n4 + n16 + n48 + n256;
        Totals {
            nodes,
            entries: e4 + e16 + e48 + e256,
            load: 192 * e4 + 48 * e16 + 16 * e48 + 3 * e256,
            full_load: 768 * nodes,
            bytes: size(NodeType::N4) * n4
                + size(NodeType::N16) * n16
                + size(NodeType::N48) * n48
                + size(NodeType::N256) * n256,
            pairs,
        }
    }
}

fn size(form: NodeType) -> u128
    ensures { result ≡ stated_size form }
{
    NodeSize::of(form).bytes() as u128
}

// What follows a load factor below one half.
fn remark(load: u128, full_load: u128) -> &'static str
    requires { load < 2 ^ 100 }
    ensures { result.now ≡ too_low load full_load }
{
    if 2 * load < full_load {
        " (too low)"
    } else {
        ""
    }
}

impl fmt::Display for Totals {
    ghost output = { λ x. Some (four_lines x.nodes x.entries x.load x.full_load x.bytes x.pairs) };

    fn fmt<W: fmt::Write>(&self, f: &mut fmt::Formatter<W>) -> fmt::Result {
        let nodes = self.nodes;
        let entries = self.entries;
        let factor = Decimals {
            hundredths: hundredths(self.load, self.full_load),
        };
        let remark = remark(self.load, self.full_load);
        let megabytes = self.bytes / MEGABYTE;
        let pairs = self.pairs;
        write!(f, "Overall node count: {nodes}, entry count: {entries}\n")?;
        write!(f, "Load factor: {factor}{remark}\n")?;
        write!(f, "Active memory usage: {megabytes} Mb\n")?;
        write!(f, "KV count: {pairs}\n")
    }
}

// The levels that the text shows: eight at most.
fn shown_levels(levels: &[LevelStats]) -> &[LevelStats]
    ensures value { result.now ≡ shown_levels levels.now }
    ensures few { length result.now ≤ 8 }
{
    if levels.len() > 8 {
        &levels[..8]
    } else {
        levels
    }
}

impl fmt::Display for NodeStats {
    ghost output = { λ x. Some (stats_text x) };

    fn fmt<W: fmt::Write>(&self, f: &mut fmt::Formatter<W>) -> fmt::Result {
        let levels = shown_levels(self.levels.as_slice());
        for (number, level) in levels.iter().enumerate() {
            let line = LevelLine { number, level };
            write!(f, "{line}")?;
        }
        let totals = Totals::of(levels, self.kv_pairs);
        write!(f, "{totals}")
    }
}
