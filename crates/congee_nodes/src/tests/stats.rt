//! Texts of worked rows, counts that saturate, and what the derives show.

use crate::base_node::NodeType;
use crate::error::OOMError;
use crate::stats::NodeStats;
use crate::stats::fraction::hundredths;
use crate::stats::levels::{LevelStats, Levels};
use std::alloc::Global;
use std::test::Fail;

// Statistics with these counts, each level's nodes and entries.
fn by_hand(alloc: Global, counts: &[Level], kv_pairs: u64) -> Result<NodeStats, OOMError> {
    let mut levels = Vec::new(alloc);
    for (nodes, entries) in counts {
        levels.push(LevelStats {
            nodes: *nodes,
            entries: *entries,
        })?;
    }
    Ok(NodeStats {
        levels: Levels::from_vec(levels),
        kv_pairs,
    })
}

// A root and so many leaves below it, each with so many pairs.
fn root_and_leaves(alloc: Global, leaves: u64, pairs: u64) -> Result<NodeStats, OOMError> {
    let mut stats = NodeStats::empty(alloc);
    stats.add_node(0, NodeType::N256, leaves)?;
    for _ in 0..leaves {
        stats.add_node(1, NodeType::N4, pairs)?;
        stats.add_pairs(pairs);
    }
    Ok(stats)
}

// Whether the statistics have this text.
fn reads(alloc: Global, stats: &NodeStats, wanted: &str) -> Result<bool, OOMError> {
    let text = format!(in alloc; "{stats}")?;
    Ok(text.as_str() == wanted)
}

#[test]
fn empty_statistics_have_this_text(rt: HostRuntime) -> Result<(), Fail> {
    let none = "Overall node count: 0, entry count: 0\n\
                Load factor: 0.00\n\
                Active memory usage: 0 Mb\n\
                KV count: 0\n";
    assert!(rt; reads(rt.alloc(), &NodeStats::empty(rt.alloc()), none)?);
    Ok(())
}

// Whether statistics with these counts have this text.
fn hand_reads(
    alloc: Global,
    counts: &[Level],
    kv_pairs: u64,
    wanted: &str,
) -> Result<bool, OOMError> {
    reads(alloc, &by_hand(alloc, counts, kv_pairs)?, wanted)
}

/// The nodes and the entries of a level, by form.
type Level = ([u64; 4], [u64; 4]);

const NONE: [u64; 4] = [0; 4];

const FULL: [u64; 4] = [u64::MAX; 4];

const ROWS: [(&[Level], &str); 8] = [
    // each form on a level, and a level without nodes
    (
        &[
            ([1, 2, 3, 4], [3, 20, 100, 1000]),
            (NONE, NONE),
            ([5, 0, 0, 7], [11, 0, 0, 13]),
        ],
        "Level: 0 --- || N4:        1,     0.75 || N16:        2,     0.62 || N48:        3,     0.69 || N256:        4,     0.98 ||\n\
             Level: 1 --- || N4:        0,     0.00 || N16:        0,     0.00 || N48:        0,     0.00 || N256:        0,     0.00 ||\n\
             Level: 2 --- || N4:        5,     0.55 || N16:        0,     0.00 || N48:        0,     0.00 || N256:        7,     0.01 ||\n\
             Overall node count: 22, entry count: 1147\n\
             Load factor: 0.49 (too low)\n\
             Active memory usage: 0 Mb\n\
             KV count: 42\n",
    ),
    // a tie goes to the even hundredth: 13 / 40
    (
        &[([10, 0, 0, 0], [13, 0, 0, 0])],
        "Level: 0 --- || N4:       10,     0.32 || N16:        0,     0.00 || N48:        0,     0.00 || N256:        0,     0.00 ||\n\
             Overall node count: 10, entry count: 13\n\
             Load factor: 0.32 (too low)\n\
             Active memory usage: 0 Mb\n\
             KV count: 42\n",
    ),
    // one half isn't too low; what is printed alike may be
    (
        &[([1, 0, 0, 0], [2, 0, 0, 0])],
        "Level: 0 --- || N4:        1,     0.50 || N16:        0,     0.00 || N48:        0,     0.00 || N256:        0,     0.00 ||\n\
             Overall node count: 1, entry count: 2\n\
             Load factor: 0.50\n\
             Active memory usage: 0 Mb\n\
             KV count: 42\n",
    ),
    (
        &[([0, 0, 0, 1], [0, 0, 0, 127])],
        "Level: 0 --- || N4:        0,     0.00 || N16:        0,     0.00 || N48:        0,     0.00 || N256:        1,     0.50 ||\n\
             Overall node count: 1, entry count: 127\n\
             Load factor: 0.50 (too low)\n\
             Active memory usage: 0 Mb\n\
             KV count: 42\n",
    ),
    // 1047792 and 1049896 bytes
    (
        &[([0, 0, 0, 498], NONE)],
        "Level: 0 --- || N4:        0,     0.00 || N16:        0,     0.00 || N48:        0,     0.00 || N256:      498,     0.00 ||\n\
             Overall node count: 498, entry count: 0\n\
             Load factor: 0.00 (too low)\n\
             Active memory usage: 0 Mb\n\
             KV count: 42\n",
    ),
    (
        &[([0, 0, 0, 499], NONE)],
        "Level: 0 --- || N4:        0,     0.00 || N16:        0,     0.00 || N48:        0,     0.00 || N256:      499,     0.00 ||\n\
             Overall node count: 499, entry count: 0\n\
             Load factor: 0.00 (too low)\n\
             Active memory usage: 1 Mb\n\
             KV count: 42\n",
    ),
    // entries without nodes, and a factor wider than its place
    (
        &[(NONE, FULL)],
        "Level: 0 --- || N4:        0,     0.00 || N16:        0,     0.00 || N48:        0,     0.00 || N256:        0,     0.00 ||\n\
             Overall node count: 0, entry count: 73786976294838206460\n\
             Load factor: 0.00\n\
             Active memory usage: 0 Mb\n\
             KV count: 42\n",
    ),
    (
        &[([1, 0, 0, 0], [u64::MAX, 0, 0, 0])],
        "Level: 0 --- || N4:        1, 4611686018427387903.75 || N16:        0,     0.00 || N48:        0,     0.00 || N256:        0,     0.00 ||\n\
             Overall node count: 1, entry count: 18446744073709551615\n\
             Load factor: 4611686018427387903.75\n\
             Active memory usage: 0 Mb\n\
             KV count: 42\n",
    ),
];

#[test]
fn levels_by_hand_have_these_texts(rt: HostRuntime) -> Result<(), Fail> {
    for (counts, wanted) in &ROWS {
        assert!(rt; hand_reads(rt.alloc(), counts, 42, wanted)?);
    }
    Ok(())
}

// The text of eight levels whose counts are as great as they can be.
fn eight_greatest_levels(alloc: Global) -> Result<String, OOMError> {
    let mut wanted = String::new(alloc);
    for number in 0..8u8 {
        let line = format!(in alloc;
            "Level: {number} --- || N4: 18446744073709551615,     0.25 || N16: 18446744073709551615,     0.06 || N48: 18446744073709551615,     0.02 || N256: 18446744073709551615,     0.00 ||\n"
        )?;
        wanted.push_str(line.as_str())?;
    }
    wanted.push_str(
        "Overall node count: 590295810358705651680, entry count: 590295810358705651680\n\
         Load factor: 0.08 (too low)\n\
         Active memory usage: 423338364972826623 Mb\n\
         KV count: 18446744073709551615\n",
    )?;
    Ok(wanted)
}

// Whether nine such levels have that text.
fn nine_read_as_eight(alloc: Global) -> Result<bool, OOMError> {
    let wanted = eight_greatest_levels(alloc)?;
    hand_reads(
        alloc,
        &[([u64::MAX; 4], [u64::MAX; 4]); 9],
        u64::MAX,
        wanted.as_str(),
    )
}

#[test]
fn the_ninth_level_is_left_out(rt: HostRuntime) -> Result<(), Fail> {
    assert!(rt; nine_read_as_eight(rt.alloc())?);
    Ok(())
}

// A numerator, a denominator, and the hundredths of their quotient.
const HUNDREDTHS: [(u128, u128, u128); 9] = [
    (32, 256, 12),
    (96, 256, 38),
    (13, 40, 32),
    (195, 1536, 13),
    (1, 256, 0),
    (1, 200, 0),
    (3, 200, 2),
    (3, 2, 150),
    (7, 0, 0),
];

#[test]
fn hundredths_are_the_nearest(rt: HostRuntime) {
    for (numerator, denominator, wanted) in HUNDREDTHS {
        assert!(rt; hundredths(numerator, denominator) == wanted);
    }
}

// Counts more nodes, entries and pairs than a count can hold.
fn counts_past_the_greatest(stats: &mut NodeStats) -> Result<(), OOMError> {
    stats.add_node(2, NodeType::N48, u64::MAX - 1)?;
    stats.add_node(2, NodeType::N48, 5)?;
    stats.add_node(0, NodeType::N16, 7)?;
    stats.add_pairs(u64::MAX);
    stats.add_pairs(1);
    Ok(())
}

// Whether the levels have these nodes and entries.
fn has_counts(levels: &[LevelStats], wanted: &[Level]) -> bool {
    if levels.len() != wanted.len() {
        return false;
    }
    for place in 0..levels.len() {
        let (nodes, entries) = wanted[place];
        if levels[place].nodes != nodes || levels[place].entries != entries {
            return false;
        }
    }
    true
}

const GREATEST: [Level; 3] = [
    ([0, 1, 0, 0], [0, 7, 0, 0]),
    (NONE, NONE),
    ([0, 0, 2, 0], [0, 0, u64::MAX, 0]),
];

// Whether statistics that counted too much have the greatest count of pairs, and these levels.
fn after_too_much(alloc: Global) -> Result<bool, OOMError> {
    let mut stats = NodeStats::empty(alloc);
    counts_past_the_greatest(&mut stats)?;
    Ok(stats.kv_pairs == u64::MAX && has_counts(stats.levels.as_slice(), &GREATEST))
}

#[test]
fn counts_stay_at_the_greatest(rt: HostRuntime) -> Result<(), Fail> {
    assert!(rt; after_too_much(rt.alloc())?);
    Ok(())
}

// Whether a level without end is refused, and there is none then.
fn has_no_memory(alloc: Global) -> bool {
    let mut stats = NodeStats::empty(alloc);
    stats.add_node(usize::MAX, NodeType::N4, 1).is_err() && stats.levels.as_slice().is_empty()
}

#[test]
fn a_level_without_end_has_no_memory(rt: HostRuntime) {
    assert!(rt; has_no_memory(rt.alloc()));
}

// What `Debug` and `Serialize` write of a root and a leaf with one pair.
fn debug_text(alloc: Global) -> Result<String, Fail> {
    let stats = root_and_leaves(alloc, 1, 1)?;
    Ok(format!(in alloc; "{stats:?}")?)
}

fn json_text(alloc: Global) -> Result<String, Fail> {
    let stats = root_and_leaves(alloc, 1, 1)?;
    Ok(serde_json::to_string(alloc, &stats)?)
}

#[test]
fn derives_show_the_fields(rt: HostRuntime) -> Result<(), Fail> {
    let alloc = rt.alloc();
    assert_eq!(rt;
        debug_text(alloc)?.as_str(),
        "NodeStats { levels: [LevelStats { nodes: [0, 0, 0, 1], entries: [0, 0, 0, 1] }, LevelStats { nodes: [1, 0, 0, 0], entries: [1, 0, 0, 0] }], kv_pairs: 1 }"
    );
    assert_eq!(rt;
        json_text(alloc)?.as_str(),
        r#"{"levels":[{"nodes":[0,0,0,1],"entries":[0,0,0,1]},{"nodes":[1,0,0,0],"entries":[1,0,0,0]}],"kv_pairs":1}"#
    );
    let level = LevelStats {
        nodes: [1, 2, 3, 4],
        entries: [5, 6, 7, 8],
    };
    let copy = level.clone()?;
    assert_eq!(rt; (copy.nodes, copy.entries), ([1, 2, 3, 4], [5, 6, 7, 8]));
    Ok(())
}
