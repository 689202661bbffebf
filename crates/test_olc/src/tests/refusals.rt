//! Calls to which nodes are refused: each request of each tail once, every budget up to what all insertions need, and
//! the smaller nodes of cleanups.

ghost use Rattle.std.specs.Prelude.{None};

use crate::tests::events::{
    Call, MANY, Setting, push_call, push_letters, push_pairs, push_setting, push_whole,
};
use crate::tests::history::is_legal;
use node_base::base_node::NodeSize;
use node_table::allocator::{Allocator, Budget};
use olc_replay::replay::replay_with;
use spec_map::error::OOMError;
use spec_olc::trace::{Line, Trace};
use spec_olc::types::{Event, Outcome};
use std::alloc::{AllocError, Global};
use std::sync::atomic::{AtomicU64, Ordering};
use std::test::Fail;

// Refuses the request of this number, counted from 1, and grants all others.
#[derive(Drop)]
struct OneRefused<'a> {
    left: &'a AtomicU64,
}

impl Allocator for OneRefused<'_> {
    ghost charge = { λ _. None };

    fn allocate(&mut self, _size: NodeSize) -> Result<(), OOMError> {
        if self.left.fetch_sub(1, Ordering::Relaxed) == 1 {
            return Err(OOMError::new());
        }
        Ok(())
    }

    fn deallocate(&mut self, _size: NodeSize) {}
}

// Whether the letters of a trace after so many events are these, and its content is this.
fn ends_so(
    alloc: Global,
    trace: &Trace,
    before: usize,
    course: &str,
    content: &[(u64, u64)],
) -> Result<bool, AllocError> {
    let mut letters = String::new(alloc);
    push_letters(&mut letters, trace, before)?;
    Ok(letters.as_str() == course && trace.content.as_slice() == content)
}

/// A budget, insertions, the letters of the last one, and what is stored then.
struct Within<'a> {
    bytes: u64,
    pairs: &'a [(u64, u64)],
    last: (u64, u64),
    course: &'a str,
    content: &'a [(u64, u64)],
}

// The middle node of a split is refused, its leaf is, and a leaf comes where the refused ones were freed.
const WITHIN: [Within<'static>; 3] = [
    Within {
        bytes: 2232,
        pairs: &[(0, 0)],
        last: (256, 2),
        course: "STRCTCUUAaLLF",
        content: &[(0, 0)],
    },
    Within {
        bytes: 2168,
        pairs: &[(0, 0)],
        last: (256, 2),
        course: "STRCTCUUaLLF",
        content: &[(0, 0)],
    },
    Within {
        bytes: 2232,
        pairs: &[(0, 0), (256, 2)],
        last: (72057594037927936, 5),
        course: "STRCUAWLF",
        content: &[(0, 0), (72057594037927936, 5)],
    },
];

fn is_refused_within(alloc: Global, row: &Within<'_>) -> Result<bool, OOMError> {
    let mut events = Vec::new(alloc);
    push_pairs(&mut events, row.pairs)?;
    let before = events.len();
    push_call(
        &mut events,
        0,
        Call::Insert(row.last.0, row.last.1),
        MANY,
        None,
    )?;
    let trace = replay_with(alloc, Budget::new(row.bytes), &events)?;
    Ok(ends_so(alloc, &trace, before, row.course, row.content)?)
}

#[test]
fn a_refused_node_frees_the_others(rt: HostRuntime) -> Result<(), Fail> {
    for row in &WITHIN {
        assert!(rt; is_refused_within(rt.alloc(), row)?);
    }
    Ok(())
}

/// Insertions, the last of which is made twice, and how many nodes all of them request.
struct Requests<'a> {
    pairs: &'a [(u64, u64)],
    last: (u64, u64),
    requests: u64,
}

const REQUESTS: [Requests<'static>; 4] = [
    Requests {
        pairs: &[],
        last: (1, 42),
        requests: 2,
    },
    Requests {
        pairs: &[(1, 42)],
        last: (256, 2),
        requests: 4,
    },
    Requests {
        pairs: &[(0, 0), (1, 1), (2, 2), (3, 3)],
        last: (4, 4),
        requests: 3,
    },
    FIVE_APART,
];

// Four keys of one inner node, and one more.
const FIVE_APART: Requests<'static> = Requests {
    pairs: &[(0, 0), (256, 1), (512, 2), (768, 3)],
    last: (1024, 4),
    requests: 8,
};

fn push_twice(events: &mut Vec<Event<u64>>, row: &Requests<'_>) -> Result<(), AllocError> {
    let last = Call::Insert(row.last.0, row.last.1);
    push_pairs(events, row.pairs)?;
    push_call(events, 0, last, MANY, None)?;
    push_call(events, 0, last, MANY, None)
}

// Whether so many calls are decided where the allocator decides on their nodes, and as by the plain map.
fn decides<A: Allocator>(
    alloc: Global,
    row: &Requests<'_>,
    budget: A,
    count: Option<usize>,
) -> Result<bool, OOMError> {
    let mut events = Vec::new(alloc);
    push_twice(&mut events, row)?;
    let trace = replay_with(alloc, budget, &events)?;
    let as_many = match count {
        Some(count) => trace.decided.len() == count,
        None => true,
    };
    Ok(as_many && is_legal(alloc, &trace)?)
}

// Whether each request but the root's, if it alone is refused, loses one insertion.
fn lose_one(alloc: Global, row: &Requests<'_>) -> Result<bool, OOMError> {
    let count = row.pairs.len().saturating_add(1);
    for request in 2..=row.requests {
        let left = AtomicU64::new(request);
        if !decides(alloc, row, OneRefused { left: &left }, Some(count))? {
            return Ok(false);
        }
    }
    Ok(true)
}

#[test]
fn each_node_refused_once_loses_one_insertion(rt: HostRuntime) -> Result<(), Fail> {
    for row in &REQUESTS {
        assert!(rt; lose_one(rt.alloc(), row)?);
    }
    Ok(())
}

#[test]
fn every_budget_gives_a_legal_history(rt: HostRuntime) -> Result<(), Fail> {
    for more in 0..12 {
        let budget = Budget::new(more * 64 + 2104);
        assert!(rt; decides(rt.alloc(), &FIVE_APART, budget, None)?);
    }
    Ok(())
}

/// A setting, the request for the smaller node that the removal of a key asks for, counted from the root's, and the
/// letters of that removal where this is refused, and of the next one.
struct Smaller<'a> {
    setting: Setting<'a>,
    key: u64,
    request: u64,
    next: u64,
    courses: &'a str,
}

// Leaves, an inner node, and the second of two cleanups: the key 0 in a leaf of its own, alone below its parent, which is
// one of four children of a node of 16 places. Both locked nodes are unlocked, the call ends as decided, and the next
// removal makes the smaller node.
const SMALLER: [Smaller<'static>; 5] = [
    Smaller {
        setting: Setting::Keys(5, 4, 1),
        key: 3,
        request: 4,
        next: 2,
        courses: "STRCTCRCUWLTRCTCRCUUaLLFSTRCTCRCUWLTRCTCRCUUAWOLF",
    },
    Smaller {
        setting: Setting::Keys(17, 13, 1),
        key: 12,
        request: 5,
        next: 11,
        courses: "STRCTCRCUWLTRCTCRCUUaLLFSTRCTCRCUWLTRCTCRCUUAWOLF",
    },
    Smaller {
        setting: Setting::Keys(49, 37, 1),
        key: 36,
        request: 6,
        next: 35,
        courses: "STRCTCRCUWLTRCTCRCUUaLLFSTRCTCRCUWLTRCTCRCUUAWOLF",
    },
    Smaller {
        setting: Setting::Keys(5, 4, 256),
        key: 768,
        request: 9,
        next: 512,
        courses: "STRCTCRCTCRCUUWOLTRCTCRCUUaLLFSTRCTCRCTCRCUUWOLTRCTCRCUUAWOLF",
    },
    Smaller {
        setting: Setting::Pairs(
            &[
                (0, 0),
                (256, 1),
                (65536, 2),
                (131072, 3),
                (196608, 4),
                (262144, 5),
            ],
            &[262144, 256],
        ),
        key: 0,
        request: 11,
        next: 65536,
        courses: "STRCTCRCTCRCTCRCUUWOLTRCTCRCTCRCUUWOLTRCTCRCUUaLLFSTRCTCRCTCRCUUWOLTRCTCRCUUAWOLF",
    },
];

// Whether both removals take their courses, and are answered as by the plain map.
fn is_refused_so(alloc: Global, row: &Smaller<'_>) -> Result<bool, OOMError> {
    let mut events = Vec::new(alloc);
    push_setting(&mut events, row.setting)?;
    let before = events.len();
    push_whole(&mut events, Call::Remove(row.key))?;
    push_whole(&mut events, Call::Remove(row.next))?;
    let left = AtomicU64::new(row.request);
    let trace = replay_with(alloc, OneRefused { left: &left }, &events)?;
    takes_courses(alloc, &trace, before, row.courses)
}

fn takes_courses(
    alloc: Global,
    trace: &Trace,
    before: usize,
    courses: &str,
) -> Result<bool, OOMError> {
    Ok(ends_so(alloc, trace, before, courses, &trace.content)? && is_legal(alloc, trace)?)
}

#[test]
fn a_smaller_node_is_refused(rt: HostRuntime) -> Result<(), Fail> {
    for row in &SMALLER {
        assert!(rt; is_refused_so(rt.alloc(), row)?);
    }
    Ok(())
}

// How many calls have started and not ended.
fn unended(events: &[Event<u64>], trace: &Trace) -> u64 {
    let mut count = 0u64;
    for (event, line) in events.iter().zip(&trace.lines) {
        match (event, line) {
            (Event::Start(_, _), Line::Done(..)) => count = count.wrapping_add(1),
            (_, Line::Done(_, Outcome::Done, _)) => count = count.wrapping_sub(1),
            _ => {}
        }
    }
    count
}

// The calls that remove a key whose value is that key.
fn removing(key: u64) -> [Call; 3] {
    [
        Call::Remove(key),
        Call::IfPresent(key),
        Call::Exchange(key, key, None),
    ]
}

// Each of these calls at the key of a setting, which is inserted again after it.
fn push_removals(events: &mut Vec<Event<u64>>, row: &Smaller<'_>) -> Result<(), AllocError> {
    push_setting(events, row.setting)?;
    for call in removing(row.key) {
        push_whole(events, call)?;
        push_whole(events, Call::Insert(row.key, row.key))?;
    }
    Ok(())
}

// Whether each call ends, and is answered as by the plain map, where one request is refused.
fn ends_without(alloc: Global, events: &[Event<u64>], request: u64) -> Result<bool, OOMError> {
    let left = AtomicU64::new(request);
    let trace = replay_with(alloc, OneRefused { left: &left }, events)?;
    Ok(unended(events, &trace) == 0 && is_legal(alloc, &trace)?)
}

fn end_without_each(alloc: Global, row: &Smaller<'_>) -> Result<bool, OOMError> {
    let mut events = Vec::new(alloc);
    push_removals(&mut events, row)?;
    for request in 2..24 {
        if !ends_without(alloc, &events, request)? {
            return Ok(false);
        }
    }
    Ok(true)
}

#[test]
fn each_node_refused_where_nodes_shrink(rt: HostRuntime) -> Result<(), Fail> {
    for row in &SMALLER {
        assert!(rt; end_without_each(rt.alloc(), row)?);
    }
    Ok(())
}
