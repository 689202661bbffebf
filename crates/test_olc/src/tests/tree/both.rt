//! The machine and the owned map side by side.

ghost use Rattle.std.specs.Prelude.{None};

use face_typed::typed_congee::Congee;
use node_base::base_node::NodeSize;
use node_stats::NodeStats;
use node_table::allocator::{Allocator, Budget};
use olc_machine::machine::Machine;
use spec_map::error::OOMError;
use spec_olc::types::{Env, Op, Outcome, Reply, Seen};
use std::alloc::Global;
use std::sync::atomic::{AtomicU64, Ordering};

// More events than a call takes that is alone.
const WHOLE: usize = 120;

// More nodes than a call alone retires.
const RETIRED: usize = 8;

/// Grants each node, and counts the sizes of those that are charged.
#[derive(Drop)]
struct Counted<'a> {
    charged: &'a AtomicU64,
}

impl Allocator for Counted<'_> {
    ghost charge = { λ _. None };

    fn allocate(&mut self, size: NodeSize) -> Result<(), OOMError> {
        self.charged.fetch_add(size.bytes(), Ordering::Relaxed);
        Ok(())
    }

    fn deallocate(&mut self, size: NodeSize) {
        self.charged.fetch_sub(size.bytes(), Ordering::Relaxed);
    }
}

// An event whose closure is answered so.
fn event(answer: Option<u64>) -> Env<u64> {
    Env {
        torn: Seen {
            child: None,
            count: 0,
            full: false,
        },
        fail: false,
        answer,
    }
}

// Whether two statistics count the same nodes and entries.
fn are_alike(stats: &NodeStats, others: &NodeStats) -> bool {
    let levels = stats.levels.as_slice();
    let other_levels = others.levels.as_slice();
    let agree = levels.iter().zip(other_levels).all(|(level, other)| level.nodes == other.nodes
        && level.entries == other.entries);
    agree && levels.len() == other_levels.len() && stats.kv_pairs == others.kv_pairs
}

/// A machine and an owned map after the same calls.
#[derive(Drop)]
pub(super) struct Both<'a> {
    machine: Machine<u64, Counted<'a>>,
    map: Congee<u64, u64, Budget>,
    charged: &'a AtomicU64,
}

impl<'a> Both<'a> {
    /// Both empty; the cell counts what the machine is charged.
    pub(super) fn new(alloc: Global, charged: &'a AtomicU64) -> Result<Both<'a>, OOMError> {
        Ok(Both {
            machine: Machine::new(alloc, Counted { charged })?,
            map: Congee::new(alloc, Budget::new(u64::MAX))?,
            charged,
        })
    }

    // The reply of a call alone that ends. What it retires is reclaimed then.
    fn reply(&mut self, op: &Op<u64>, answer: Option<u64>) -> Option<Reply<u64>> {
        if self.machine.start(0, op).is_err() {
            return None;
        }
        let mut replied = None;
        for _ in 0..WHOLE {
            if let (_, Outcome::Decided(reply)) = self.machine.step(0, op, event(answer)) {
                replied = Some(reply);
            }
            if !self.machine.is_in_flight(0) {
                break;
            }
        }
        for _ in 0..RETIRED {
            self.machine.reclaim_next();
        }
        if self.machine.is_in_flight(0) {
            None
        } else {
            replied
        }
    }

    // Whether the machine replies so, with the key's previous value.
    fn replies(&mut self, op: &Op<u64>, answer: Option<u64>, old: Option<u64>) -> bool {
        match self.reply(op, answer) {
            Some(Reply::Old(replied)) => replied == old,
            _ => false,
        }
    }

    // Whether both have the same nodes, and are charged the same.
    fn agree(&self) -> Result<bool, OOMError> {
        let stats = self.machine.stats()?;
        let others = self.map.stats()?;
        let charged = u128::from(self.charged.load(Ordering::Relaxed));
        Ok(are_alike(&stats, &others) && charged == self.map.charged())
    }

    /// Whether both insert a pair alike.
    pub(super) fn insert(&mut self, key: u64, value: u64) -> Result<bool, OOMError> {
        let old = self.map.insert(key, value)?;
        Ok(self.replies(&Op::Insert(key, value), None, old) && self.agree()?)
    }

    /// Whether both remove a key alike.
    pub(super) fn remove(&mut self, key: u64) -> Result<bool, OOMError> {
        let old = self.map.remove(&key);
        Ok(self.replies(&Op::Remove(key), None, old) && self.agree()?)
    }

    /// Whether both store what a closure returns for a key with a value, or without one.
    pub(super) fn compute_or_insert(&mut self, key: u64, value: u64) -> Result<bool, OOMError> {
        let mut closure = |_: Option<u64>| -> u64 { value };
        let old = self.map.compute_or_insert(key, &mut closure)?;
        let op = Op::ComputeOrInsert(key, 0);
        Ok(self.replies(&op, Some(value), old) && self.agree()?)
    }

    /// Whether both do alike with a key that has a value what a closure answers.
    pub(super) fn compute(&mut self, key: u64, answer: Option<u64>) -> Result<bool, OOMError> {
        let mut closure = |_: u64| -> Option<u64> { answer };
        let both = self.map.compute_if_present(&key, &mut closure);
        let replied = self.reply(&Op::ComputeIfPresent(key), answer);
        let alike = match replied {
            Some(Reply::Computed(replied)) => replied == both,
            _ => false,
        };
        Ok(alike && self.agree()?)
    }

    /// Whether both exchange the value of a key alike, if there is one.
    pub(super) fn exchange(&mut self, key: u64, new: Option<u64>) -> Result<bool, OOMError> {
        let old = self.map.get(&key).unwrap_or(0);
        let exchanged = self.map.compare_exchange(&key, &old, new);
        let replied = self.reply(&Op::CompareExchange(key, old, new), None);
        let alike = match replied {
            Some(Reply::Exchanged(replied)) => replied == exchanged,
            _ => false,
        };
        Ok(alike && self.agree()?)
    }
}
