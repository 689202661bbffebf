//! Keys whose paths are still to be tidied, for all guards.
//!
//! A removal takes a node out that is left without children. Where another writer is busy there, the node stays, and the guard keeps
//! the key, to tidy its path after its next call. A second key of a guard goes to one of these queues, as does that of a guard that
//! ends. Then any guard's call tidies its path that makes nodes or takes some out. A key is a hint alone: to tidy the path of any key
//! is right.
ghost use Rattle.std.specs.Prelude.{◌<◌};

use crate::slot::swap;
use counted_slot::{Counted, FREE, Fits, MARKED, PRESENT};
use live_growth::map::Congee;
use std::alloc::Global;
use std::collections::VecDeque;

/// Keys, the oldest first.
#[derive(Drop)]
pub struct CleanupQueue {
    keys: VecDeque<u64>,
}

impl Fits for CleanupQueue {
    type Tag = Congee;

    ghost fits = { λ book cleanup_queue. Unit {0} };
}

impl CleanupQueue {
    /// No keys.
    pub fn none(alloc: Global) -> CleanupQueue {
        CleanupQueue {
            keys: VecDeque::new(alloc),
        }
    }
}

// Takes a queue out of its slot, whose word is this one.
fn open(slot: &Counted<CleanupQueue>, word: u64, alloc: Global) -> Option<CleanupQueue>
    requires { word < 3 }
{
    if slot.load() != word {
        return None;
    }
    swap(slot, word, CleanupQueue::none(alloc), MARKED).ok()
}

// Puts it back.
fn close(slot: &Counted<CleanupQueue>, cleanup_queue: CleanupQueue) {
    let word = if cleanup_queue.keys.is_empty() {
        FREE
    } else {
        PRESENT
    };
    drop(swap(slot, MARKED, cleanup_queue, word));
}

/// Whether a key was added to the queue in this slot. It isn't where another thread is at it, or where there is no memory.
pub fn add_to(slot: &Counted<CleanupQueue>, alloc: Global, key: u64) -> bool {
    let mut found = open(slot, PRESENT, alloc);
    if found.is_none() {
        found = open(slot, FREE, alloc);
    }
    let Some(mut cleanup_queue) = found else {
        return false;
    };
    let added = cleanup_queue.keys.push_back(key).is_ok();
    close(slot, cleanup_queue);
    added
}

/// The oldest key of the queue in this slot. `None` where there is none, or another thread is at it.
pub fn take_from(slot: &Counted<CleanupQueue>, alloc: Global) -> Option<u64> {
    let mut cleanup_queue = open(slot, PRESENT, alloc)?;
    let key = cleanup_queue.keys.pop_front();
    close(slot, cleanup_queue);
    key
}
