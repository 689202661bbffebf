//! An allocator whose counts outlive it, and a drainer that counts.

ghost use Rattle.std.specs.Prelude.{None};

use congee_owned::{Allocator, Drainer, NodeSize, OOMError};
use std::sync::atomic::{AtomicU64, Ordering};

/// How many requests are still granted, and what is charged.
#[derive(Drop)]
pub(super) struct Counts {
    requests: AtomicU64,
    charged: AtomicU64,
}

impl Counts {
    pub(super) fn new() -> Self {
        Counts {
            requests: AtomicU64::new(0),
            charged: AtomicU64::new(0),
        }
    }

    pub(super) fn grant(&self, requests: u64) {
        self.requests.store(requests, Ordering::Relaxed);
    }

    pub(super) fn charged(&self) -> u64 {
        self.charged.load(Ordering::Relaxed)
    }

    pub(super) fn left(&self) -> u64 {
        self.requests.load(Ordering::Relaxed)
    }
}

/// Grants so many requests, and refuses the one after them. Counts what is charged.
#[derive(Drop)]
pub(super) struct Counted<'a> {
    pub(super) counts: &'a Counts,
}

impl Allocator for Counted<'_> {
    ghost charge = { λ _. None };

    fn allocate(&mut self, size: NodeSize) -> Result<(), OOMError> {
        if self.counts.requests.fetch_sub(1, Ordering::Relaxed) == 0 {
            return Err(OOMError::new());
        }
        self.counts
            .charged
            .fetch_add(size.bytes(), Ordering::Relaxed);
        Ok(())
    }

    fn deallocate(&mut self, size: NodeSize) {
        self.counts
            .charged
            .fetch_sub(size.bytes(), Ordering::Relaxed);
    }
}

/// Counts the pairs that it is called with.
#[derive(Drop)]
pub(super) struct Tally<'a> {
    pub(super) reported: &'a AtomicU64,
}

impl Drainer<u64, u64> for Tally<'_> {
    ghost can_drain = { λ _. Unit {0} };

    fn drain(&self, _k: u64, _v: u64) {
        self.reported.fetch_add(1, Ordering::Relaxed);
    }
}
