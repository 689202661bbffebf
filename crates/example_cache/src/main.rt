//! A cache of shared objects by number: two threads ask for blocks of a file, and load those that aren't cached.
#![tactic(auto)]

ghost use Rattle.std.specs.Prelude.{◌≡◌};
ghost use Rattle.live_payloads.specs.Payloads.{IsGuardOf};

use congee_live::{CongeeArc, PayloadGuard, share};
use std::alloc::Global;
use std::sync::{Arc, Wait};
use std::thread::{Threads, join};

/// A block of a file.
#[derive(Drop)]
struct Block {
    sum: u64,
}

type Cache = CongeeArc<u64, Block>;

type Guard = PayloadGuard<Arc<Block>>;

/// What the file has in this block.
fn load(number: u64) -> Block {
    Block {
        sum: number.wrapping_mul(10),
    }
}

/// The cached block, or one that is loaded now and cached. Where two threads load a block at one time, both get the one that
/// came first. `None` where memory is missing.
fn fetch<R: Wait>(
    rt: &R,
    alloc: Global,
    cache: &Cache,
    guard: &mut Guard,
    number: u64,
) -> Option<Arc<Block>>
    requires { IsGuardOf cache.now guard.old }
    ensures { IsGuardOf cache.now guard.new }
{
    if let Some(lent) = cache.get(rt, guard, &number) {
        return share(&lent).ok();
    }
    let loaded = Arc::new(alloc, load(number)).ok()?;
    let (lent, _) = cache.get_or_insert(rt, alloc, guard, number, loaded).ok()?;
    share(&lent).ok()
}

/// The sum of fifty blocks, from this one on.
fn sum<R: Wait>(rt: &R, alloc: Global, cache: &Cache, first: u64) -> Option<u64> {
    let mut guard = cache.pin();
    let mut sum = 0u64;
    for at in 0..50u64 {
        let block = fetch(rt, alloc, cache, &mut guard, first.wrapping_add(at))?;
        sum = sum.wrapping_add(block.sum);
    }
    cache.unpin(guard);
    Some(sum)
}

/// Takes a block out of the cache while somebody still reads it. What is in it then.
fn evicted<R: Wait>(rt: &R, alloc: Global, cache: &Cache, number: u64) -> Option<u64> {
    let mut guard = cache.pin();
    let kept = fetch(rt, alloc, cache, &mut guard, number)?;
    drop(cache.remove(rt, &mut guard, &number));
    cache.unpin(guard);
    Some(kept.sum)
}

/// Two threads sum up blocks, of which they share some. Both sums, and a block that is cached no more.
fn summed<R: Threads + Wait + Sync>(rt: &R, alloc: Global) -> Option<(u64, u64, u64)> {
    let cache: Cache = Cache::new(alloc).ok()?;
    let (a, b) = join(
        rt,
        || sum(rt, alloc, &cache, 0),
        || sum(rt, alloc, &cache, 25),
    );
    Some((a?, b?, evicted(rt, alloc, &cache, 30)?))
}

fn main(rt: HostRuntime) -> anyhow::Result<()> {
    if let Some((first, second, block)) = summed(&rt, rt.alloc()) {
        println!(rt; "sums {first} and {second}, and {block} in block 30")?;
    }
    Ok(())
}
