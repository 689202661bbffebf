//! Calls that may be refused, at maps without a pair, with one, and with many.

use congee_owned::{Congee, DefaultAllocator, OOMError};
use std::alloc::Global;
use std::test::Fail;

fn fill(map: &mut Congee<u64, u64>, pairs: u64) -> Result<(), OOMError> {
    for i in 0..pairs {
        map.insert(i.wrapping_mul(7), i)?;
    }
    Ok(())
}

fn keys_noted(map: &Congee<u64, u64>) -> Result<u64, OOMError> {
    let keys = map.keys()?;
    Ok(keys.len() as u64)
}

fn pairs_counted(map: &Congee<u64, u64>) -> Result<u64, OOMError> {
    let stats = map.stats()?;
    Ok(stats.kv_pairs)
}

fn pairs_ranged(alloc: Global, map: &Congee<u64, u64>) -> Result<u64, OOMError> {
    let mut buffer = vec![in alloc; (0, 0); 4096]?;
    Ok(map.range(&0, &u64::MAX, &mut buffer) as u64)
}

// How many pairs the list of keys, the statistics and a range report.
fn reported(alloc: Global, map: &Congee<u64, u64>) -> Result<[u64; 3], OOMError> {
    Ok([
        keys_noted(map)?,
        pairs_counted(map)?,
        pairs_ranged(alloc, map)?,
    ])
}

fn noted_of(alloc: Global, pairs: u64) -> Result<[u64; 3], OOMError> {
    let mut map = Congee::new(alloc, DefaultAllocator {})?;
    fill(&mut map, pairs)?;
    reported(alloc, &map)
}

#[test]
fn no_size_is_refused(rt: HostRuntime) -> Result<(), Fail> {
    for pairs in [0, 1, 2000] {
        assert!(rt; noted_of(rt.alloc(), pairs)? == [pairs; 3]);
    }
    Ok(())
}
