//! Nodes that shrink and nodes that are removed: what is charged after each call.

use congee_owned::{Budget, Congee, CongeeArc, OOMError};
use std::alloc::Global;
use std::sync::Arc;
use std::test::Fail;

type Limited = Congee<u64, u64, Budget>;

/// A call at a key, and what is charged after it.
#[derive(Clone, Copy)]
enum Step {
    Put(u64, u128),
    Take(u64, u128),
}

// How many steps do what they should before one doesn't.
fn right_steps(map: &mut Limited, steps: &[Step]) -> usize {
    for done in 0..steps.len() {
        let (is_done, charged) = match steps[done] {
            Step::Put(key, charged) => (map.insert(key, key) == Ok(None), charged),
            Step::Take(key, charged) => (map.remove(&key) == Some(key), charged),
        };
        if !is_done || map.charged() != charged {
            return done;
        }
    }
    steps.len()
}

fn fill(map: &mut Limited, keys: u64) -> Result<(), OOMError> {
    for key in 0..keys {
        map.insert(key, key)?;
    }
    Ok(())
}

/// A limit, the number of keys from 0 on that are stored first, and steps.
type Row = (u64, u64, &'static [Step]);

const ROWS: [Row; 3] = [
    (u64::MAX, 0, &TWO_LEAVES_GO),
    (u64::MAX, 17, &A_LEAF_SHRINKS),
    (2944, 17, &A_SMALLER_LEAF_IS_REFUSED),
];

fn is_right(alloc: Global, row: &Row) -> Result<bool, OOMError> {
    let (limit, keys, steps) = *row;
    let mut map = Congee::new(alloc, Budget::new(limit))?;
    fill(&mut map, keys)?;
    Ok(right_steps(&mut map, steps) == steps.len())
}

const TWO_LEAVES_GO: [Step; 4] = [
    Step::Put(1, 2168),
    Step::Put(256, 2296),
    Step::Take(1, 2232),
    Step::Take(256, 2104),
];

const A_LEAF_SHRINKS: [Step; 7] = [
    Step::Take(16, 2776),
    Step::Take(15, 2776),
    Step::Take(14, 2776),
    Step::Take(13, 2776),
    Step::Take(12, 2272),
    Step::Put(12, 2272),
    Step::Take(12, 2272),
];

const A_SMALLER_LEAF_IS_REFUSED: [Step; 6] = [
    Step::Put(256, 2904),
    Step::Take(16, 2904),
    Step::Take(15, 2904),
    Step::Take(14, 2904),
    Step::Take(13, 2904),
    Step::Take(12, 2904),
];

#[test]
fn nodes_shrink_and_go(rt: HostRuntime) -> Result<(), Fail> {
    for row in &ROWS {
        assert!(rt; is_right(rt.alloc(), row)?);
    }
    Ok(())
}

// The owners that a map of shared values holds while it fills and empties.
fn owners_left(alloc: Global, shared: &Arc<u64>) -> Result<usize, OOMError> {
    let mut map: CongeeArc<u64, u64> = CongeeArc::new(alloc)?;
    for i in 0..300u64 {
        map.insert(i, Arc::clone(shared)?)?;
    }
    for i in 0..290u64 {
        map.remove(i);
    }
    Ok(Arc::strong_count(shared))
}

// How many owners there are beside the map's last ten, and after its drop.
fn owners(alloc: Global) -> Result<(usize, usize), OOMError> {
    let shared = Arc::new(alloc, 7)?;
    let left = owners_left(alloc, &shared)?;
    Ok((left, Arc::strong_count(&shared)))
}

#[test]
fn owners_are_dropped_once(rt: HostRuntime) -> Result<(), Fail> {
    assert!(rt; owners(rt.alloc())? == (11, 1));
    Ok(())
}
