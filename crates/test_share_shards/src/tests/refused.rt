//! A limit that the map's nodes reach: what needs a larger node is refused, and nothing else.

ghost use Rattle.std.specs.Prelude.{◌≡◌};

use share_sharded::sharded::{Congee, Guard, Refusal, Shards};
use spec_map::error::OOMError;
use std::sync::Wait;
use std::test::Fail;

type Map = Congee<u64, u64>;

// Whether the keys 0 to 3 are new: they fill one leaf.
fn filled(map: &Map, guard: &mut Guard) -> bool
    requires { guard.old.table ≡ map.now.table }
    ensures { guard.new.table ≡ guard.old.table }
{
    let mut all = true;
    for key in 0..4u64 {
        all = all && map.try_insert(guard, key, 4) == Ok(None);
    }
    all
}

// The key 4, for which the leaf has to grow, is refused by each call.
fn refused(map: &Map, guard: &mut Guard) -> bool
    requires { guard.old.table ≡ map.now.table }
    ensures { guard.new.table ≡ guard.old.table }
{
    let no = Err(Refusal::OutOfMemory);
    map.try_insert(guard, 4, 5) == no
        && map.try_add(guard, 4, 5) == no
        && map.try_get_or_insert(guard, 4, 5) == no
}

// The key 4, for which the leaf has to grow, is refused by each call in the form that waits.
fn refused_at_last<R: Wait>(rt: &R, map: &Map, guard: &mut Guard) -> bool
    requires { guard.old.table ≡ map.now.table }
    ensures { guard.new.table ≡ guard.old.table }
{
    let no = Err(OOMError::new());
    map.insert(rt, guard, 4, 5) == no
        && map.add(rt, guard, 4, 5) == no
        && map.get_or_insert(rt, guard, 4, 5) == no
}

// What a present key needs no node for.
fn changed(map: &Map, guard: &mut Guard) -> bool
    requires { guard.old.table ≡ map.now.table }
    ensures { guard.new.table ≡ guard.old.table }
{
    map.try_insert(guard, 0, 5) == Ok(Some(4))
        && map.try_add(guard, 0, 5) == Ok(Some(5))
        && map.try_get_or_insert(guard, 0, 1) == Ok(Some(10))
        && map.try_value_count(guard) == Ok(4)
}

#[test]
fn a_node_past_the_limit_is_refused(rt: HostRuntime) -> Result<(), Fail> {
    for (shards, limit) in [
        (Shards::One, 2104 + 64),
        (Shards::SixtyFour, 64 * (2104 + 64)),
    ] {
        let map: Map = Congee::new(rt.alloc(), shards, limit)?;
        let mut guard = map.pin()?;
        assert!(rt; filled(&map, &mut guard));
        assert!(rt; refused(&map, &mut guard) && refused_at_last(&rt, &map, &mut guard));
        assert!(rt; changed(&map, &mut guard));
        assert!(rt; map.limit() == limit && map.charged(&rt, &mut guard) <= u128::from(limit));
    }
    Ok(())
}

#[test]
fn a_limit_below_the_roots_is_refused(rt: HostRuntime) -> Result<(), Fail> {
    for (shards, least) in [(Shards::One, 2104), (Shards::SixtyFour, 64 * 2104)] {
        assert!(rt; Map::new(rt.alloc(), shards, least - 1).is_err());
        assert!(rt; Map::new(rt.alloc(), shards, least).is_ok());
    }
    Ok(())
}

#[test]
fn a_limit_is_that_of_all_shards(rt: HostRuntime) -> Result<(), Fail> {
    for (shards, given, limit) in [
        (Shards::One, 2104, 2104),
        (Shards::One, u64::MAX, u64::MAX),
        (Shards::SixtyFour, 64 * 2104 + 63, 64 * 2104),
        (Shards::SixtyFour, u64::MAX, u64::MAX - 63),
    ] {
        assert!(rt; Map::new(rt.alloc(), shards, given)?.limit() == limit);
    }
    Ok(())
}
