//! A note that one guard makes, and another learns.

ghost use Rattle.std.specs.Prelude.{◌≡◌};

use live_faces::live::{Congee, Guard, learn};
use std::alloc::Global;
use std::process::Abort;
use std::test::Fail;

fn learn_a_note(
    rt: &impl Abort,
    alloc: Global,
    map: &Congee<u64, u64>,
    a: &mut Guard,
    b: &mut Guard,
)
    requires first { a.old.book ≡ map.now }
    requires second { b.old.book ≡ map.now }
{
    assert!(rt; map.try_insert(alloc, a, 7, 70) == Ok(None));
    let mut note = map.note(a);
    assert!(rt; map.try_remove(a, &7) == Ok(Some(70)));
    learn(b, &mut note);
    // (what was removed after the note is gone, too)
    assert!(rt; map.try_get(b, &7) == Ok(None));
    assert!(rt; map.usage() == (4_096, u64::MAX));
}

#[test]
fn what_a_guard_does_once_it_learned_a_note(rt: HostRuntime) -> Result<(), Fail> {
    let map: Congee<u64, u64> = Congee::new(rt.alloc())?;
    learn_a_note(&rt, rt.alloc(), &map, &mut map.pin(), &mut map.pin());
    Ok(())
}
