//! Keys and values of types of their own, whose numbers are moved as they are.

ghost use Rattle.std.specs.Prelude.{◌*◌, ◌/◌, ◌%◌, ◌^◌};

use face_typed::typed_congee;
use live_faces::live::Congee;
use spec_map::error::OOMError;
use spec_map::traits::Word;
use std::alloc::Global;
use std::sync::Wait;
use std::test::Fail;

/// Written as its value divided by ten; n is read back as 20n, which is written as 2n.
#[derive(Clone, Copy, Debug, PartialEq, Eq)]
struct Tens(u64);

impl Word for Tens {
    ghost number = { λ t. t.0 / 10 };

    ghost of_number = { λ n. record { 0 = (n * 20) % 2 ^ 64 } };

    fn from_u64(n: u64) -> Tens {
        Tens(n.wrapping_mul(20))
    }

    fn into_u64(self) -> u64 {
        self.0 / 10
    }
}

// One pair goes out and in, and is looked up by its key each time: what is found, and the pair in a snapshot.
fn looked_up<R: Wait>(
    rt: &R,
    alloc: Global,
) -> Result<(Option<Tens>, Option<Tens>, Option<(Tens, Tens)>), OOMError> {
    let map: Congee<Tens, Tens> = Congee::new(alloc)?;
    let mut guard = map.pin();
    let _ = map.insert(rt, alloc, &mut guard, Tens(12), Tens(70))?;
    let owned = map.into_owned(rt, alloc, &mut guard)?;
    let out = owned.get(&Tens(15));
    let (map, guard) = Congee::from_owned(rt, alloc, owned)?;
    let mut guard = guard;
    let back = map.get(rt, &mut guard, &Tens(19));
    let pairs = map.snapshot(rt, alloc, &mut guard)?;
    Ok((out, back, pairs.get(0).copied()))
}

#[test]
fn numbers_stay_as_they_are(rt: HostRuntime) -> Result<(), Fail> {
    let (out, back, pair) = looked_up(&rt, rt.alloc())?;
    assert!(rt; out == Some(Tens(140)) && back == Some(Tens(140)));
    assert!(rt; pair == Some((Tens(20), Tens(140))));
    Ok(())
}
