//! Callers of a map that threads share, and what each of them knows by its guard. The program runs them.
#![tactic(auto)]

ghost use Rattle.std.specs.Prelude.{◌≡◌, ◌+◌, ◌^◌};

mod counter;
mod hand_over;
mod noted;
mod owner;

use crate::counter::count;
use crate::hand_over::hand_over;
use crate::noted::{learn_and_find, store_and_note};
use crate::owner::keep;
use congee::DefaultAllocator;
use congee::locked::Congee;
use std::alloc::Global;
use std::io::Write;
use std::marker::Brand;
use std::sync::Wait;
use std::sync::ledger::{Blank, Ledger};
use std::test::Fail;

/// The map that they call.
pub(crate) type Map<L> = Congee<L, u64, u64, DefaultAllocator>;

fn number(found: Option<u64>) -> u64 {
    match found {
        Some(number) => number,
        None => 0,
    }
}

// What each of them finds: the value that was handed over, the count before the second turn, the value that was
// kept, and the one that was noted.
fn callers<L: Ledger, R: Wait>(
    rt: &R,
    alloc: Global,
    blank: Blank,
) -> Result<(u64, u64, u64, u64), Fail>
    requires name { blank.name ≡ L.name }
    requires parts { blank.parts ≡ L.parts }
    requires whole { L.parts ≡ 2 ^ 63 + 1 }
{
    let (map, _) = Map::<L>::new(alloc, blank, DefaultAllocator {})?;
    let mut giver = map.pin(rt).ok().ok_or("no guard")?;
    let mut taker = map.pin(rt).ok().ok_or("no guard")?;
    let found = hand_over(rt, &map, &mut giver, &mut taker, 1, 42)?;
    let mut counter = map.pin(rt).ok().ok_or("no guard")?;
    count(rt, &map, &mut counter, 2)?;
    let before = count(rt, &map, &mut counter, 2)?;
    let mut owner = map.pin(rt).ok().ok_or("no guard")?;
    let kept = keep(rt, &map, &mut owner, 3, 7)?;
    let mut noter = map.pin(rt).ok().ok_or("no guard")?;
    let mut note = store_and_note(rt, &map, &mut noter, 4, 11)?;
    let noted = learn_and_find(rt, &map, &mut counter, &mut note, 4);
    Ok((number(found), number(before), number(kept), number(noted)))
}

fn main(rt: HostRuntime) -> Result<(), Fail> {
    let (found, before, kept, noted) = callers::<Brand, _>(
        &rt,
        rt.alloc(),
        Blank::new((1 << 63) + 1),
    )?;
    writeln!(
        rt.stdout(),
        "handed over {found}, counted from {before}, kept {kept}, noted {noted}"
    )?;
    Ok(())
}
