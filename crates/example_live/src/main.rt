//! Two callers of a map that threads read without a lock, and what each knows by its guard. The program runs them.
#![tactic(auto)]

mod hand_over;

use crate::hand_over::hand_over;
use congee_live::Congee;
use std::io::Write;
use std::test::Fail;

fn main(rt: HostRuntime) -> Result<(), Fail> {
    let map: Congee<u64, u64> = Congee::new(rt.alloc())?;
    let mut giver = map.pin();
    let mut taker = map.pin();
    let found = hand_over(&rt, rt.alloc(), &map, &mut giver, &mut taker, 1, 42)?;
    if let Some(value) = found {
        writeln!(rt.stdout(), "handed over {value}")?;
    }
    Ok(())
}
