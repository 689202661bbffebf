//! Pins and retirements in turn, at the counts where they meet.

ghost use Rattle.std.specs.Prelude.{◌≡◌, None};
ghost use Rattle.olc_words.specs.Epoch.{life_of};

use congee_olc::epoch::Pins;
use spec_map::error::OOMError;
use std::alloc::Global;
use std::test::Fail;

// The first wrong answer about a slot that is retired between two calls of one number.
fn wrong_answer(pins: &mut Pins) -> Result<Option<&'static str>, OOMError>
    requires { life_of pins.old 3 ≡ None }
{
    pins.seat(5)?;
    if !pins.is_seated(5) {
        return Ok(Some("the seat"));
    }
    if pins.pin(5).is_some() {
        return Ok(Some("a pin before the first call"));
    }
    pins.admit(3)?;
    pins.enter(5)?;
    if pins.pin(5) != Some(0) {
        return Ok(Some("the first call's pin"));
    }
    pins.retire(3);
    if pins.count() != 1 {
        return Ok(Some("the count"));
    }
    if pins.may_reclaim(3) {
        return Ok(Some("the slot before the first call has left"));
    }
    pins.leave(5);
    pins.enter(5)?;
    if !pins.may_reclaim(3) {
        return Ok(Some("the slot after the first call has left"));
    }
    pins.forget(3);
    if pins.may_reclaim(3) {
        return Ok(Some("the slot that was forgotten"));
    }
    pins.unseat(5);
    if pins.is_seated(5) {
        return Ok(Some("the seat that was given back"));
    }
    if pins.pin(5) != Some(1) {
        return Ok(Some("the second call's pin"));
    }
    Ok(None)
}

fn wrong_of_fresh(alloc: Global) -> Result<Option<&'static str>, OOMError> {
    let mut pins = Pins::new(alloc);
    wrong_answer(&mut pins)
}

#[test]
fn a_slot_waits_for_earlier_calls(rt: HostRuntime) -> Result<(), Fail> {
    assert!(rt; wrong_of_fresh(rt.alloc())?.is_none());
    Ok(())
}
