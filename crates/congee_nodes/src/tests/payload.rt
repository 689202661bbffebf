//! Both kinds of payload through their trait.

use crate::payload::Payload;
use std::process::Abort;
use std::sync::Arc;
use std::test::Fail;

// Whether a shared value is the same as the first.
fn shares<P: Payload>(rt: &impl Abort, payload: &P, same: bool) -> Result<P, Fail> {
    let shared = payload.share()?;
    assert_eq!(rt; payload.same(&shared), same);
    Ok(shared)
}

#[test]
fn numbers_are_the_same_by_value(rt: HostRuntime) -> Result<(), Fail> {
    assert_eq!(rt; shares(&rt, &42u64, true)?, 42);
    assert!(rt; !42u64.same(&43));
    Ok(())
}

#[test]
fn owners_share_what_they_hold(rt: HostRuntime) -> Result<(), Fail> {
    let owner = Arc::new(rt.alloc(), 7u8)?;
    let other = shares(&rt, &owner, false)?;
    assert_eq!(rt; *other, 7);
    Ok(())
}
