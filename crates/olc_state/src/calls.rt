//! The records of calls in flight, and the room reserved for later ones. All code that makes a place, fills it or
//! removes it is here; an event changes a record where it is.
//!
//! Tested in `test_olc` and `tools/dev/try-schedules`.

ghost use Rattle.std.specs.Prelude.{◌≡◌, Some, None, IsSome, IsOk, OnOk, OnErr, option_copied};
ghost use Rattle.olc_words.specs.Epoch.{entry_at};
ghost use Rattle.olc_state.specs.inner.World.{record_in};
ghost use Rattle.olc_state.specs.inner.Places.{ChangesPlace};

use crate::stage::Record;
use spec_map::error::OOMError;
use std::collections::BTreeMap;

/// A place for each number that has a call in flight or room for one.
pub type Places<P> = BTreeMap<u64, Option<Record<P>>>;

/// The record of a number's call in flight.
pub fn call_at<P: Drop>(places: &Places<P>, id: u64) -> Option<&Record<P>>
    ensures { option_copied result ≡ record_in (entry_at places.now.entries id) }
{
    match places.get(&id) {
        Some(Some(call)) => Some(call),
        _ => None,
    }
}

/// Makes a place for a number that has no call in flight. A refusal changes nothing.
pub fn reserve<P: Drop>(places: &mut Places<P>, id: u64) -> Result<(), OOMError>
    ensures ok { OnOk result (ChangesPlace places.old.entries places.new.entries id (Some None)) }
    ensures err { OnErr result (places.new.entries ≡ places.old.entries) }
{
    places.insert(id, None)?;
    Ok(())
}

/// Puts a record into a number's place, and makes the place where there is none. Only that may be refused, and then
/// nothing changes.
pub fn put<P: Drop>(places: &mut Places<P>, id: u64, call: Record<P>) -> Result<(), OOMError>
    ensures ok { OnOk result
        (ChangesPlace places.old.entries places.new.entries id (Some (Some call))) }
    ensures err { OnErr result (places.new.entries ≡ places.old.entries) }
    ensures granted { IsSome (entry_at places.old.entries id) → IsOk result }
{
    match places.get_mut(&id) {
        Some(place) => *place = Some(call),
        None => {
            places.insert(id, Some(call))?;
        }
    }
    Ok(())
}

/// Removes a number's place.
pub fn forget<P: Drop>(places: &mut Places<P>, id: u64)
    ensures { ChangesPlace places.old.entries places.new.entries id None }
{
    places.remove(&id);
}
