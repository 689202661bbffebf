//! Whether a key is absent. A refused insertion asks for it.
//!
//! Tested in `test_live_faces`.
ghost use Rattle.std.specs.Prelude.{◌≡◌, false, IsTrue};
ghost use Rattle.live_updates.specs.Refusals.{FoundNone};

use crate::lookup::{Site, seek};
use live_growth::map::{Congee, Guard, TRIES};
use std::marker::Brand;

/// Whether a key is absent. Then a look-up of it is entered, which found none. `false` where it is present, or too many writers
/// came in between: then nothing is entered.
pub fn found_none(map: &Congee, guard: &mut Guard, key: u64) -> bool
    requires { guard.old.book ≡ map.now }
    ensures absent { IsTrue result → FoundNone guard.old key guard.new }
    ensures other { result ≡ false → guard.new ≡ guard.old }
{
    for _ in 0..TRIES {
        let last = &mut guard.room.last;
        match seek::<Brand>(&map.nodes, key, last, &mut guard.seat) {
            Some(Site::Absent) => return true,
            Some(Site::At(_, _)) => return false,
            None => {}
        }
    }
    false
}
