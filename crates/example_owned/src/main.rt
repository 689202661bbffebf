//! Sets a key of a map, and looks it up.
#![tactic(auto)]

ghost use Rattle.std.specs.Prelude.{◌≡◌, Some, IfOk, OnErr};

use congee_owned::{Congee, DefaultAllocator, OOMError};
use spec_map::laws::lookup_after_put;

/// Sets the value at the key, and looks it up. Where there is no memory, the map keeps its pairs.
fn set_and_get(map: &mut Congee<u64, u64>, key: u64, value: u64) -> Result<Option<u64>, OOMError>
    ensures got { IfOk result (λ got. got ≡ Some value) }
    ensures kept { OnErr result (map.new.pairs ≡ map.old.pairs) }
{
    lookup_after_put::<u64>();
    map.insert(key, value)?;
    Ok(map.get(&key))
}

fn main(rt: HostRuntime) -> anyhow::Result<()> {
    let mut map = Congee::new(rt.alloc(), DefaultAllocator {})?;
    if let Some(value) = set_and_get(&mut map, 1, 42)? {
        println!(rt; "{value}")?;
    }
    Ok(())
}
