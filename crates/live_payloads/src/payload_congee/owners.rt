//! What owners have beside other payloads: a further one.
ghost use Rattle.std.specs.Prelude.{◌≡◌, Some, IfOk};
ghost use Rattle.std.specs.Option.{option_map};
ghost use Rattle.std.specs.Arc.{arc_value};

use std::alloc::AllocError;
use std::sync::Arc;
use word_slots::lent::Lent;

/// A further owner of what the owner in a slot owns, which may outlive the map. `AllocError` if there are as many owners as can
/// be counted.
pub fn share<V: Drop>(lent: &Lent<'_, Arc<V>>) -> Result<Arc<V>, AllocError>
    ensures { IfOk result (λ owner. option_map (λ it. arc_value it) lent.now.value ≡ Some (arc_value owner)) }
{
    Arc::try_clone(lent.get())
}
