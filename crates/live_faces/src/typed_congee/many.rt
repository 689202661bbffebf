//! Insertions of many pairs, one by one.
//!
//! Tested in `test_live_faces`.
ghost use Rattle.std.specs.Prelude.{◌≡◌, IfErr, IsSomeAnd, OnOk, slice_get, take};
ghost use Rattle.live_nodes.specs.Known.{Known};
ghost use Rattle.live_updates.specs.Refusals.{FoundNone};
ghost use Rattle.live_faces.specs.Inserted.{HaveInserted};

use super::{Congee, Guard};
use face_typed::many::InsertManyError;
use spec_map::traits::Word;
use std::alloc::Global;
use std::sync::Wait;

impl<K: Word, V: Word> Congee<K, V> {
    /// Inserts the pairs in their order, each as `insert` does, at a moment of its own. So of two with one key the later one
    /// counts. If memory is missing for one of them, those before it are in the map, and the error has their number: the rest is left
    /// out, and may be inserted again from there. Pauses where too many writers come in between, and goes on.
    pub fn insert_many<R: Wait>(
        &self,
        rt: &R,
        alloc: Global,
        guard: &mut Guard,
        pairs: &[(K, V)],
    ) -> Result<(), InsertManyError>
        requires map { guard.old.book ≡ self.now }
        ensures map { guard.new.book ≡ guard.old.book }
        ensures inserted { OnOk result (HaveInserted K.number V.number pairs.now guard.old guard.new) }
        ensures refused { IfErr result (λ error. (m : Known)
            × HaveInserted K.number V.number (take error.inserted pairs.now) guard.old m
            × IsSomeAnd (slice_get pairs.now error.inserted)
            (λ pair. FoundNone m (K.number pair.0) guard.new)) }
    {
        for i in 0..pairs.len() {
            let pair = pairs[i];
            let Ok(_) = self.insert(rt, alloc, guard, pair.0, pair.1) else {
                return Err(InsertManyError { inserted: i });
            };
        }
        Ok(())
    }
}
