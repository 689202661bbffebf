//! The calls for one payload of a leaf that has a slot.
//!
//! Tested in `test_owned` and `tools/dev/try-commands`.

ghost use Rattle.std.specs.Prelude.{◌≡◌, IfErr, IfNone, IfOk, IfSome, OnErr, None};
ghost use Rattle.tree_links.specs.LeafCalls.{HasLeafAt, HasNothing, HasRoomFor, IsFullFor, SetsPayload, TakesPayload};
ghost use Rattle.tree_links.specs.SeenTable.{name_of};

use crate::link::Link;
use crate::links::Links;
use crate::slots::{put_at, set_at, take_payload_at};

impl<P: Drop> Links<P> {
    /// Sets the payload under a byte of the leaf in a slot, where there is one or the leaf has room for one more, and
    /// returns the previous one. Otherwise returns the given payload as `Err`. Takes no memory, and searches the leaf
    /// once.
    #[inline(always)]
    pub fn set_payload(&mut self, slot: usize, byte: u8, payload: P) -> Result<Option<P>, P>
        requires { HasLeafAt self.old.table (name_of slot) }
        ensures set { IfOk result (λ before. SetsPayload self.old.table self.new.table
            (name_of slot) byte payload before) }
        ensures full { OnErr result (IsFullFor self.old.table (name_of slot) byte) }
        ensures same { OnErr result (self.new.table ≡ self.old.table) }
        ensures back { IfErr result (λ back. back ≡ payload) }
        ensures free { self.new.free ≡ self.old.free }
    {
        set_at(&mut self.nodes, slot, byte, payload)
    }

    /// Puts a payload under a byte of the leaf in a slot, which has room and nothing there. Takes no memory.
    pub fn put_payload(&mut self, slot: usize, byte: u8, payload: P)
        requires { HasRoomFor self.old.table (name_of slot) byte }
        ensures puts { SetsPayload self.old.table self.new.table (name_of slot) byte payload None }
        ensures free { self.new.free ≡ self.old.free }
    {
        put_at(&mut self.nodes, slot, byte, Link::Payload(payload), None);
    }

    /// Takes the payload under a byte of the leaf in a slot out, if there is one, and returns it. The leaf stays, though
    /// it may be empty then.
    #[inline(always)]
    pub fn take_payload(&mut self, slot: usize, byte: u8) -> Option<P>
        requires { HasLeafAt self.old.table (name_of slot) }
        ensures takes { IfSome result (λ before. TakesPayload self.old.table self.new.table
            (name_of slot) byte before) }
        ensures none { IfNone result (HasNothing self.old.table (name_of slot) byte) }
        ensures same { IfNone result (self.new.table ≡ self.old.table) }
        ensures free { self.new.free ≡ self.old.free }
    {
        take_payload_at(&mut self.nodes, slot, byte)
    }
}
