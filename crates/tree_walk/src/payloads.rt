//! The payloads of a leaf, taken one by one from an iterator of any form, the first or the last of them.
//!
//! Tested in `test_owned` and `tools/dev/try-commands`.

ghost use Rattle.std.specs.Prelude.{◌≡◌, ℕ, List, [], ◌∷◌, IfSome, IfNone};

use crate::backward::{last_4, last_16, last_48, last_256};
use node_base::iter::{Node4Iter, Node16Iter, Node48Iter, Node256Iter};

/// The remaining payloads in their order, each with the last byte of its key.
pub(crate) trait Payloads: Drop {
    ghost use Rattle.std.specs.Prelude.{ℕ, List};

    ghost left: { Self → List (ℕ × ℕ) };

    /// Takes the first.
    fn take_first(&mut self) -> Option<(u8, u64)>
        ensures none { IfNone result (left self.old ≡ []) }
        ensures some { IfSome result (λ found. left self.old ≡ (found.0, found.1) ∷ left self.new) };
}

impl Payloads for Node4Iter<'_, u64> {
    ghost use Rattle.node_base.specs.Rest.{rest_4};

    ghost left = { rest_4 };

    fn take_first(&mut self) -> Option<(u8, u64)> {
        let (byte, value) = self.next()?;
        Some((byte, *value))
    }
}

impl Payloads for Node16Iter<'_, u64> {
    ghost use Rattle.node_base.specs.Rest.{rest_16};

    ghost left = { rest_16 };

    fn take_first(&mut self) -> Option<(u8, u64)> {
        let (byte, value) = self.next()?;
        Some((byte, *value))
    }
}

impl Payloads for Node48Iter<'_, u64> {
    ghost use Rattle.node_base.specs.Rest.{rest_48};

    ghost left = { rest_48 };

    fn take_first(&mut self) -> Option<(u8, u64)> {
        let (byte, value) = self.next()?;
        Some((byte, *value))
    }
}

impl Payloads for Node256Iter<'_, u64> {
    ghost use Rattle.node_base.specs.Rest.{rest_256};

    ghost left = { rest_256 };

    fn take_first(&mut self) -> Option<(u8, u64)> {
        let (byte, value) = self.next()?;
        Some((byte, *value))
    }
}

/// The payloads that an iterator has yet to return, the last first.
#[derive(Drop)]
pub(crate) struct Backward<I> {
    pub(crate) payloads: I,
}

impl Payloads for Backward<Node4Iter<'_, u64>> {
    ghost use Rattle.std.specs.Prelude.{reverse};
    ghost use Rattle.node_base.specs.Rest.{rest_4};

    ghost left = { λ b. reverse (rest_4 b.payloads) };

    fn take_first(&mut self) -> Option<(u8, u64)> {
        let (byte, value) = last_4(&mut self.payloads)?;
        Some((byte, *value))
    }
}

impl Payloads for Backward<Node16Iter<'_, u64>> {
    ghost use Rattle.std.specs.Prelude.{reverse};
    ghost use Rattle.node_base.specs.Rest.{rest_16};

    ghost left = { λ b. reverse (rest_16 b.payloads) };

    fn take_first(&mut self) -> Option<(u8, u64)> {
        let (byte, value) = last_16(&mut self.payloads)?;
        Some((byte, *value))
    }
}

impl Payloads for Backward<Node48Iter<'_, u64>> {
    ghost use Rattle.std.specs.Prelude.{reverse};
    ghost use Rattle.node_base.specs.Rest.{rest_48};

    ghost left = { λ b. reverse (rest_48 b.payloads) };

    fn take_first(&mut self) -> Option<(u8, u64)> {
        let (byte, value) = last_48(&mut self.payloads)?;
        Some((byte, *value))
    }
}

impl Payloads for Backward<Node256Iter<'_, u64>> {
    ghost use Rattle.std.specs.Prelude.{reverse};
    ghost use Rattle.node_base.specs.Rest.{rest_256};

    ghost left = { λ b. reverse (rest_256 b.payloads) };

    fn take_first(&mut self) -> Option<(u8, u64)> {
        let (byte, value) = last_256(&mut self.payloads)?;
        Some((byte, *value))
    }
}
