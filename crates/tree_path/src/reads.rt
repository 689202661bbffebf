//! Counting the nodes that calls read.
//!
//! Tested in `test_owned` and `tools/dev/try-commands`.

ghost use Rattle.std.specs.Prelude.{◌≡◌, ◌+◌, ◌<◌};

use std::marker::Model;
use std::sync::ledger::{Blank, Book, Ledger, Share};

/// How many nodes were read. Takes no bytes, and counting takes no time.
///
/// `L` names the count, as it does for the tokens of `sync::ledger`, which the count is made of.
#[derive(Drop)]
pub struct ReadCount<L: Ledger> {
    read: Book<L>,
    share: Share<L>,
}

impl<L: Ledger> Model for ReadCount<L> {
    ghost use Rattle.std.specs.Prelude.{ℕ, ◌<◌};

    ghost Value = { ℕ };

    ghost view = { λ r. r.read.total };

    ghost invariant = { λ r. 0 < r.share.parts };
}

impl<L: Ledger> ReadCount<L> {
    /// A count of none, from a blank with a part at least.
    pub fn new(blank: Blank) -> Self
        requires name { blank.name ≡ L.name }
        requires parts { blank.parts ≡ L.parts }
        requires some { 0 < blank.parts }
        ensures { result ≡ 0 }
    {
        let (read, share) = blank.open::<L>();
        ReadCount { read, share }
    }

    /// Counts one node more.
    pub fn tick(&mut self)
        ensures { self.new ≡ self.old + 1 }
    {
        self.read.add(&mut self.share, 1);
    }
}
