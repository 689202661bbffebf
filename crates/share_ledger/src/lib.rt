//! Bookings that the ledger of std doesn't have: by more than a `u64`. Modulo `2^128` they subtract.
//!
//! Tested in `share_maps`.
#![tactic(auto)]

ghost use Rattle.std.specs.Prelude.{◌≡◌, ◌+◌, ◌-◌, ◌^◌, ◌<◌, ◌≤◌};

use std::sync::ledger::{Book, Ledger, Share};

/// Adds `2^128 - 2^64` to a share and to the total: modulo `2^128` it subtracts `2^64` from both.
fn take_word<L: Ledger>(book: &mut Book<L>, share: &mut Share<L>)
    requires { 0 < share.old.parts }
    ensures total { book.new.total ≡ book.old.total + (2 ^ 128 - 2 ^ 64) }
    ensures amount { share.new.amount ≡ share.old.amount + (2 ^ 128 - 2 ^ 64) }
    ensures parts { share.new.parts ≡ share.old.parts }
{}

/// Adds `2^128 - 1` to a share and to the total: modulo `2^128` it subtracts 1 from both.
pub fn take_one<L: Ledger>(book: &mut Book<L>, share: &mut Share<L>)
    requires { 0 < share.old.parts }
    ensures total { book.new.total ≡ book.old.total + (2 ^ 128 - 1) }
    ensures amount { share.new.amount ≡ share.old.amount + (2 ^ 128 - 1) }
    ensures parts { share.new.parts ≡ share.old.parts }
{
    take_word(book, share);
    book.add(share, u64::MAX);
}

/// Books that so many pairs of `before` are left: modulo `2^128` it subtracts their difference from a share and from the
/// total.
pub fn take_to<L: Ledger>(book: &mut Book<L>, share: &mut Share<L>, before: u128, after: u128)
    requires backed { 0 < share.old.parts }
    requires fewer { after ≤ before }
    requires few { before ≤ after + 2 ^ 64 }
    ensures total { after < before
        → book.new.total ≡ book.old.total + (2 ^ 128 - (before - after)) }
    ensures same { after ≡ before → book.new.total ≡ book.old.total }
    ensures parts { share.new.parts ≡ share.old.parts }
{
    let taken = before - after;
    if taken > 0 {
        take_word(book, share);
        book.add(share, ((1 << 64) - taken) as u64);
    }
}

/// Books that so many pairs have become of `before`: it adds their difference to a share and to the total.
pub fn add_to<L: Ledger>(book: &mut Book<L>, share: &mut Share<L>, before: u128, after: u128)
    requires backed { 0 < share.old.parts }
    requires more { before ≤ after }
    requires few { after ≤ before + 2 ^ 64 }
    ensures total { book.new.total ≡ book.old.total + (after - before) }
    ensures parts { share.new.parts ≡ share.old.parts }
{
    // (2^64 at most, so that each half is a `u64`)
    let added = after - before;
    let half = added / 2;
    book.add(share, half as u64);
    book.add(share, (added - half) as u64);
}
