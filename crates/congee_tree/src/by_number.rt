//! The point calls by a `u64`; the count of reads is dropped.
//!
//! Tested in `test_owned` and `tools/dev/try-commands`.

ghost use Rattle.std.specs.Prelude.{◌≡◌, ◌+◌, ◌<◌, ◌≤◌, IsSome, option_copied};
ghost use Rattle.std.specs.Fn.{TakesAt};
ghost use Rattle.std.specs.Int.{to_be_bytes, w64};
ghost use Rattle.std.specs.Option.{ForSome};
ghost use Rattle.tree_edit.specs.Calls.{Asking, Calls, HasNoneAfter};
ghost use Rattle.tree_edit.specs.Tree.{ChargesForNodes};
ghost use Rattle.tree_edit.specs.TreeCalls.{Removes, Inserts, ComputesOrInserts, ComputesIfPresent, RemovesRun};
ghost use Rattle.tree_edit.specs.Closure.{TakesOption};
ghost use Rattle.spec_map.specs.Map.{Pairs, lookup, IsMap};

use crate::tree::RawCongee;
use node_table::allocator::Allocator;
use spec_map::error::OOMError;
use spec_map::payload::Payload;
use std::sync::ledger::{Blank, Ledger};
use tree_edit::receiver::{Asker, Receiver};
use tree_path::reads::ReadCount;

/// The payload at the key.
pub fn get<'a, L: Ledger, P: Payload, A: Allocator>(
    tree: &'a RawCongee<P, A>,
    key: u64,
    blank: Blank,
) -> Option<&'a P>
    requires name { blank.name ≡ L.name }
    requires parts { blank.parts ≡ L.parts }
    requires some { 0 < blank.parts }
    ensures { option_copied result ≡ lookup tree.now.pairs key }
{
    let mut reads = ReadCount::<L>::new(blank);
    tree.get(&key.to_be_bytes(), &mut reads)
}

/// Sets the payload at the key, and returns the previous one.
pub fn insert<L: Ledger, P: Payload, A: Allocator>(
    tree: &mut RawCongee<P, A>,
    key: u64,
    payload: P,
    blank: Blank,
) -> Result<Option<P>, OOMError>
    requires name { blank.name ≡ L.name }
    requires parts { blank.parts ≡ L.parts }
    requires some { 0 < blank.parts }
    ensures { Inserts A.charge tree.old key payload result tree.new }
{
    let mut reads = ReadCount::<L>::new(blank);
    tree.insert(&key.to_be_bytes(), payload, &mut reads)
}

/// Removes the key, and returns its payload.
pub fn remove<L: Ledger, P: Payload, A: Allocator>(
    tree: &mut RawCongee<P, A>,
    key: u64,
    blank: Blank,
) -> Option<P>
    requires name { blank.name ≡ L.name }
    requires parts { blank.parts ≡ L.parts }
    requires some { 0 < blank.parts }
    ensures { Removes A.charge tree.old key result tree.new }
{
    let mut reads = ReadCount::<L>::new(blank);
    tree.remove(&key.to_be_bytes(), &mut reads)
}

/// Removes the pair at the key, if it is there, and those that follow it in its leaf, below `end`, and hands each on.
pub fn extract_run<L: Ledger, P: Payload, A: Allocator, F, R: Receiver<P, F>>(
    tree: &mut RawCongee<P, A>,
    start: u64,
    key: u64,
    end: u64,
    f: &mut F,
    blank: Blank,
)
    requires name { blank.name ≡ L.name }
    requires parts { blank.parts ≡ L.parts }
    requires some { 0 < blank.parts }
    requires from { start ≤ key }
    requires below { key < end }
    requires first { HasNoneAfter tree.old.pairs start key }
    requires ready { R.ready f.old }
    ensures removes { RemovesRun A.charge tree.old start key end tree.new }
    ensures calls { Calls R.step start end f.old tree.old.pairs f.new tree.new.pairs }
    ensures ready { R.ready f.new }
{
    let mut reads = ReadCount::<L>::new(blank);
    tree.least = 0;
    tree.tree
        .extract_run::<L, F, R>(start, key, end, f, &mut reads);
    // (for the proof: brings the order of the keys into scope)
    let _ = tree.tree.table();
}

/// Asks about the pair at the key and those that follow it in its leaf, and removes those that aren't to stay. Returns the
/// key of the last.
pub fn keep_run<L: Ledger, P: Payload, A: Allocator, F, R: Asker<P, F>>(
    tree: &mut RawCongee<P, A>,
    start: u64,
    key: u64,
    f: &mut F,
    blank: Blank,
) -> u64
    requires name { blank.name ≡ L.name }
    requires parts { blank.parts ≡ L.parts }
    requires some { 0 < blank.parts }
    requires from { start ≤ key }
    requires there { IsSome (lookup tree.old.pairs key) }
    requires first { HasNoneAfter tree.old.pairs start key }
    requires ready { R.ready f.old }
    ensures asks { (f' : F) (first : Pairs P)
        → Asking R.step f' first f.old tree.old.pairs start
        → Asking R.step f' first f.new tree.new.pairs (result + 1) }
    ensures forward { key ≤ result }
    ensures charge { ChargesForNodes A.charge tree.old tree.new }
    ensures ready { R.ready f.new }
{
    let mut reads = ReadCount::<L>::new(blank);
    tree.least = 0;
    let last = tree.tree.keep_run::<L, F, R>(start, key, f, &mut reads);
    // (for the proof: brings the order of the keys into scope)
    let _ = tree.tree.table();
    last
}

/// Where the key is present, calls the closure, once, and stores what it returns; `None` removes the key. Returns the
/// previous payload.
pub fn compute_if_present<L: Ledger, P: Payload, A: Allocator, F: FnMut(&P) -> Option<P>>(
    tree: &mut RawCongee<P, A>,
    key: u64,
    f: &mut F,
    blank: Blank,
) -> Option<P>
    requires name { blank.name ≡ L.name }
    requires parts { blank.parts ≡ L.parts }
    requires some { 0 < blank.parts }
    requires call { ForSome (lookup tree.old.pairs key) (TakesAt F.FnMut f.old) }
    ensures ordered { IsMap tree.old.pairs }
    ensures computes { ComputesIfPresent A.charge tree.old key F.FnMut f.old result f.new tree.new }
{
    let mut reads = ReadCount::<L>::new(blank);
    tree.compute_if_present(&key.to_be_bytes(), f, &mut reads)
}

/// Calls the closure once, with the payload at the key if there is one, and stores what it returns. Returns the
/// previous payload.
pub fn compute_or_insert<L: Ledger, P: Payload, A: Allocator, F: FnMut(Option<&P>) -> P>(
    tree: &mut RawCongee<P, A>,
    key: u64,
    f: &mut F,
    blank: Blank,
) -> Result<Option<P>, OOMError>
    requires name { blank.name ≡ L.name }
    requires parts { blank.parts ≡ L.parts }
    requires some { 0 < blank.parts }
    requires call { TakesOption F.FnMut f.old (lookup tree.old.pairs key) }
    ensures { ComputesOrInserts A.charge tree.old key F.FnMut f.old result f.new tree.new }
{
    let mut reads = ReadCount::<L>::new(blank);
    tree.compute_or_insert(&key.to_be_bytes(), f, &mut reads)
}
