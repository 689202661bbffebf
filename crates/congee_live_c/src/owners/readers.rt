//! Keys and their tickets: the next one, the one before, pages and counts, read while others write. `ranges` and `next_pair` describe
//! how pairs are found.
//!
//! A loan isn't touched by these calls. `congee_c_live_owners_lend` has the owner of a ticket.
//!
//! Tested in `tools/c-library`.

ghost use Rattle.std.specs.Prelude.{◌≡◌, ◌≢◌, ◌⊎◌, ℕ, ◌+◌, ◌≤◌, None, Some, length, take, pos};
ghost use Rattle.live_layout.specs.Page.{pairs_of};
ghost use Rattle.live_scans.specs.Scans.{GaveUp, HasNext, HasPage};
ghost use Rattle.live_scans.specs.Floors.{HasBefore};
ghost use Rattle.live_scans.specs.Descents.{HasPageDown};
ghost use Rattle.live_scans.specs.Counts.{HasCounted};
ghost use Rattle.live_owners.specs.Owners.{KnowsMore, IsLoan, RetiresNone};
ghost use Rattle.congee_live_c.specs.Answer.{busy, capped};
ghost use Rattle.congee_live_c.specs.Pairs.{pair_of};

use super::handle::Handle;
use crate::counts::narrowed;
use crate::next_pair::answer_pair;
use crate::{BUSY, Pair};
use live_growth::map::Busy;

/// Writes the owner of a ticket, which is lent to the handle then, to `owner` and answers 1, or answers 0 where the ticket is retired
/// or was never issued. The loan before ends. Takes constant time.
#[unsafe(no_mangle)]
pub extern "C" fn congee_c_live_owners_lend(
    handle: &mut Handle,
    ticket: u64,
    owner: &mut u64,
) -> i32
    ensures code { (result ≡ pos 0) ⊎ (result ≡ pos 1) }
    ensures map { KnowsMore handle.old.held handle.new.held }
    ensures tickets { handle.new.held.tickets ≡ handle.old.held.tickets }
    ensures retired { RetiresNone handle.old.held.owners handle.new.held.owners }
    ensures lent { result ≡ pos 1 → IsLoan handle.new.held.owners ticket owner.new }
    ensures kept { result ≡ pos 0 → owner.new ≡ owner.old }
    ensures place { handle.new.ptr ≡ handle.old.ptr }
{
    let held = handle.as_mut();
    match held.map.lend(&mut held.handle, ticket) {
        Some(lent) => {
            *owner = lent;
            1
        }
        None => 0,
    }
}

/// Writes the least key that is at least this one, and its ticket, to `pair` and answers 1, or answers 0 where there is none, or
/// `BUSY`. Takes no memory and no lock.
#[unsafe(no_mangle)]
pub extern "C" fn congee_c_live_owners_ceiling(
    handle: &mut Handle,
    key: u64,
    pair: &mut Pair,
) -> i32
    ensures code { (result ≡ pos 0) ⊎ (result ≡ pos 1) ⊎ (result ≡ busy) }
    ensures map { KnowsMore handle.old.held handle.new.held }
    ensures owners { handle.new.held.owners ≡ handle.old.held.owners }
    ensures present { result ≡ pos 1 → HasNext handle.old.held.tickets key
        (Some (pair_of pair.new)) handle.new.held.tickets }
    ensures absent { result ≡ pos 0
        → HasNext handle.old.held.tickets key None handle.new.held.tickets }
    ensures missed { result ≡ busy
        → GaveUp handle.old.held.tickets handle.new.held.tickets }
    ensures kept { result ≢ pos 1 → pair.new ≡ pair.old }
    ensures place { handle.new.ptr ≡ handle.old.ptr }
{
    let held = handle.as_mut();
    answer_pair(held.map.ceiling(&mut held.handle, key), pair)
}

/// Writes the greatest key that is at most this one, and its ticket, to `pair` and answers 1, or answers 0 where there is none, or
/// `BUSY`. Takes no memory and no lock.
#[unsafe(no_mangle)]
pub extern "C" fn congee_c_live_owners_floor(handle: &mut Handle, key: u64, pair: &mut Pair) -> i32
    ensures code { (result ≡ pos 0) ⊎ (result ≡ pos 1) ⊎ (result ≡ busy) }
    ensures map { KnowsMore handle.old.held handle.new.held }
    ensures owners { handle.new.held.owners ≡ handle.old.held.owners }
    ensures present { result ≡ pos 1 → HasBefore handle.old.held.tickets (key + 1)
        (Some (pair_of pair.new)) handle.new.held.tickets }
    ensures absent { result ≡ pos 0
        → HasBefore handle.old.held.tickets (key + 1) None handle.new.held.tickets }
    ensures missed { result ≡ busy
        → GaveUp handle.old.held.tickets handle.new.held.tickets }
    ensures kept { result ≢ pos 1 → pair.new ≡ pair.old }
    ensures place { handle.new.ptr ≡ handle.old.ptr }
{
    let held = handle.as_mut();
    answer_pair(held.map.floor(&mut held.handle, key), pair)
}

/// Writes keys from `start` to `last`, both included, with their tickets, keys ascending, as many as there are or as fit, and to
/// `out` how many. The buffer's entries after them are unspecified. If the buffer is full, the next page begins behind the last
/// key. Answers 0, or `BUSY`, after which all of the buffer is unspecified. Takes no memory and no lock.
#[unsafe(no_mangle)]
pub extern "C" fn congee_c_live_owners_range_inclusive(
    handle: &mut Handle,
    start: u64,
    last: u64,
    buffer: &mut [Pair],
    out: &mut u64,
) -> i32
    ensures code { (result ≡ pos 0) ⊎ (result ≡ busy) }
    ensures map { KnowsMore handle.old.held handle.new.held }
    ensures owners { handle.new.held.owners ≡ handle.old.held.owners }
    ensures count { result ≡ pos 0 → out.new ≤ length buffer.old }
    ensures page { result ≡ pos 0 → HasPage handle.old.held.tickets start (last + 1) (length buffer.old)
        (take out.new (pairs_of pair_of buffer.new)) handle.new.held.tickets }
    ensures missed { result ≡ busy → (out.new ≡ out.old)
        × GaveUp handle.old.held.tickets handle.new.held.tickets }
    ensures place { handle.new.ptr ≡ handle.old.ptr }
{
    let held = handle.as_mut();
    match held
        .map
        .range_inclusive(&mut held.handle, start, last, buffer)
    {
        Ok(written) => {
            *out = written as u64;
            0
        }
        Err(Busy) => BUSY,
    }
}

/// Writes keys from `last` down to `start`, both included, with their tickets, keys descending, as many as there are or as fit, and
/// to `out` how many. The buffer's entries after them are unspecified. If the buffer is full, the next page begins below the last
/// key. Answers 0, or `BUSY`, after which all of the buffer is unspecified. Takes no memory and no lock.
#[unsafe(no_mangle)]
pub extern "C" fn congee_c_live_owners_range_descending(
    handle: &mut Handle,
    start: u64,
    last: u64,
    buffer: &mut [Pair],
    out: &mut u64,
) -> i32
    ensures code { (result ≡ pos 0) ⊎ (result ≡ busy) }
    ensures map { KnowsMore handle.old.held handle.new.held }
    ensures owners { handle.new.held.owners ≡ handle.old.held.owners }
    ensures count { result ≡ pos 0 → out.new ≤ length buffer.old }
    ensures page { result ≡ pos 0 → HasPageDown handle.old.held.tickets start (last + 1) (length buffer.old)
        (take out.new (pairs_of pair_of buffer.new)) handle.new.held.tickets }
    ensures missed { result ≡ busy → (out.new ≡ out.old)
        × GaveUp handle.old.held.tickets handle.new.held.tickets }
    ensures place { handle.new.ptr ≡ handle.old.ptr }
{
    let held = handle.as_mut();
    match held
        .map
        .range_descending(&mut held.handle, start, last, buffer)
    {
        Ok(written) => {
            *out = written as u64;
            0
        }
        Err(Busy) => BUSY,
    }
}

/// Writes to `out` how many keys there are, which saturates at `u64::MAX`, and answers 0, or answers `BUSY`. Reads all nodes that
/// have tickets. Takes no memory and no lock.
#[unsafe(no_mangle)]
pub extern "C" fn congee_c_live_owners_count(handle: &mut Handle, out: &mut u64) -> i32
    ensures code { (result ≡ pos 0) ⊎ (result ≡ busy) }
    ensures map { KnowsMore handle.old.held handle.new.held }
    ensures owners { handle.new.held.owners ≡ handle.old.held.owners }
    ensures counted { result ≡ pos 0 → (number : ℕ) × (out.new ≡ capped number)
        × HasCounted handle.old.held.tickets number handle.new.held.tickets }
    ensures missed { result ≡ busy → (out.new ≡ out.old)
        × GaveUp handle.old.held.tickets handle.new.held.tickets }
    ensures place { handle.new.ptr ≡ handle.old.ptr }
{
    let held = handle.as_mut();
    match held.map.count(&mut held.handle) {
        Ok(number) => {
            *out = narrowed(number);
            0
        }
        Err(Busy) => BUSY,
    }
}
