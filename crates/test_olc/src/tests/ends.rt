//! A node whose version is at its last value.

ghost use Rattle.std.specs.Prelude.{◌≡◌, None};
ghost use Rattle.spec_olc.specs.Meaning.{op_of};
ghost use Rattle.olc_state.specs.inner.Effects.{returned_at};
ghost use Rattle.olc_state.specs.inner.Facts.{IsSoundWorld};
ghost use Rattle.olc_machine.specs.inner.Inside.{meant_in};

use node_table::allocator::{Allocator, DefaultAllocator};
use olc_machine::inner::Inner;
use olc_words::lock::Word64;
use spec_map::error::OOMError;
use spec_olc::payload::HasMeaning;
use spec_olc::types::{Env, Op, Outcome, Reply, Seen};
use std::alloc::Global;
use std::test::Fail;

// The word of a free node of version 2^62 - 1.
const LAST: u64 = u64::MAX - 3;

// Gives the node in a slot the last version, and returns true, if it is free and no call is in flight.
fn age<P: HasMeaning, A: Allocator>(machine: &mut Inner<P, A>, slot: usize) -> bool
    requires sound { IsSoundWorld P.always_shared P.same_meaning
        (meant_in P.meaning A.charge machine.old) }
    ensures sound { IsSoundWorld P.always_shared P.same_meaning
        (meant_in P.meaning A.charge machine.new) }
{
    if !machine.calls.is_empty() {
        return false;
    }
    let Some(node) = machine.stock.store.nodes.get(slot) else {
        return false;
    };
    if !node.word.is_free() {
        return false;
    }
    if node.word.number() > LAST {
        return false;
    }
    machine
        .stock
        .store
        .set_word(slot, Word64::from_number(LAST));
    true
}

fn plain<P>() -> Env<P> {
    Env {
        torn: Seen {
            child: None,
            count: 0,
            full: false,
        },
        fail: false,
        answer: None,
    }
}

// Starts a call, and makes its events, at most as many. How many they were, and the value that it replied with, if it
// was decided; `None` if the number has a call in flight.
fn course<P: HasMeaning, A: Allocator>(
    machine: &mut Inner<P, A>,
    id: u64,
    op: Op<P>,
    most: u64,
) -> Result<Option<(u64, Option<Option<P>>)>, OOMError>
    requires sound { IsSoundWorld P.always_shared P.same_meaning
        (meant_in P.meaning A.charge machine.old) }
    requires returns { returned_at (op_of P.meaning op) ≡ None }
    ensures sound { IsSoundWorld P.always_shared P.same_meaning
        (meant_in P.meaning A.charge machine.new) }
{
    if machine.is_in_flight(id) {
        return Ok(None);
    }
    machine.begin(id, op, None)?;
    let mut events = 1u64;
    let mut reply = None;
    for _ in 1..most {
        if !machine.is_in_flight(id) {
            break;
        }
        if let (_, Outcome::Decided(Reply::Old(old))) = machine.proceed(id, plain()) {
            reply = Some(old);
        }
        events = events.wrapping_add(1);
    }
    Ok(Some((events, reply)))
}

// The courses of an insertion into an empty machine; then, with the leaf at its last version, of a get, of an insertion
// that is stopped, and of a get beside it; and whether the content is then that of the first insertion.
fn courses(
    alloc: Global,
) -> Result<([Option<(u64, Option<Option<u64>>)>; 4], bool, bool), OOMError> {
    let mut machine = Inner::new(alloc, DefaultAllocator {})?;
    let first = course(&mut machine, 0, Op::Insert(1, 42), 100)?;
    let aged = age(&mut machine, 1);
    let found = course(&mut machine, 1, Op::Get(1), 100)?;
    let stopped = course(&mut machine, 2, Op::Insert(1, 43), 1000)?;
    let beside = course(&mut machine, 3, Op::Get(1), 100)?;
    let content = machine.content(alloc)?;
    let stays = content.len() == 1 && content[0] == (1, 42);
    Ok(([first, found, stopped, beside], aged, stays))
}

#[test]
fn a_leaf_of_the_last_version_is_read_and_never_written(rt: HostRuntime) -> Result<(), Fail> {
    let (courses, aged, stays) = courses(rt.alloc())?;
    assert!(rt; aged && stays);
    assert_eq!(rt;
        courses,
        [
            Some((9, Some(None))),
            Some((9, Some(Some(42)))),
            Some((1000, None)),
            Some((9, Some(Some(42)))),
        ]
    );
    Ok(())
}
