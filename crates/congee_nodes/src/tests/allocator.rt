//! Each budget by its trait, at its limit.

use crate::allocator::{Allocator, Budget, DefaultAllocator};
use crate::base_node::{NodeSize, NodeType};
use std::test::Fail;

/// A form whose size is asked for, and whether it is granted.
type Asked = (NodeType, bool);

// The place of the first size that isn't granted as it should be, if there is one.
fn wrong_grant<A: Allocator>(allocator: &mut A, rows: &[Asked]) -> Option<usize> {
    for place in 0..rows.len() {
        let (form, granted) = rows[place];
        if allocator.allocate(NodeSize::of(form)).is_ok() != granted {
            return Some(place);
        }
    }
    None
}

const WITHIN: [Asked; 6] = [
    (NodeType::N256, true),
    (NodeType::N4, true),
    (NodeType::N16, false),
    (NodeType::N4, true),
    (NodeType::N4, true),
    (NodeType::N4, false),
];

#[test]
fn a_budget_grants_what_is_left(rt: HostRuntime) {
    let mut budget = Budget::new(2335);
    let wrong = wrong_grant(&mut budget, &WITHIN);
    assert!(rt; wrong.is_none() && budget.left() == 39);
}

#[test]
fn a_size_given_back_is_granted_again(rt: HostRuntime) -> Result<(), Fail> {
    let mut budget = Budget::new(64);
    budget.allocate(NodeSize::of(NodeType::N4))?;
    budget.deallocate(NodeSize::of(NodeType::N4));
    budget.allocate(NodeSize::of(NodeType::N4))?;
    assert!(rt; budget.left() == 0);
    Ok(())
}

const ALL: [Asked; 2] = [(NodeType::N256, true), (NodeType::N48, true)];

#[test]
fn the_default_grants_all(rt: HostRuntime) -> Result<(), Fail> {
    let mut allocator = DefaultAllocator {};
    assert!(rt; wrong_grant(&mut allocator, &ALL).is_none());
    allocator.deallocate(NodeSize::of(NodeType::N256));
    let _copy = allocator.clone()?;
    Ok(())
}
