//! Which request the tests' allocator refuses.

use std::alloc::{AllocError, Allocator};
use std::test::Fail;
use std::thread::{Threads, join};
use test_kit::refusing::Refusing;

const NUMBERS: [u64; 9] = [3, 1, 4, 1, 5, 9, 2, 6, 5];

fn push_all<A: Allocator>(held: &mut Vec<u64, A>) -> Result<(), AllocError> {
    for number in &NUMBERS {
        held.push(*number)?;
    }
    Ok(())
}

fn count_pushed<A: Allocator>(alloc: A) -> Result<usize, AllocError> {
    let mut held = Vec::new(alloc);
    push_all(&mut held)?;
    Ok(held.len())
}

fn count_in_two<R: Threads, A: Allocator + Copy + Send + Sync>(
    rt: &R,
    alloc: A,
) -> (Result<usize, AllocError>, Result<usize, AllocError>) {
    join(rt, move || count_pushed(alloc), move || count_pushed(alloc))
}

/// How many numbers a list holds when only this request refuses its growth; none if it never is
/// refused.
fn held_at<A: Allocator>(alloc: A, refuse_at: u64) -> Result<Option<usize>, AllocError> {
    let refusing = Refusing::new(alloc, refuse_at);
    let mut held = Vec::new(&refusing);
    let refused = push_all(&mut held).is_err();
    let length = held.len();
    let is_told = refusing.refused() && refusing.requests() == refuse_at;
    let is_front = NUMBERS.starts_with(&held);
    held.push(7)?;
    Ok((refused && is_told && is_front).then_some(length))
}

#[test]
fn refuses_each_growth_in_turn(rt: HostRuntime) {
    for (refuse_at, length) in [(1, Some(0)), (2, Some(4)), (3, Some(8)), (4, None)] {
        assert!(rt;
            held_at(rt.alloc(), refuse_at) == Ok(length),
            "at {refuse_at}"
        );
    }
}

#[test]
fn refuses_none_at_zero(rt: HostRuntime) -> Result<(), Fail> {
    let refusing = Refusing::new(rt.alloc(), 0);
    assert_eq!(rt; count_pushed(&refusing)?, NUMBERS.len());
    assert_eq!(rt; refusing.requests(), 3);
    assert!(rt; !refusing.refused());
    Ok(())
}

#[test]
fn refuses_one_of_two_threads(rt: HostRuntime) {
    let refusing = Refusing::new(rt.alloc(), 1);
    let (left, right) = count_in_two(&rt, &refusing);
    assert_ne!(rt; left.is_err(), right.is_err());
    assert_eq!(rt; refusing.requests(), 4);
}
