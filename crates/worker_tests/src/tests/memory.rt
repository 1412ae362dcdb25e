//! Each request for memory of a call is refused in turn, in any thread.

use super::answers::appended;
use super::batches::{Jobs, round_of};
use super::threads::pieces_of;
use stack_core::FreePass;
use std::alloc::{AllocError, Global};
use std::test::Fail;
use std::thread::Threads;
use test_kit::memories::{Memories, refuse_in_turn};

#[derive(Clone, Copy)]
enum Call {
    /// A round by this many workers, in batches of this many.
    Round((u32, u32)),
    /// One worker that answers all batches.
    Work,
    /// The answer to the request with this index, or the lookups that it moves.
    Answer(usize),
    Moves(usize),
}

/// Whether an answer, or the lookups that it moves, is appended in full, or nothing if memory was
/// refused. The first request is for what precedes it.
fn is_left<R: Threads + Sync>(rt: &R, memories: &Memories, index: usize, moves: bool) -> bool {
    let whole = appended(rt, &Memories::new(memories.global, 0), index, moves);
    let left = appended(rt, memories, index, moves);
    match left {
        None => memories.refuse_at == 1,
        Some((true, _)) => !memories.refusing.refused() && left == whole,
        Some((false, appended)) => memories.refusing.refused() && appended == 0,
    }
}

/// Whether a call reports that memory was refused, or otherwise returns the right result.
fn is_told<R: Threads + Sync>(rt: &R, memories: &Memories, call: Call) -> bool {
    let refusing = &memories.refusing;
    match call {
        Call::Round(plan) => match round_of(rt, memories, Jobs::Lookups, plan) {
            Some(Ok((is_right, _))) => !refusing.refused() && is_right,
            Some(Err(AllocError)) => refusing.refused(),
            None => false,
        },
        Call::Work => match pieces_of(rt, memories, 12, &FreePass) {
            Some(Ok((pieces, draws))) => !refusing.refused() && pieces == 4 && draws == 5,
            Some(Err(AllocError)) => refusing.refused(),
            None => false,
        },
        Call::Answer(index) => is_left(rt, memories, index, false),
        Call::Moves(index) => is_left(rt, memories, index, true),
    }
}

/// How many requests a call makes, each of which is refused once.
fn requests_of<R: Threads + Sync>(rt: &R, global: Global, call: Call) -> Result<u64, u64> {
    refuse_in_turn(global, |memories| is_told(rt, memories, call))
}

#[test]
fn rounds_and_workers_are_refused(rt: HostRuntime) {
    for plan in [(1, 1), (2, 3), (5, 1)] {
        let requests = requests_of(&rt, rt.alloc(), Call::Round(plan));
        assert!(rt; matches!(requests, Ok(9..)), "{plan:?}: {requests:?}");
    }
    let requests = requests_of(&rt, rt.alloc(), Call::Work);
    assert!(rt; matches!(requests, Ok(5..)), "{requests:?}");
}

#[test]
fn answers_and_moves_are_refused(rt: HostRuntime) -> Result<(), Fail> {
    let alloc = rt.alloc();
    let mut all = (0usize, 0usize);
    for index in 0..10 {
        requests_of(&rt, alloc, Call::Answer(index))?;
        requests_of(&rt, alloc, Call::Moves(index))?;
        let memories = Memories::new(alloc, 0);
        let (_, bytes) = appended(&rt, &memories, index, false).ok_or("an answer")?;
        let (_, moves) = appended(&rt, &memories, index, true).ok_or("the moves")?;
        all = (all.0.saturating_add(bytes), all.1.saturating_add(moves));
    }
    assert!(rt; all == (1648, 10));
    Ok(())
}
