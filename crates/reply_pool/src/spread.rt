//! A round of a stream, answered by several workers.
//!
//! The first messages of the stream are read as jobs, and the workers draw batches of these.
//! `reply_rounds` appends the pieces that they return to the loop's replies.

ghost use Rattle.std.specs.Prelude.{◌<◌, ◌≤◌, ◌^◌, ◌⊎◌, drop, length, IfOk};
ghost use Rattle.serve_loop.specs.declared.limits.TheConstants.{MAX_ROUND_MESSAGES};
ghost use Rattle.draw_board.specs.declared.limits.TheConstants.{MAX_BATCH};
ghost use Rattle.fuse_wire.specs.Stream.{IsRest};
ghost use Rattle.fuse_answer.specs.Puts.{sourced_by};
ghost use Rattle.reply_rounds.specs.Spread.{AreFirstJobs, SpreadsFrom};

use crate::workers::answer_batches;
use devices::Contents;
use draw_board::Gate;
use fuse_answer::{Served, after};
use fuse_wire::{Framed, Request, frame};
use reply_model::Session;
use reply_rounds::{Plan, RoundPieces};
use serve_loop::RoundEnd;
use std::alloc::{AllocError, Allocator};
use std::thread::Threads;

// The first messages of a stream as jobs, and where they end.
#[derive(Drop)]
struct Taken<'a, A: Allocator> {
    jobs: Vec<(Session, Request<'a>), A>,
    round: RoundEnd,
}

/// Answers this many of the first messages of a stream, or as many as are complete: 1 to 256 of
/// them, by workers of a plan. The batches are the plan's, or smaller to give each worker one.
/// `AllocError` only if memory is refused, in any thread.
pub fn spread_out<
    R: Threads + Sync,
    A: Allocator + Copy + Send + Sync,
    D: Contents + Sync,
    G: Gate + Sync,
>(
    rt: &R,
    alloc: A,
    served: Served<'_, A, D>,
    stream: &[u8],
    session: Session,
    messages: usize,
    plan: Plan,
    gate: &G,
) -> Result<RoundPieces<A>, AllocError>
    requires some { 1 ≤ messages }
    requires few { messages ≤ MAX_ROUND_MESSAGES }
    requires short { length stream.now ≤ 2 ^ 57 }
    ensures { IfOk result
        (λ spread. SpreadsFrom (sourced_by D.source served.entry) session stream.now spread) }
{
    let Taken { jobs, round } = take_jobs(alloc, stream, session, messages)?;
    let size = batch_size(plan, jobs.len());
    let pieces = answer_batches(rt, alloc, served, &jobs, size, plan.workers(), gate)?;
    Ok(RoundPieces { round, pieces })
}

// Reads this many of the first messages of a stream, or as many as are complete.
fn take_jobs<'a, A: Allocator>(
    alloc: A,
    stream: &'a [u8],
    session: Session,
    messages: usize,
) -> Result<Taken<'a, A>, AllocError>
    requires some { 1 ≤ messages }
    requires short { length stream.now ≤ 2 ^ 57 }
    ensures jobs { IfOk result
        (λ taken. AreFirstJobs session stream.now taken.round taken.jobs.items) }
    ensures few { IfOk result (λ taken. length taken.jobs.items ≤ messages) }
    ensures some { IfOk result (λ taken.
        (0 < taken.round.messages) ⊎ IsRest (drop taken.round.used stream.now)) }
{
    let mut jobs = Vec::with_capacity(alloc, messages)?;
    let mut round = RoundEnd {
        used: 0,
        messages: 0,
        session,
    };
    while round.messages < messages {
        let rest = &stream[round.used..];
        match frame(rest) {
            Framed::Whole(len) => {
                let request = Request::read(&rest[..len]);
                jobs.push((round.session, request))?;
                round.session = after(round.session, &request);
                round.used += len;
                round.messages += 1;
            }
            Framed::More => break,
            Framed::Bad(_) => break,
        }
    }
    Ok(Taken { jobs, round })
}

// How many jobs a batch has, if there are this many in all: the plan's number, or fewer.
fn batch_size(plan: Plan, jobs: usize) -> u32
    requires { jobs ≤ MAX_ROUND_MESSAGES }
    ensures some { 1 ≤ result }
    ensures few { result ≤ MAX_BATCH }
{
    let workers = plan.workers();
    let even = (jobs as u32 + workers - 1) / workers;
    plan.batch().min(even.max(1))
}
