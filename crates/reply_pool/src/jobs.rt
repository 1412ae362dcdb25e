//! Requests that were read before, answered one after another.

ghost use Rattle.std.specs.Prelude.{◌≡◌, ◌+◌, ◌≤◌, ◌^◌, ◌++◌, ℕ, List, length, IfOk, OnOk};
ghost use Rattle.serve_loop.specs.declared.limits.TheConstants.{MAX_ROUND_MESSAGES};
ghost use Rattle.fuse_answer.specs.Puts.{AreSmall, sourced_by};
ghost use Rattle.reply_model.specs.Balances.{weight};
ghost use Rattle.reply_rounds.specs.Jobs.{IsReplyTo, IsRounded, moved_by};

use devices::Contents;
use fuse_answer::{Served, answer, moves};
use fuse_wire::{Replies, Request};
use reply_model::{Move, Session};
use reply_rounds::{Rounded, sums};
use std::alloc::{AllocError, Allocator};

// Answers jobs one after another.
pub(crate) fn answer_jobs<A: Allocator, D: Contents, B: Allocator + Copy>(
    alloc: B,
    served: Served<'_, A, D>,
    jobs: &[(Session, Request<'_>)],
) -> Result<Rounded<B>, AllocError>
    requires { length jobs.now ≤ MAX_ROUND_MESSAGES }
    ensures rounded { IfOk result
        (λ rounded. IsRounded (sourced_by D.source served.entry) jobs.now rounded) }
    ensures light { IfOk result (λ rounded. weight rounded.moves.items ≤ 2 ^ 104) }
{
    let mut bytes = Replies::new(alloc);
    let mut moved = Vec::new(alloc);
    for job in jobs {
        answer_job(served, job, &mut bytes, &mut moved)?;
    }
    let moves = sums(alloc, moved)?;
    Ok(Rounded { bytes, moves })
}

// Appends the reply to a job, and the lookups that it moves.
fn answer_job<A: Allocator, D: Contents, B: Allocator>(
    served: Served<'_, A, D>,
    job: &(Session, Request<'_>),
    bytes: &mut Replies<B>,
    moved: &mut Vec<Move, B>,
) -> Result<(), AllocError>
    ensures reply { OnOk result ((told : List ℕ) ×
        IsReplyTo (sourced_by D.source served.entry) job.now told
        × (bytes.new.items ≡ bytes.old.items ++ told)) }
    ensures moves { OnOk result
        (moved.new.items ≡ moved.old.items ++ moved_by served.entry.table.now job.now) }
    ensures few { OnOk result (length moved.new.items ≤ length moved.old.items + 2 ^ 32) }
    ensures small { AreSmall moved.old.items → AreSmall moved.new.items }
{
    let (session, request) = job;
    answer(served, *session, request, bytes)?;
    moves(served.table, *session, request, moved)
}
