//! One worker.

ghost use Rattle.std.specs.Prelude.{◌≡◌, ◌≤◌, length, IfOk};
ghost use Rattle.serve_loop.specs.declared.limits.TheConstants.{MAX_ROUND_MESSAGES};
ghost use Rattle.draw_board.specs.declared.limits.TheConstants.{MAX_BATCH};
ghost use Rattle.draw_board.specs.Hands.{IsHandOf, total_of};
ghost use Rattle.fuse_answer.specs.Puts.{sourced_by};
ghost use Rattle.reply_rounds.specs.Batches.{AreLight, batches};
ghost use Rattle.reply_rounds.specs.Workers.{HasWorked, KeepsHand};

use crate::jobs::answer_jobs;
use devices::Contents;
use draw_board::{Board, Gate, Hand, Work};
use fuse_answer::Served;
use fuse_wire::Request;
use reply_model::Session;
use reply_rounds::{Piece, Rounded, batch};
use std::alloc::{AllocError, Allocator};
use std::thread::Threads;

/// Draws batches from a board until none is left, and answers those drawn, in that order. The gate
/// is passed before the first answer of each.
///
/// The jobs are requests, each with the session before it: at most 256, in batches of 1 to 256;
/// number k has those from k times `size` on. The board's total is the number of batches. Threads
/// may share one board, each with a hand of its own. `AllocError` only if memory is refused; what
/// was drawn until then remains with the hand, and no other worker answers it.
pub fn work<
    R: Threads + Sync,
    A: Allocator,
    D: Contents,
    B: Allocator + Copy,
    C: Allocator,
    G: Gate,
>(
    _rt: &R,
    alloc: B,
    served: Served<'_, A, D>,
    jobs: &[(Session, Request<'_>)],
    size: u32,
    board: &Board<C>,
    hand: &mut Hand,
    gate: &G,
) -> Result<Vec<Piece<B>, B>, AllocError>
    requires few { length jobs.now ≤ MAX_ROUND_MESSAGES }
    requires size { (1 ≤ size) × (size ≤ MAX_BATCH) }
    requires total { total_of board.now ≡ batches size (length jobs.now) }
    requires hand { IsHandOf board.now hand.old }
    ensures hand { KeepsHand board.now hand.old hand.new }
    ensures pieces { IfOk result
        (λ pieces. HasWorked (sourced_by D.source served.entry) jobs.now size board.now hand.old
        hand.new pieces.items) }
    ensures light { IfOk result (λ pieces. AreLight pieces.items) }
{
    let mut pieces = Vec::new(alloc);
    while let Some(number) = board.draw(hand) {
        gate.pass(Work::Batch, number);
        let Rounded { bytes, moves } = answer_jobs(alloc, served, batch(jobs, size, number))?;
        pieces.push(Piece {
            number,
            bytes,
            moves,
        })?;
    }
    Ok(pieces)
}
