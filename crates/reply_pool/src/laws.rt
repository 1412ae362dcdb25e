//! What sums of moves mean, and what callers' own workers produce.

ghost use Rattle.std.specs.Prelude.{◌≡◌, ◌<◌, ◌≤◌, ℕ, List, length};
ghost use Rattle.draw_board.specs.Hands.{total_of};
ghost use Rattle.fuse_answer.specs.Puts.{sourced_by};
ghost use Rattle.reply_model.specs.declared.moves.Move.{Move};
ghost use Rattle.reply_rounds.specs.Batches.{batches};
ghost use Rattle.reply_rounds.specs.Sums.{AreSums};
ghost use Rattle.reply_rounds.specs.Workers.{AreWhole, IsLast, WorksAlone};

use devices::Contents;
use draw_board::{Board, Hand};
use fuse_answer::Served;
use fuse_wire::Request;
use reply_model::Session;
use reply_rounds::Piece;
use std::alloc::Allocator;

/// Moves have exactly one list of sums.
#[tactic(auto, using(reply_rounds::proofs::Ordered::one_form))]
pub fn sums_are_one()
    ensures { (moves xs ys : List Move) → AreSums moves xs → AreSums moves ys → xs ≡ ys }
{}

/// If hands share a board, with one table, the same jobs and one size of batches, draw only by
/// [`work`](crate::work), at least once and never without memory, and are then rejoined into the
/// last hand, which closes the board, their pieces are each batch once, and none is left out. In
/// the order of their numbers they have the bytes of [`round`](crate::round), and move of each node
/// what it sums up.
pub fn each_batch_once<A: Allocator, D: Contents, B: Allocator, C: Allocator>(
    served: Served<'_, A, D>,
    jobs: &[(Session, Request<'_>)],
    size: u32,
    board: &Board<B>,
    hand: &Hand,
    pieces: &[Piece<C>],
)
    requires some { 1 ≤ size }
    requires total { total_of board.now ≡ batches size (length jobs.now) }
    ensures { (calls draws : ℕ) →
        WorksAlone (sourced_by D.source served.entry) jobs.now size board.now hand.now pieces.now
        calls → 0 < calls → IsLast hand.now draws →
        AreWhole (sourced_by D.source served.entry) jobs.now size pieces.now }
{}
