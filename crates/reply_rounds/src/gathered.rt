//! What the workers of a round return, and how it is appended to the bytes of a loop.

ghost use Rattle.std.specs.Prelude.{◌≡◌, ◌≤◌, ◌^◌, ◌++◌, ℕ, List, IfOk, OnOk};
ghost use Rattle.std.specs.List.{flat_map};
ghost use Rattle.reply_model.specs.declared.session.Session.{Session};
ghost use Rattle.reply_model.specs.Readings.{Sourced};
ghost use Rattle.reply_model.specs.Balances.{AreWithin, IsMoved, weight};
ghost use Rattle.serve_loop.specs.Rounds.{Answering, output, AppendsRound};
ghost use Rattle.reply_rounds.specs.Answers.{answering_from};
ghost use Rattle.reply_rounds.specs.Batches.{AreEachOnce, AreLight};
ghost use Rattle.reply_rounds.specs.Spread.{SpreadsFrom};

use crate::pieces::{Piece, sort_by_number};
use fuse_wire::Replies;
use reply_model::add_moves;
use serve_loop::RoundEnd;
use std::alloc::{AllocError, Allocator};

/// Some of the first messages of a stream, answered by workers.
#[derive(Drop)]
pub struct RoundPieces<A: Allocator> {
    /// Where they end.
    pub round: RoundEnd,
    /// The answers to their batches, in the order in which the workers ended.
    pub pieces: Vec<Piece<A>, A>,
}

/// What workers returned, to be appended.
pub trait Gathered {
    ghost whole: { Self → Type 0 };

    ghost answers: { Self → Answering → Session → List ℕ → Type 0 };

    /// Appends the replies, and adds the lookups that they move to the balances.
    fn append<A: Allocator>(
        self,
        replies: &mut Replies<A>,
        balances: &mut [i128],
    ) -> Result<RoundEnd, AllocError>
        requires whole { whole self }
        requires within { AreWithin (2 ^ 122) balances.old }
        ensures { IfOk result (λ round. (by : Answering) (s : Session) (stream : List ℕ) →
            answers self by s stream → AppendsRound by s stream round
            (output replies.old.items balances.old) (output replies.new.items balances.new)) };
}

impl<A: Allocator> Gathered for RoundPieces<A> {
    ghost whole = { λ spread. AreEachOnce spread.pieces.items × AreLight spread.pieces.items };

    ghost answers = { λ spread by s stream.
        (first : Session) × (over : Sourced) × (by ≡ answering_from first over)
        × SpreadsFrom over s stream spread };

    fn append<B: Allocator>(
        self,
        replies: &mut Replies<B>,
        balances: &mut [i128],
    ) -> Result<RoundEnd, AllocError> {
        let RoundPieces { round, mut pieces } = self;
        sort_by_number(&mut pieces);
        append_all(&pieces, replies, balances)?;
        Ok(round)
    }
}

// Appends the bytes of pieces one after another, and adds the lookups that they move to balances.
fn append_all<A: Allocator, B: Allocator>(
    pieces: &[Piece<A>],
    replies: &mut Replies<B>,
    balances: &mut [i128],
) -> Result<(), AllocError>
    requires light { weight (flat_map (λ piece. piece.moves.items) pieces.now) ≤ 2 ^ 112 }
    requires within { AreWithin (2 ^ 122) balances.old }
    ensures bytes { OnOk result (replies.new.items
        ≡ replies.old.items ++ flat_map (λ piece. piece.bytes.items) pieces.now) }
    ensures moves { OnOk result (IsMoved (flat_map (λ piece. piece.moves.items) pieces.now)
        balances.old balances.new) }
{
    for piece in pieces {
        replies.append(piece.bytes.as_slice())?;
        add_moves(balances, &piece.moves);
    }
    Ok(())
}
