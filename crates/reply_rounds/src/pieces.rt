//! The answers to batches, and how they are put in order.

ghost use Rattle.std.specs.Prelude.{◌≡◌, ◌<◌, ◌^◌, IfOk};
ghost use Rattle.std.specs.List.{flat_map};
ghost use Rattle.reply_model.specs.Balances.{weight};
ghost use Rattle.reply_rounds.specs.Batches.{AreEachOnce, AreLight, AreOrdered, IsJoined};
ghost use Rattle.reply_rounds.specs.Sums.{AreSums};

use crate::by_node::sums;
use fuse_wire::Replies;
use reply_model::Move;
use std::alloc::{AllocError, Allocator};

/// The results of jobs, for a batch or an entire round.
#[derive(Drop)]
pub struct Rounded<A: Allocator> {
    /// The replies in the order of the jobs, one after another.
    pub bytes: Replies<A>,
    /// How many lookups of each node the jobs give, minus those that they take: in ascending order
    /// of nodes, each node once, and none with 0.
    pub moves: Vec<Move, A>,
}

/// The answer to a batch.
#[derive(Drop)]
pub struct Piece<A: Allocator> {
    /// The number of the batch.
    pub number: u32,
    /// The replies to its jobs, one after another.
    pub bytes: Replies<A>,
    /// How many lookups of each node its jobs give, minus those that they take: in ascending order
    /// of nodes, each node once, and none with 0.
    pub moves: Vec<Move, A>,
}

/// Joins pieces in the order of their numbers: their bytes one after another, and the sums of their
/// moves. Each number occurs once. `AllocError` only if memory is refused.
pub fn in_order<A: Allocator + Copy>(
    alloc: A,
    mut pieces: Vec<Piece<A>, A>,
) -> Result<Rounded<A>, AllocError>
    requires once { AreEachOnce pieces.items }
    requires light { AreLight pieces.items }
    ensures { IfOk result (λ rounded. IsJoined pieces.items rounded) }
{
    sort_by_number(&mut pieces);
    join_pieces(alloc, &pieces)
}

/// Puts pieces in the order of their numbers.
pub(crate) fn sort_by_number<A: Allocator>(pieces: &mut Vec<Piece<A>, A>)
    ensures { AreOrdered pieces.old.items pieces.new.items }
{
    pieces.sort_unstable_by_key(|piece| piece.number);
}

// The bytes of pieces one after another, and the sums of their moves.
fn join_pieces<A: Allocator + Copy>(alloc: A, pieces: &[Piece<A>]) -> Result<Rounded<A>, AllocError>
    requires { weight (flat_map (λ piece. piece.moves.items) pieces.now) < 2 ^ 127 }
    ensures bytes { IfOk result (λ rounded. rounded.bytes.items
        ≡ flat_map (λ piece. piece.bytes.items) pieces.now) }
    ensures moves { IfOk result (λ rounded.
        AreSums (flat_map (λ piece. piece.moves.items) pieces.now) rounded.moves.items) }
{
    let mut bytes = Replies::new(alloc);
    let mut moves = Vec::new(alloc);
    for piece in pieces {
        bytes.append(piece.bytes.as_slice())?;
        moves.extend_from_slice(&piece.moves)?;
    }
    let moves = sums(alloc, moves)?;
    Ok(Rounded { bytes, moves })
}
