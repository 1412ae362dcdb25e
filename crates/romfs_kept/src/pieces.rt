//! Blocks as they are read: in any order, and some more than once.
//!
//! The list of them doubles when it is full. From 65,536 blocks on it is first sorted, and repeated
//! blocks are dropped. It therefore holds at most that many, or twice the distinct blocks. All
//! sorting together takes n log n steps in the blocks that were added, in any order.

ghost use Rattle.std.specs.Prelude.{◌≡◌, ◌+◌, ◌/◌, ◌<◌, ◌≤◌, ◌^◌, length, OnOk};
ghost use Rattle.romfs_held.specs.declared.blocks.TheConstants.{BLOCK_SIZE};
ghost use Rattle.romfs_kept.specs.Pieces.{IsFewer, IsSortedOut, IsOneMore, HasRow};

use romfs_held::BLOCK_SIZE;
use std::alloc::{AllocError, Allocator};

/// The fewest blocks that room is made for.
const LEAST_ROOM: usize = 64;

/// The fewest blocks of which repeats are dropped. Only headers that overlap repeat a block.
const MANY: usize = 65_536;

/// A block of an image.
#[derive(Clone, Copy)]
pub struct Piece {
    /// Its number, from 0 on.
    pub block: u32,
    pub bytes: [u8; BLOCK_SIZE],
}

/// Puts pieces in the order of their blocks.
pub fn sort<A: Allocator>(pieces: &mut Vec<Piece, A>)
    ensures { IsSortedOut pieces.old.items pieces.new.items }
{
    pieces.sort_unstable_by_key(|piece| piece.block);
}

/// Adds as many blocks from the first on as some bytes have.
pub fn add_row<A: Allocator>(
    pieces: &mut Vec<Piece, A>,
    first: u32,
    bytes: &[u8],
) -> Result<(), AllocError>
    requires few { length bytes.now ≤ 4096 }
    requires first { first < 2 ^ 28 + 2 ^ 16 }
    ensures { OnOk result (HasRow pieces.old.items first bytes.now (length bytes.now / BLOCK_SIZE)
        pieces.new.items) }
{
    for i in 0..bytes.len() / BLOCK_SIZE {
        let from = i * BLOCK_SIZE;
        let piece = piece_of(first + i as u32, &bytes[from..from + BLOCK_SIZE]);
        add(pieces, piece)?;
    }
    Ok(())
}

/// A block of these bytes.
fn piece_of(block: u32, bytes: &[u8]) -> Piece
    requires { length bytes.now ≡ BLOCK_SIZE }
    ensures block { result.block ≡ block }
    ensures bytes { result.bytes ≡ bytes.now }
{
    let mut held = [0; BLOCK_SIZE];
    held.copy_from_slice(bytes);
    Piece { block, bytes: held }
}

/// Adds a piece.
fn add<A: Allocator>(pieces: &mut Vec<Piece, A>, piece: Piece) -> Result<(), AllocError>
    ensures { OnOk result (IsOneMore pieces.old.items piece pieces.new.items) }
{
    make_room(pieces)?;
    pieces.push(piece)?;
    Ok(())
}

/// Makes room for one more, if there is none.
fn make_room<A: Allocator>(pieces: &mut Vec<Piece, A>) -> Result<(), AllocError>
    ensures { OnOk result (IsFewer pieces.old.items pieces.new.items) }
{
    if pieces.len() < pieces.capacity() {
        return Ok(());
    }
    if pieces.len() >= MANY {
        drop_repeats(pieces);
    }
    let count = pieces.len().max(LEAST_ROOM);
    pieces.reserve(count)
}

/// Leaves each block once.
fn drop_repeats<A: Allocator>(pieces: &mut Vec<Piece, A>)
    ensures { IsFewer pieces.old.items pieces.new.items }
{
    sort(pieces);
    pieces.dedup_by_key(|piece| piece.block);
}
