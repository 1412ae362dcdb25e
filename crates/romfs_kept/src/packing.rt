//! Blocks that are put in order, and their bytes one after another.

ghost use Rattle.std.specs.Prelude.{◌≡◌, ◌-◌, ◌<◌, ◌≤◌, length, get_or, IsTrue, IsFalse, IfOk};
ghost use Rattle.std.specs.List.Sorted.{IsNonDecreasingBy};
ghost use Rattle.romfs_held.specs.declared.blocks.TheConstants.{BLOCK_SIZE};
ghost use Rattle.romfs_kept.specs.declared.pieces.Piece.{Piece};
ghost use Rattle.romfs_kept.specs.Pieces.{IsFilled, IsPacked};

use crate::pieces::{Piece, sort};
use romfs_held::{BLOCK_SIZE, Kept};
use std::alloc::{AllocError, Allocator};

/// The numbers of blocks, rising, and the bytes of these blocks.
#[derive(Drop)]
pub struct Packed<A: Allocator> {
    pub blocks: Vec<u32, A>,
    pub bytes: Vec<u8, A>,
}

/// What is kept of an image of this size, by its blocks.
pub fn pack<A: Allocator + Copy>(
    alloc: A,
    size: u32,
    mut pieces: Vec<Piece, A>,
) -> Result<Kept<A>, AllocError>
    ensures size { IfOk result (λ kept. length kept ≡ size) }
    ensures bytes { IfOk result (IsFilled pieces.items size) }
{
    sort(&mut pieces);
    let packed = pack_sorted(alloc, &pieces)?;
    Kept::new(alloc, size, packed.blocks, packed.bytes)
}

/// Each block once, and its bytes.
fn pack_sorted<A: Allocator + Copy>(alloc: A, pieces: &[Piece]) -> Result<Packed<A>, AllocError>
    requires { IsNonDecreasingBy (λ (x : Piece). x.block) pieces.now }
    ensures { IfOk result (λ packed. IsPacked pieces.now packed.blocks.items packed.bytes.items) }
{
    let mut blocks = Vec::with_capacity(alloc, pieces.len())?;
    let mut bytes = Vec::with_capacity(alloc, pieces.len() * BLOCK_SIZE)?;
    for piece in pieces {
        if !is_above(&blocks, piece.block) {
            continue;
        }
        blocks.push(piece.block)?;
        bytes.extend_from_slice(bytes_of(piece))?;
    }
    Ok(Packed { blocks, bytes })
}

/// The bytes of a block.
fn bytes_of(piece: &Piece) -> &[u8]
    ensures value { result.now ≡ piece.now.bytes }
    ensures whole { length result.now ≡ BLOCK_SIZE }
{
    &piece.bytes
}

/// Whether a block is above the last one.
fn is_above(blocks: &[u32], block: u32) -> bool
    ensures yes { IsTrue result → 0 < length blocks.now →
        get_or blocks.now (length blocks.now - 1) 0 < block }
    ensures no { IsFalse result → (0 < length blocks.now)
        × (block ≤ get_or blocks.now (length blocks.now - 1) 0) }
{
    match blocks.last() {
        None => true,
        Some(last) => *last < block,
    }
}
