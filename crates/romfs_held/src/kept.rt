//! What is kept of an image.

ghost use Rattle.std.specs.Prelude.{◌≡◌, ◌+◌, ◌*◌, ◌/◌, ◌%◌, ◌<◌, ◌≤◌, ◌^◌, length, take, IfOk, OnOk};
ghost use Rattle.romfs_held.specs.Blocks.{HasNumbers, IsCut, IsFollowed, IsKept, IsPadded, filled};

use crate::blocks::BLOCK_SIZE;
use crate::held::Held;
use crate::numbers::Stretches;
use std::alloc::{AllocError, Allocator};
use std::marker::Model;

/// What is kept of an image: some of its blocks of 16 bytes. A clause sees a list of bytes, those
/// of the blocks at their places and zeros between.
#[derive(Drop)]
pub struct Kept<A: Allocator> {
    size: u32,
    /// The numbers of the blocks, in rising order. None lies beyond the size.
    blocks: Vec<u32, A>,
    /// The bytes of the blocks, one block after the other.
    bytes: Vec<u8, A>,
    /// What is noted of the numbers.
    stretches: Stretches<A>,
}

impl<A: Allocator> Model for Kept<A> {
    ghost use Rattle.std.specs.Prelude.{List, ℕ};
    ghost use Rattle.romfs_held.specs.Blocks.{AreBelow, IsKept, filled};

    ghost Value = { List ℕ };

    ghost view = { λ kept. filled kept.size kept.blocks.items kept.bytes.items };

    ghost invariant = { λ kept. IsKept kept.blocks.items kept.bytes.items
        × AreBelow kept.size kept.blocks.items };
}

impl<A: Allocator + Copy> Kept<A> {
    /// Blocks of an image of this size in bytes: their numbers, rising, and the bytes of each, one
    /// after the other. Those beyond the size are dropped. Fails only if memory was refused.
    #[tactic(auto, using(crate::proofs::Fronts::filled_long))]
    pub fn new(
        alloc: A,
        size: u32,
        mut blocks: Vec<u32, A>,
        mut bytes: Vec<u8, A>,
    ) -> Result<Kept<A>, AllocError>
        requires { IsKept blocks.items bytes.items }
        ensures bytes { IfOk result (λ kept. kept ≡ filled size blocks.items bytes.items) }
        ensures size { IfOk result (λ kept. length kept ≡ size) }
    {
        let mut stretches = Stretches::new(alloc);
        cut(&stretches, &mut blocks, &mut bytes, size);
        stretches.note(&blocks)?;
        Ok(Kept {
            size,
            blocks,
            bytes,
            stretches,
        })
    }
}

impl<A: Allocator> Kept<A> {
    /// The image, to be read.
    #[tactic(auto, using(crate::proofs::Fronts::filled_long))]
    pub fn held(&self) -> Held<'_>
        ensures value { result ≡ self.now }
        ensures small { length self.now < 2 ^ 32 }
    {
        Held::sparse(self.size, self.stretches.beside(&self.blocks), &self.bytes)
    }

    /// Only the first bytes, this many. The blocks beyond them are dropped, with their memory if
    /// the allocator grants a smaller one.
    #[tactic(auto, using(crate::proofs::Fronts::filled_long, crate::proofs::Views::first_filled))]
    pub fn first(self, count: u32) -> Kept<A>
        requires { count ≤ length self }
        ensures value { result ≡ take count self }
        ensures length { length result ≡ count }
    {
        let Kept {
            mut blocks,
            mut bytes,
            mut stretches,
            ..
        } = self;
        cut(&stretches, &mut blocks, &mut bytes, count);
        stretches.keep_first(&blocks);
        blocks.shrink_to_fit();
        bytes.shrink_to_fit();
        Kept {
            size: count,
            blocks,
            bytes,
            stretches,
        }
    }

    /// The same image, followed by some bytes from a multiple of 16 on.
    pub fn followed(self, at: u32, tail: &[u8]) -> Result<Kept<A>, AllocError>
        requires behind { length self ≤ at }
        requires even { at % 16 ≡ 0 }
        requires small { at + length tail.now < 2 ^ 32 }
        ensures { IfOk result (IsFollowed self at tail.now) }
    {
        let mut blocks = self.blocks;
        let mut bytes = self.bytes;
        let mut stretches = self.stretches;
        let count = tail.len().div_ceil(BLOCK_SIZE);
        add_row(&mut blocks, at / 16, count as u32)?;
        add_padded(&mut bytes, tail)?;
        stretches.note(&blocks)?;
        Ok(Kept {
            size: at + tail.len() as u32,
            blocks,
            bytes,
            stretches,
        })
    }
}

/// Drops the blocks beyond a size.
fn cut<A: Allocator>(
    stretches: &Stretches<A>,
    blocks: &mut Vec<u32, A>,
    bytes: &mut Vec<u8, A>,
    size: u32,
)
    requires { IsKept blocks.old.items bytes.old.items }
    ensures { IsCut size blocks.old.items bytes.old.items blocks.new.items bytes.new.items }
{
    let end = ((u64::from(size) + 15) / 16) as u32;
    let count = stretches.beside(blocks).rank(end);
    blocks.truncate(count);
    bytes.truncate(count * BLOCK_SIZE);
}

/// Adds the numbers of this many blocks, from the first on.
fn add_row<A: Allocator>(blocks: &mut Vec<u32, A>, first: u32, count: u32) -> Result<(), AllocError>
    requires { first + count ≤ 2 ^ 28 }
    ensures { OnOk result (HasNumbers blocks.old.items first count blocks.new.items) }
{
    blocks.reserve_exact(count as usize)?;
    for number in 0..count {
        blocks.push(first + number)?;
    }
    Ok(())
}

/// Adds some bytes, and zeros up to the end of a block.
fn add_padded<A: Allocator>(bytes: &mut Vec<u8, A>, tail: &[u8]) -> Result<(), AllocError>
    requires { length bytes.old.items % 16 ≡ 0 }
    ensures { OnOk result (IsPadded bytes.old.items tail.now bytes.new.items) }
{
    bytes.reserve_exact(tail.len() + BLOCK_SIZE)?;
    bytes.extend_from_slice(tail)?;
    let whole = bytes.len().div_ceil(BLOCK_SIZE) * BLOCK_SIZE;
    bytes.resize(whole, 0)?;
    Ok(())
}
