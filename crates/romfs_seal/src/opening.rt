//! Reading what is kept of a tree, and checking it against the digest.

ghost use Rattle.std.specs.Prelude.{◌≡◌, ◌⊎◌, ◌+◌, ◌*◌, ◌<◌, ◌≤◌, ◌^◌, false, length, IfOk, IfErr, IsTrue};
ghost use Rattle.devices.specs.Tree.{AreBytes, HasLevels, blocks_above, above, root, tree_blocks};
ghost use Rattle.devices.specs.File.{blocks_of};
ghost use Rattle.romfs_seal.specs.Digests.{digest_bytes};
ghost use Rattle.romfs_seal.specs.declared.opening.SealFault.TheVariants.{Memory, Unread as NotRead};
ghost use Rattle.devices.specs.Seal.{IsTop, MayBeFirst, MayBeKept, MayBeOnly, kept_len, lowest_place};
ghost use Rattle.devices.specs.Honest.{IsTampered};

use crate::files::NamedFiles;
use crate::filling::BLOCK;
use crate::sealed::Sealed;
use crate::{Digest, descriptor_of};
use devices::{Algorithm, Unread};
use std::alloc::{AllocError, Allocator};

/// The size that no file reaches.
const TOO_LARGE: u64 = 1 << 63;

/// Why a sealed image was not opened.
#[derive(Clone, Copy, Debug, PartialEq, Eq)]
pub enum SealFault {
    /// The size is larger than that of any file.
    Length,
    /// A read failed, or was short.
    Unread,
    /// Memory was refused.
    Memory,
    /// The digest differs.
    Digest,
}

impl From<AllocError> for SealFault {
    ghost from_gives = { λ _ fault. fault ≡ Memory };

    fn from(_error: AllocError) -> SealFault {
        SealFault::Memory
    }
}

impl From<Unread> for SealFault {
    ghost from_gives = { λ _ fault. fault ≡ NotRead };

    fn from(_error: Unread) -> SealFault {
        SealFault::Unread
    }
}

/// How many levels are above this many blocks.
fn level_count(algorithm: Algorithm, blocks: u64) -> u64
    requires { blocks ≤ 2 ^ 51 }
    ensures has { HasLevels algorithm blocks result }
    ensures few { result ≤ 9 }
{
    if blocks <= 1 {
        0
    } else {
        1 + level_count(algorithm, algorithm.blocks_above(blocks))
    }
}

/// How many blocks this many levels have.
fn tree_blocks(algorithm: Algorithm, levels: u64, blocks: u64) -> u64
    requires levels { levels ≤ 9 }
    requires blocks { blocks ≤ 2 ^ 51 }
    ensures count { result ≡ tree_blocks algorithm levels blocks }
    ensures few { result ≤ blocks + levels }
{
    if levels == 0 {
        return 0;
    }
    let upper = algorithm.blocks_above(blocks);
    tree_blocks(algorithm, levels - 1, upper) + upper
}

/// Where the lowest hash blocks begin.
fn lowest_place(algorithm: Algorithm, levels: u64, blocks: u64) -> u64
    requires levels { levels ≤ 9 }
    requires blocks { blocks ≤ 2 ^ 51 }
    ensures place { result ≡ lowest_place algorithm levels blocks }
    ensures near { result ≤ 2 ^ 62 }
{
    if levels == 0 {
        return 0;
    }
    BLOCK as u64 * tree_blocks(algorithm, levels - 1, algorithm.blocks_above(blocks))
}

/// A digest in memory.
fn held_digest<A: Allocator>(alloc: A, digest: &Digest) -> Result<Vec<u8, A>, AllocError>
    ensures { IfOk result (λ held. held.items ≡ digest_bytes digest.now) }
{
    let mut held = Vec::new(alloc);
    held.extend_from_slice(digest.as_bytes())?;
    Ok(held)
}

/// The level above some blocks.
fn above<F: NamedFiles, A: Allocator>(
    alloc: A,
    files: &F,
    bytes: &[u8],
    blocks: u64,
) -> Result<Vec<u8, A>, AllocError>
    requires few { blocks ≤ 2 ^ 51 }
    requires whole { length bytes.now ≡ 4096 * blocks }
    ensures value { IfOk result (λ upper. upper.items
        ≡ above (F.seal files.now).algorithm (F.seal files.now).hash bytes.now blocks) }
    ensures long { IfOk result (λ upper.
        length upper.items ≡ 4096 * blocks_above (F.seal files.now).algorithm blocks) }
{
    let mut digests = Vec::new(alloc);
    for i in 0..blocks {
        let at = i as usize * BLOCK;
        digests.extend_from_slice(files.hash(&bytes[at..at + BLOCK]).as_bytes())?;
    }
    digests.resize(files.algorithm().blocks_above(blocks) as usize * BLOCK, 0)?;
    Ok(digests)
}

/// The digest at the top, this many levels above some blocks.
fn root_over<F: NamedFiles, A: Allocator + Copy>(
    alloc: A,
    files: &F,
    bytes: &[u8],
    blocks: u64,
    levels: u64,
) -> Result<Digest, AllocError>
    requires few { blocks ≤ 2 ^ 51 }
    requires whole { length bytes.now ≡ 4096 * blocks }
    ensures { IfOk result (λ top. digest_bytes top
        ≡ root (F.seal files.now).algorithm (F.seal files.now).hash levels bytes.now blocks) }
{
    if levels == 0 {
        return Ok(files.hash(bytes));
    }
    let next = above(alloc, files, bytes, blocks)?;
    root_over(
        alloc,
        files,
        &next,
        files.algorithm().blocks_above(blocks),
        levels - 1,
    )
}

/// The digest of the only block; zeros if there are no bytes.
fn only_digest<F: NamedFiles, A: Allocator>(alloc: A, files: &F) -> Result<Vec<u8, A>, SealFault>
    requires { (F.seal files.now).size ≤ 4096 }
    ensures ok { IfOk result (λ kept.
        MayBeOnly (F.seal files.now) (F.seal files.now).size kept.items) }
    ensures err { IfErr result (λ fault. (fault ≡ Memory) ⊎ IsTampered (F.seal files.now)) }
{
    let size = files.size();
    if size == 0 {
        let mut zeros = Vec::new(alloc);
        zeros.resize(files.algorithm().digest_size(), 0)?;
        return Ok(zeros);
    }
    let mut block = [0u8; BLOCK];
    files.fill_image(&mut block, size as usize, 0)?;
    Ok(held_digest(alloc, &files.hash(&block))?)
}

/// The digest of the only hash block.
fn first_digest<F: NamedFiles, A: Allocator>(alloc: A, files: &F) -> Result<Vec<u8, A>, SealFault>
    requires { HasLevels (F.seal files.now).algorithm (blocks_of (F.seal files.now).size) 1 }
    ensures ok { IfOk result (λ kept. MayBeFirst (F.seal files.now) kept.items) }
    ensures err { IfErr result (λ fault. (fault ≡ Memory) ⊎ IsTampered (F.seal files.now)) }
{
    let mut block = [0u8; BLOCK];
    files.fill_tree(&mut block, 0)?;
    Ok(held_digest(alloc, &files.hash(&block))?)
}

/// The level above the lowest hash blocks.
fn upper_level<F: NamedFiles, A: Allocator>(
    alloc: A,
    files: &F,
    levels: u64,
) -> Result<Vec<u8, A>, SealFault>
    requires small { (F.seal files.now).size < 2 ^ 63 }
    requires many { 2 ≤ levels }
    requires few { levels ≤ 9 }
    requires has { HasLevels (F.seal files.now).algorithm
        (blocks_of (F.seal files.now).size) levels }
    ensures ok { IfOk result (λ kept. MayBeKept (F.seal files.now) levels kept.items) }
    ensures err { IfErr result (λ fault. (fault ≡ Memory) ⊎ IsTampered (F.seal files.now)) }
{
    let algorithm = files.algorithm();
    let blocks = (files.size() + 4095) / 4096;
    let count = algorithm.blocks_above(algorithm.blocks_above(blocks));
    let mut kept = Vec::new(alloc);
    kept.resize(count as usize * BLOCK, 0)?;
    files.read_tree(
        &mut kept[..],
        BLOCK as u64 * tree_blocks(algorithm, levels - 2, count),
    )?;
    Ok(kept)
}

/// What is kept of the tree.
fn load_kept<F: NamedFiles, A: Allocator>(
    alloc: A,
    files: &F,
    levels: u64,
) -> Result<Vec<u8, A>, SealFault>
    requires small { (F.seal files.now).size < 2 ^ 63 }
    requires few { levels ≤ 9 }
    requires has { HasLevels (F.seal files.now).algorithm
        (blocks_of (F.seal files.now).size) levels }
    ensures ok { IfOk result (λ kept. MayBeKept (F.seal files.now) levels kept.items) }
    ensures err { IfErr result (λ fault. (fault ≡ Memory) ⊎ IsTampered (F.seal files.now)) }
{
    if levels == 0 {
        only_digest(alloc, files)
    } else if levels == 1 {
        first_digest(alloc, files)
    } else {
        upper_level(alloc, files, levels)
    }
}

/// Whether the reported digest is the one over what is kept of a tree.
fn is_top<F: NamedFiles, A: Allocator + Copy>(
    alloc: A,
    files: &F,
    kept: &[u8],
    levels: u64,
) -> Result<bool, AllocError>
    requires small { (F.seal files.now).size < 2 ^ 63 }
    requires long { length kept.now ≡ kept_len (F.seal files.now).algorithm levels
        (blocks_of (F.seal files.now).size) }
    ensures is { IfOk result (λ is. IsTrue is → IsTop (F.seal files.now) levels kept.now) }
    ensures not { IfOk result (λ is. is ≡ false → IsTop (F.seal files.now) levels kept.now → ⊥) }
    ensures bytes { AreBytes kept.now }
{
    let algorithm = files.algorithm();
    let size = files.size();
    if levels < 2 {
        return Ok(files.is_described(&descriptor_of(alloc, algorithm, size, kept)?));
    }
    let count = algorithm.blocks_above(algorithm.blocks_above((size + 4095) / 4096));
    let top = root_over(alloc, files, kept, count, levels - 2)?;
    Ok(files.is_described(&descriptor_of(alloc, algorithm, size, top.as_bytes())?))
}

impl<F: NamedFiles + Drop, A: Allocator + Copy> Sealed<F, A> {
    /// Opens a file under its digest. The level above the lowest hash blocks of its tree is read,
    /// and what is computed from it is compared with the digest; the lowest ones are read later. It
    /// fails only if memory was refused, if a read failed, or if the files are not the named ones.
    ///
    /// The size is part of the digest, as the tree is: hash blocks that are shown as the data of a
    /// shorter file have the same root hash.
    ///
    /// Memory is taken for a 16,384th of the bytes, with SHA-512 for a 4,096th; and while the
    /// digest is computed, for a 128th of that, or a 64th.
    pub fn open(alloc: A, files: F) -> Result<Sealed<F, A>, SealFault>
        ensures ok { IfOk result (λ opened. opened.files ≡ files) }
        ensures err { IfErr result (λ fault. (fault ≡ Memory) ⊎ IsTampered (F.seal files)) }
    {
        let size = files.size();
        if size >= TOO_LARGE {
            return Err(SealFault::Length);
        }
        let algorithm = files.algorithm();
        let blocks = (size + 4095) / 4096;
        let levels = level_count(algorithm, blocks);
        let kept = load_kept(alloc, &files, levels)?;
        if !is_top(alloc, &files, &kept, levels)? {
            return Err(SealFault::Digest);
        }
        let lowest = lowest_place(algorithm, levels, blocks);
        Ok(Sealed {
            files,
            levels,
            lowest,
            kept,
        })
    }
}
