//! Reading under a digest.

ghost use Rattle.std.specs.Prelude.{◌≡◌, ◌+◌, ◌-◌, ◌*◌, ◌/◌, ◌%◌, ◌<◌, ◌≤◌, ◌^◌, ◌++◌, ℕ, List, length, take, drop, min, IfOk, OnOk, OnErr};
ghost use Rattle.devices.specs.Tree.{fan};
ghost use Rattle.devices.specs.File.{blocks_of};
ghost use Rattle.devices.specs.Read.{IsUnmatched, AreRead};
ghost use Rattle.romfs_seal.specs.Kept.{IsOpened, IsLeaf, first_under, run_end};
ghost use Rattle.devices.specs.Honest.{IsTampered};

use crate::files::{NamedFiles, has_digest};
use crate::filling::BLOCK;
use devices::{Algorithm, Contents, Unread};
use std::alloc::Allocator;

/// A file whose digest is known. The digests of the lowest hash blocks of its tree are kept; those
/// blocks are read on demand.
#[derive(Drop)]
pub struct Sealed<F: NamedFiles, A: Allocator> {
    pub(crate) files: F,
    pub(crate) levels: u64,
    // Where the lowest hash blocks begin in the tree's file.
    pub(crate) lowest: u64,
    pub(crate) kept: Vec<u8, A>,
    ghost opened: { IsOpened (F.seal files) levels lowest kept.items },
}

impl<F: NamedFiles, A: Allocator> Sealed<F, A> {
    /// Reads the digests that are in one hash block with this block's.
    fn load_leaf(&self, block: u64, leaf: &mut [u8]) -> Result<(), Unread>
        requires long { length leaf.old ≡ 4096 }
        requires within { block < blocks_of (F.seal self.now.files).size }
        ensures ok { OnOk result (IsLeaf (F.seal self.now.files)
            (first_under (F.seal self.now.files).algorithm block) leaf.new) }
        ensures err { OnErr result (IsTampered (F.seal self.now.files)) }
    {
        if self.levels == 0 {
            put_front(leaf, &self.kept);
            return Ok(());
        }
        let index = block / self.files.algorithm().fan();
        self.files
            .fill_tree(leaf, self.lowest + BLOCK as u64 * index)?;
        if has_digest(&self.files, &self.kept, index as usize, leaf) {
            Ok(())
        } else {
            Err(Unread)
        }
    }

    /// Reads a block into its final place.
    fn read_whole(
        &self,
        leaf: &[u8],
        first: u64,
        index: u64,
        block: &mut [u8],
    ) -> Result<(), Unread>
        requires long { length block.old ≡ 4096 }
        requires within { index < blocks_of (F.seal self.now.files).size }
        requires from { first ≤ index }
        requires under { index < first + fan (F.seal self.now.files).algorithm }
        requires leaf { IsLeaf (F.seal self.now.files) first leaf.now }
        ensures ok { OnOk result (AreRead (F.seal self.now.files) (4096 * index)
            (take (min 4096 ((F.seal self.now.files).size - 4096 * index)) block.new)) }
        ensures err { OnErr result (IsTampered (F.seal self.now.files)) }
    {
        let place = BLOCK as u64 * index;
        let count = (BLOCK as u64).min(self.files.size() - place) as usize;
        self.files.fill_image(block, count, place)?;
        if has_digest(&self.files, leaf, (index - first) as usize, block) {
            Ok(())
        } else {
            Err(Unread)
        }
    }

    /// Reads a part of a block: the block is read in full, and its part is copied.
    fn read_part(&self, leaf: &[u8], first: u64, place: u64, room: &mut [u8]) -> Result<(), Unread>
        requires some { place < (F.seal self.now.files).size }
        requires within { place + length room.old ≤ (F.seal self.now.files).size }
        requires part { place % 4096 + length room.old ≤ 4096 }
        requires from { 4096 * first ≤ place }
        requires under { place < 4096 * (first + fan (F.seal self.now.files).algorithm) }
        requires leaf { IsLeaf (F.seal self.now.files) first leaf.now }
        ensures ok { OnOk result (AreRead (F.seal self.now.files) place room.new) }
        ensures err { OnErr result (IsTampered (F.seal self.now.files)) }
    {
        let mut block = [0u8; BLOCK];
        self.read_whole(leaf, first, place / BLOCK as u64, &mut block)?;
        copy_part(&block, (place % BLOCK as u64) as usize, room);
        Ok(())
    }

    /// Reads bytes of one block.
    fn read_piece(&self, leaf: &[u8], first: u64, place: u64, room: &mut [u8]) -> Result<(), Unread>
        requires some { place < (F.seal self.now.files).size }
        requires within { place + length room.old ≤ (F.seal self.now.files).size }
        requires part { place % 4096 + length room.old ≤ 4096 }
        requires from { 4096 * first ≤ place }
        requires under { place < 4096 * (first + fan (F.seal self.now.files).algorithm) }
        requires leaf { IsLeaf (F.seal self.now.files) first leaf.now }
        ensures ok { OnOk result (AreRead (F.seal self.now.files) place room.new) }
        ensures err { OnErr result (IsTampered (F.seal self.now.files)) }
    {
        if room.len() == BLOCK {
            self.read_whole(leaf, first, place / BLOCK as u64, room)
        } else {
            self.read_part(leaf, first, place, room)
        }
    }

    /// Reads bytes whose blocks have their digests in one hash block.
    fn read_run(&self, leaf: &[u8], first: u64, place: u64, room: &mut [u8]) -> Result<(), Unread>
        requires within { place + length room.old ≤ (F.seal self.now.files).size }
        requires from { 4096 * first ≤ place }
        requires under { place + length room.old
            ≤ 4096 * (first + fan (F.seal self.now.files).algorithm) }
        requires leaf { IsLeaf (F.seal self.now.files) first leaf.now }
        ensures ok { OnOk result (AreRead (F.seal self.now.files) place room.new) }
        ensures err { OnErr result (IsTampered (F.seal self.now.files)) }
    {
        let mut done = 0;
        while done < room.len() {
            let at = place + done as u64;
            let left = BLOCK - (at % BLOCK as u64) as usize;
            let count = left.min(room.len() - done);
            self.read_piece(leaf, first, at, &mut room[done..done + count])?;
            done += count;
        }
        Ok(())
    }

    /// Reads a hash block, and then bytes whose blocks have their digests in it.
    fn read_under(&self, place: u64, room: &mut [u8]) -> Result<(), Unread>
        requires some { place < (F.seal self.now.files).size }
        requires within { place + length room.old ≤ (F.seal self.now.files).size }
        requires run { place + length room.old ≤ run_end (F.seal self.now.files).algorithm place }
        ensures ok { OnOk result (AreRead (F.seal self.now.files) place room.new) }
        ensures err { OnErr result (IsTampered (F.seal self.now.files)) }
    {
        let mut leaf = [0u8; BLOCK];
        let block = place / BLOCK as u64;
        self.load_leaf(block, &mut leaf)?;
        self.read_run(&leaf, first_of(self.files.algorithm(), block), place, room)
    }

    /// Reads bytes, each run of them under its hash block.
    fn read_all(&self, place: u64, room: &mut [u8]) -> Result<(), Unread>
        requires within { place + length room.old ≤ (F.seal self.now.files).size }
        ensures ok { OnOk result (AreRead (F.seal self.now.files) place room.new) }
        ensures err { OnErr result (IsTampered (F.seal self.now.files)) }
    {
        let mut done = 0;
        while done < room.len() {
            let at = place + done as u64;
            let left = (end_of_run(self.files.algorithm(), at) - at) as usize;
            let count = left.min(room.len() - done);
            self.read_under(at, &mut room[done..done + count])?;
            done += count;
        }
        Ok(())
    }

    /// Puts the bytes from an offset on at the front of the room, and returns how many: as many as
    /// there is room for, or all up to the end. `Unread` if a read failed or was short, or if a
    /// block or the hash block over it does not have the digest that it should have; the room is
    /// then unspecified.
    ///
    /// It takes no memory. It reads each block that it touches once, and the lowest hash block over
    /// them once for each 512 KiB, with SHA-512 for each 256 KiB.
    pub fn read_at(&self, room: &mut [u8], offset: u64) -> Result<usize, Unread>
        ensures count { IfOk result (λ count. count ≡ min (length room.old)
            ((F.seal self.now.files).size - offset)) }
        ensures read { IfOk result (λ count.
            AreRead (F.seal self.now.files) offset (take count room.new)) }
        ensures unmatched { IfOk result (λ count. (xs : List ℕ) →
            IsUnmatched (F.seal self.now.files) xs →
            take count room.new ≡ take count (drop offset xs)) }
        ensures err { OnErr result (IsTampered (F.seal self.now.files)) }
    {
        let size = self.files.size();
        if offset >= size {
            return Ok(0);
        }
        let count = room.len().min((size - offset) as usize);
        self.read_all(offset, &mut room[..count])?;
        Ok(count)
    }
}

/// The bytes shown are those of the file with the digest, if no read gives, instead of a block,
/// another with the same digest. Reads give bytes that the digest vouches for. A read fails only if
/// one of the files does, or if these are not the named ones.
impl<F: NamedFiles, A: Allocator> Contents for Sealed<F, A> {
    ghost use Rattle.devices.specs.Sources.{sealed};

    ghost source = { λ image. sealed (F.seal image.files) };

    fn size(&self) -> u64 {
        self.files.size()
    }

    fn read_at(&self, room: &mut [u8], offset: u64) -> Result<usize, Unread> {
        self.read_at(room, offset)
    }
}

/// The first of the blocks whose digests are in one hash block with this one's.
fn first_of(algorithm: Algorithm, block: u64) -> u64
    requires { block ≤ 2 ^ 51 }
    ensures first { result ≡ first_under algorithm block }
    ensures before { result ≤ block }
{
    match algorithm {
        Algorithm::Sha256 => block / 128 * 128,
        Algorithm::Sha512 => block / 64 * 64,
    }
}

/// The end of the blocks whose digests are in one hash block with that of the block at this place.
fn end_of_run(algorithm: Algorithm, place: u64) -> u64
    requires { place < 2 ^ 63 }
    ensures end { result ≡ run_end algorithm place }
    ensures behind { place < result }
{
    match algorithm {
        Algorithm::Sha256 => (place / 524_288 + 1) * 524_288,
        Algorithm::Sha512 => (place / 262_144 + 1) * 262_144,
    }
}

/// Copies a part of some bytes to a room.
fn copy_part(bytes: &[u8], from: usize, room: &mut [u8])
    requires { from + length room.old ≤ length bytes.now }
    ensures { room.new ≡ take (length room.old) (drop from bytes.now) }
{
    let count = room.len();
    room.copy_from_slice(&bytes[from..from + count]);
}

/// Puts a digest at the front of a room.
fn put_front(room: &mut [u8], digest: &[u8])
    requires { length digest.now ≤ length room.old }
    ensures { room.new ≡ digest.now ++ drop (length digest.now) room.old }
{
    room[..digest.len()].copy_from_slice(digest);
}
