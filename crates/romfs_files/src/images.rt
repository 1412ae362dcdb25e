//! The files of images, several at the same time if the list is long.
//!
//! A list of eight or more is cut in two, and so is a half of eight or more; a shorter one is read
//! as it is. Each part is read from its lowest image up, and the results of two halves are joined:
//! a fault of the lower half (memory, or an image that cannot be read) comes before one of the
//! upper. All images below the reported one were therefore read.

ghost use Rattle.std.specs.Prelude.{◌≡◌, ◌⊎◌, ◌+◌, ◌<◌, ◌^◌, ℕ, List, ◌++◌, get_or, length, vec_len, Option, None, Some, Ok, IfOk, IfErr, OnOk};
ghost use Rattle.romfs_files.specs.Files.{IsLoadedOf};
ghost use Rattle.romfs_files.specs.Loaded.{ReadsTrailer};
ghost use Rattle.romfs_files.specs.Reading.{IsLoadFault};
ghost use Rattle.romfs_files.specs.Sealing.{AreLoadedBy, IsFarUnder, IsLoadedBy, IsLoadedUnder};
ghost use Rattle.romfs_files.specs.Unread.{IsReadUpTo, IsUnreadAt};
ghost use Rattle.romfs_files.specs.declared.images.FilesFault.TheVariants.{Memory};
ghost use Rattle.romfs_seal.specs.declared.digest.Digest.{Digest};
ghost use denote.Param.Send.{IsSync, IsSend, Frees};

use crate::loaded::{LoadedImage, Loading};
use crate::opening::{at_places, load_file};
use crate::sealing::load_sealed;
use romfs_kept::GatherFault;
use romfs_seal::Digest;
use std::alloc::{AllocError, AllocFailed, Allocator};
use std::fs;
use std::fs::{Files, OpenFile};
use std::io::{Read, Seek};
use std::os::unix::fs::FileExt;
use std::thread::{Threads, join};

/// How many times a list is cut into halves that are read at the same time.
const FORKS: u32 = 2;

/// A list of fewer files is read by the calling thread alone: starting a thread takes about as long
/// as reading a small file.
const MANY: usize = 8;

/// Why images were not read.
#[derive(Clone, Copy, Debug, PartialEq, Eq)]
pub enum FilesFault {
    /// The file of this image, counted from 0, cannot be read to its end.
    Unread { image: u64 },
    /// The file of this image, counted from 0, or the file of its tree is not the named one.
    Unsealed { image: u64 },
    /// The trailer of this image, counted from 0, ends at 2^32 or beyond.
    Far { image: u64 },
    /// Memory ran out.
    Memory,
}

impl From<AllocError> for FilesFault {
    ghost from_gives = { λ _ fault. fault ≡ Memory };

    fn from(_error: AllocError) -> FilesFault {
        FilesFault::Memory
    }
}

impl<T: Drop> From<AllocFailed<T>> for FilesFault {
    ghost from_gives = { λ _ fault. fault ≡ Memory };

    fn from(_error: AllocFailed<T>) -> FilesFault {
        FilesFault::Memory
    }
}

/// Loads the images at these paths, in the order of the paths. Either all bytes of each file are
/// read; or, of a regular file and of a block device, only what the rules look at: the first bytes,
/// headers, names and the targets of symbolic links, and the trailer if trailers are read. Other
/// files are read in full, and if such an image stays open, the same is gathered from its bytes. A
/// file that does not stay open is closed before the next one of its part is opened, so there may
/// be any number of them. An image with a digest is read under it, with the tree in the file whose
/// name has `.verity` added.
///
/// At most four parts of a long list are read at the same time. The lowest file that cannot be read
/// is reported, or `Memory` if memory ran out before it; no clause says that it is the lowest.
/// `Unread` if a file cannot be opened, for example because too many are open. Without a digest,
/// `Unread` also if a read fails or gives fewer bytes than the file reported, or if a device
/// reports no end; `Far` if a trailer that is read ends at 2^32 or beyond, and not all bytes are
/// read. A full size beyond the end of the file is no fault here. Under a digest, `Unsealed` if the
/// image or its tree is not the one that the digest names, or cannot be read, or if the image has
/// 2^33 bytes or more; `Far` only if a trailer that is read ends there in the named file. No byte
/// of a pipe is read under a digest.
pub fn load<R: Files + Threads + Sync, A: Allocator + Copy + Send + Sync>(
    rt: &R,
    alloc: A,
    paths: &[&str],
    digests: &[Option<Digest>],
    loading: Loading,
) -> Result<Vec<LoadedImage<R::File, A>, A>, FilesFault>
where
    R::File: FileExt + Send,
    R::Dir: Send,
    requires { length digests.now ≡ length paths.now }
    ensures ok { IfOk result (λ images. vec_len images ≡ length paths.now) }
    ensures loaded { IfOk result (λ images.
        AreLoadedBy R.File.remaining loading digests.now images.items) }
    ensures err { IfErr result (λ fault. (fault ≡ Memory)
        ⊎ ((image : ℕ) × (image < length paths.now)
        × IsUnreadAt loading image (get_or digests.now image None) fault)) }
{
    let Run { images, end } = load_from(rt, alloc, 0, paths, digests, loading, FORKS);
    end?;
    Ok(images)
}

/// What was read from a run of images: the first ones, and why the others are missing, if any are.
#[derive(Drop)]
struct Run<T, A: Allocator> {
    images: Vec<T, A>,
    end: Result<(), FilesFault>,
}

/// Reads the images of a run whose lowest has the number `first`: in two halves at the same time,
/// each of which is cut once less, or one after another.
#[cycle(halves)]
fn load_from<R: Files + Threads + Sync, A: Allocator + Copy + Send + Sync>(
    rt: &R,
    alloc: A,
    first: usize,
    paths: &[&str],
    digests: &[Option<Digest>],
    loading: Loading,
    forks: u32,
) -> Run<LoadedImage<R::File, A>, A>
where
    R::File: FileExt + Send,
    R::Dir: Send,
    requires few { first + length paths.now < 2 ^ 64 }
    requires each { length digests.now ≡ length paths.now }
    ensures count { IsReadUpTo loading first digests.now (vec_len result.images) result.end }
    ensures read { AreLoadedBy R.File.remaining loading digests.now result.images.items }
{
    if forks == 0 || paths.len() < MANY {
        return load_in_turn(rt, alloc, first, paths, digests, loading);
    }
    let less = forks - 1;
    let half = paths.len() / 2;
    let (lows, highs) = paths.split_at(half);
    let (low_digests, high_digests) = digests.split_at(half);
    let next = first + half;
    // the lowest layer, usually the largest, does not wait for a thread to start
    let (high, low) = join(
        rt,
        move || -> Run<LoadedImage<R::File, A>, A>
            requires { IsSync R.row × IsSync A.row × IsSend A.row
                × Frees A.Allocator A.dealloc_token × (next + length highs.now < 2 ^ 64)
                × (length high_digests.now ≡ length highs.now) }
            ensures count { IsReadUpTo loading next high_digests.entry.now (vec_len result.images)
                result.end }
            ensures read { AreLoadedBy R.File.remaining loading high_digests.entry.now
                result.images.items }
        { load_from(rt, alloc, next, highs, high_digests, loading, less) },
        move || -> Run<LoadedImage<R::File, A>, A>
            requires { IsSync R.row × IsSync A.row × IsSend A.row
                × Frees A.Allocator A.dealloc_token × (first + length lows.now < 2 ^ 64)
                × (length low_digests.now ≡ length lows.now) }
            ensures count { IsReadUpTo loading first low_digests.entry.now (vec_len result.images)
                result.end }
            ensures read { AreLoadedBy R.File.remaining loading low_digests.entry.now
                result.images.items }
        { load_from(rt, alloc, first, lows, low_digests, loading, less) },
    );
    both(low, high)
}

/// What was read from both halves: all of the lower one, then the upper one; or the lower one alone
/// if it is not complete.
fn both<T: Drop, A: Allocator>(low: Run<T, A>, high: Run<T, A>) -> Run<T, A>
    ensures order { OnOk result.end (result.images.items
        ≡ low.images.items ++ high.images.items) }
    ensures read { (loading : Loading) (first : ℕ) (lows highs : List (Option Digest)) →
        IsReadUpTo loading first lows (vec_len low.images) low.end →
        IsReadUpTo loading (first + length lows) highs (vec_len high.images) high.end →
        IsReadUpTo loading first (lows ++ highs) (vec_len result.images) result.end }
    ensures either { (result.images.items ≡ low.images.items)
        ⊎ ((low.end ≡ Ok tt) × (result.images.items ≡ low.images.items ++ high.images.items)) }
{
    let Run { mut images, end } = low;
    if let Err(fault) = end {
        return Run {
            images,
            end: Err(fault),
        };
    }
    let Run {
        images: mut highs,
        end,
    } = high;
    match images.append(&mut highs) {
        Ok(()) => Run { images, end },
        Err(_) => Run {
            images,
            end: Err(FilesFault::Memory),
        },
    }
}

/// Reads a run of images whose lowest has the number `first`, from the lowest up.
fn load_in_turn<R: Files, A: Allocator + Copy>(
    rt: &R,
    alloc: A,
    first: usize,
    paths: &[&str],
    digests: &[Option<Digest>],
    loading: Loading,
) -> Run<LoadedImage<R::File, A>, A>
where
    R::File: FileExt,
    requires few { first + length paths.now < 2 ^ 64 }
    requires each { length digests.now ≡ length paths.now }
    ensures count { IsReadUpTo loading first digests.now (vec_len result.images) result.end }
    ensures read { AreLoadedBy R.File.remaining loading digests.now result.images.items }
{
    let mut images = Vec::new(alloc);
    let end = add_in_turn(rt, alloc, first, paths, digests, loading, &mut images);
    Run { images, end }
}

/// Reads a run of images whose lowest has the number `first`, from the lowest up, and adds them to
/// an empty list. The first that cannot be read is reported; those before it were added.
fn add_in_turn<R: Files, A: Allocator + Copy>(
    rt: &R,
    alloc: A,
    first: usize,
    paths: &[&str],
    digests: &[Option<Digest>],
    loading: Loading,
    images: &mut Vec<LoadedImage<R::File, A>, A>,
) -> Result<(), FilesFault>
where
    R::File: FileExt,
    requires empty { vec_len images.old ≡ 0 }
    requires few { first + length paths.now < 2 ^ 64 }
    requires each { length digests.now ≡ length paths.now }
    ensures count { IsReadUpTo loading first digests.now (vec_len images.new) result }
    ensures read { AreLoadedBy R.File.remaining loading digests.now images.new.items }
{
    images.reserve_exact(paths.len())?;
    for (at, path) in paths.iter().enumerate() {
        let image = (first + at) as u64;
        images.push(load_one(rt, alloc, image, path, digests[at], loading)?)?;
    }
    Ok(())
}

fn load_one<R: Files, A: Allocator + Copy>(
    rt: &R,
    alloc: A,
    image: u64,
    path: &str,
    digest: Option<Digest>,
    loading: Loading,
) -> Result<LoadedImage<R::File, A>, FilesFault>
where
    R::File: FileExt,
    ensures ok { IfOk result (IsLoadedBy R.File.remaining loading digest) }
    ensures err { IfErr result (λ fault. IsUnreadAt loading image digest fault
        ⊎ (fault ≡ Memory)) }
{
    let file = fs::open(rt, path).map_err(|_| FilesFault::Unread { image })?;
    if let Some(digest) = digest {
        return load_named(rt, alloc, image, path, file, digest, loading);
    }
    load_plain(alloc, image, file, loading)
}

/// Loads the file of an image without a digest.
fn load_plain<F: Read + Seek + OpenFile + FileExt + Drop, A: Allocator + Copy>(
    alloc: A,
    image: u64,
    file: F,
    loading: Loading,
) -> Result<LoadedImage<F, A>, FilesFault>
    ensures ok { IfOk result (IsLoadedOf (F.remaining file) loading) }
    ensures err { IfErr result (λ fault. IsUnreadAt loading image None fault
        ⊎ (fault ≡ Memory)) }
{
    match load_file(alloc, file, loading) {
        Ok(loaded) => Ok(loaded),
        Err(GatherFault::Unread) => Err(FilesFault::Unread { image }),
        Err(GatherFault::Far) => Err(FilesFault::Far { image }),
        Err(GatherFault::Memory) => Err(FilesFault::Memory),
    }
}

/// Loads the file of an image under its digest.
fn load_named<R: Files, A: Allocator + Copy>(
    rt: &R,
    alloc: A,
    image: u64,
    path: &str,
    file: R::File,
    digest: Digest,
    loading: Loading,
) -> Result<LoadedImage<R::File, A>, FilesFault>
where
    R::File: FileExt,
    ensures ok { IfOk result (IsLoadedUnder digest loading) }
    ensures err { IfErr result (λ fault. IsUnreadAt loading image (Some digest) fault
        ⊎ (fault ≡ Memory)) }
{
    match load_with_tree(rt, alloc, path, file, digest, loading) {
        Ok(loaded) => Ok(loaded),
        Err(GatherFault::Unread) => Err(FilesFault::Unsealed { image }),
        Err(GatherFault::Far) => Err(FilesFault::Far { image }),
        Err(GatherFault::Memory) => Err(FilesFault::Memory),
    }
}

fn load_with_tree<R: Files, A: Allocator + Copy>(
    rt: &R,
    alloc: A,
    path: &str,
    file: R::File,
    digest: Digest,
    loading: Loading,
) -> Result<LoadedImage<R::File, A>, GatherFault>
where
    R::File: FileExt,
    ensures ok { IfOk result (IsLoadedUnder digest loading) }
    ensures err { IfErr result (IsLoadFault (ReadsTrailer loading × IsFarUnder digest)) }
{
    let name = format!(in alloc; "{path}.verity")?;
    let tree = fs::open(rt, name.as_str()).map_err(|_| GatherFault::Unread)?;
    let image = at_places(file).map_err(|_| GatherFault::Unread)?;
    let tree = at_places(tree).map_err(|_| GatherFault::Unread)?;
    load_sealed(alloc, image, tree, digest, loading)
}
