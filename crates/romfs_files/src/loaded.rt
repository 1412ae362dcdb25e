//! Images that were loaded from their files.

ghost use Rattle.std.specs.Prelude.{◌≡◌, None, IfOk, IfErr};
ghost use Rattle.romfs_files.specs.Data.{source_of};
ghost use Rattle.romfs_files.specs.Loaded.{IsKeptOf, IsNotGathered, IsOpenOver, IsLetGo, WasGathered};

use crate::image_data::ImageData;
use devices::Contents;
use romfs_held::HeldImage;
use romfs_kept::{GatherFault, Grain, Kept, gather, gather_with_trailer};
use std::alloc::{AllocError, Allocator};
use std::os::unix::fs::FileExt;

/// Whether the attribute trailers that follow the images are read.
#[derive(Clone, Copy)]
pub enum Trailers {
    Read,
    Left,
}

/// How much of the file of an image is read, and whether it stays open.
#[derive(Clone, Copy)]
pub enum Loading {
    /// All bytes, with those of the trailer. The file is closed.
    Whole,
    /// What the rules look at, with the trailer if trailers are read. The file stays open.
    Open(Trailers),
    /// The same, and the file is closed.
    Gather(Trailers),
}

/// A loaded image: what is held of it; what its data are read from, if its file stays open; and
/// whether its trailer was read, if not all bytes are held.
#[derive(Drop)]
pub struct LoadedImage<F: FileExt, A: Allocator> {
    pub held: HeldImage<A>,
    pub source: Option<ImageData<F, A>>,
    pub trailers: Trailers,
}

/// The image of these data, which stay open. Reads what the rules look at, with the trailer if
/// requested. `Unread` if a read fails, or if the data end before the reported size; `Far` only if
/// a trailer ends at 2^32 or beyond; `Memory` only if memory was refused.
pub(crate) fn open<F: FileExt + Drop, A: Allocator + Copy>(
    alloc: A,
    source: ImageData<F, A>,
    trailers: Trailers,
) -> Result<LoadedImage<F, A>, GatherFault>
    ensures ok { IfOk result (IsOpenOver source trailers) }
    ensures err { IfErr result (IsNotGathered trailers (source_of source)) }
{
    let mut image = kept_of(alloc, &source, source.grain(), trailers)?;
    image.source = Some(source);
    Ok(image)
}

/// The image of these data, which are not read again: for a file, sealed or not, what the rules
/// look at; for bytes in memory, all of them.
pub(crate) fn let_go<F: FileExt + Drop, A: Allocator + Copy>(
    alloc: A,
    source: ImageData<F, A>,
    trailers: Trailers,
) -> Result<LoadedImage<F, A>, GatherFault>
    ensures ok { IfOk result (IsLetGo source trailers) }
    ensures err { IfErr result (IsNotGathered trailers (source_of source)) }
{
    match source {
        ImageData::File(file) => kept_of(alloc, &file, Grain::Byte, trailers),
        ImageData::Memory(bytes) => Ok(whole(bytes)),
        ImageData::Sealed(file) => kept_of(alloc, &file, Grain::Block, trailers),
    }
}

/// The image of these bytes, which are all that its file has.
pub(crate) fn whole<F: FileExt, A: Allocator>(bytes: Vec<u8, A>) -> LoadedImage<F, A>
    ensures held { result.held ≡ HeldImage.Whole bytes }
    ensures source { result.source ≡ None }
{
    LoadedImage {
        held: HeldImage::Whole(bytes),
        source: None,
        trailers: Trailers::Read,
    }
}

/// What the rules look at, with the trailer if requested. The image has nothing to read data from.
pub(crate) fn kept_of<F: FileExt, S: Contents, A: Allocator + Copy>(
    alloc: A,
    source: &S,
    grain: Grain,
    trailers: Trailers,
) -> Result<LoadedImage<F, A>, GatherFault>
    ensures ok { IfOk result (IsKeptOf (S.source source.now) trailers) }
    ensures source { IfOk result (λ image. image.source ≡ None) }
    ensures err { IfErr result (IsNotGathered trailers (S.source source.now)) }
{
    Ok(LoadedImage {
        held: HeldImage::Kept(gather_as(alloc, source, grain, trailers)?),
        source: None,
        trailers,
    })
}

fn gather_as<S: Contents, A: Allocator + Copy>(
    alloc: A,
    source: &S,
    grain: Grain,
    trailers: Trailers,
) -> Result<Kept<A>, GatherFault>
    ensures ok { IfOk result (WasGathered trailers (S.source source.now)) }
    ensures err { IfErr result (IsNotGathered trailers (S.source source.now)) }
{
    match trailers {
        Trailers::Read => gather_with_trailer(alloc, source, grain),
        Trailers::Left => gather(alloc, source, grain),
    }
}
