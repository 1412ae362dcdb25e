//! Images under a digest.

ghost use Rattle.std.specs.Prelude.{length, IfOk, IfErr};
ghost use Rattle.devices.specs.Sources.{IsSizeOf, MayGive, sealed};
ghost use Rattle.romfs_seal.specs.Named.{seal_of};
ghost use Rattle.romfs_seal.specs.declared.digest.Digest.{Digest};
ghost use Rattle.romfs_files.specs.Loaded.{IsNotGathered, ReadsTrailer};
ghost use Rattle.romfs_files.specs.Reading.{IsLoadFault, IsReadFault};
ghost use Rattle.romfs_files.specs.Sealing.{IsFarUnder, IsGoneAs, IsLoadedUnder, IsNameUnder, IsOpenAs};

use crate::image_data::ImageData;
use crate::loaded::{LoadedImage, Loading, Trailers, kept_of, whole};
use devices::{Contents, InFile, fill};
use romfs_kept::{GatherFault, Grain};
use romfs_seal::{Digest, Files, Recent, SealFault, SealedImage};
use std::alloc::Allocator;
use std::os::unix::fs::FileExt;

/// Files of this size or more are not read under a digest. An image with its trailer ends below
/// half of it, and memory is taken for a part of the size before the digest vouches for it.
const TOO_LARGE: u64 = 1 << 33;

/// A file under a digest, which one thread reads in parts.
type Unshared<F, A> = SealedImage<Files<InFile<F>, InFile<F>, Recent<A>>, A>;

/// Loads the image of a file with this fs-verity digest, with the file of its tree. Each block is
/// hashed when it is read, unless its bytes were hashed shortly before. All bytes are read, or what
/// the rules look at, with the trailer if requested; then both files stay open, or are closed. The
/// bytes that are read are those of the named file, unless a read gives, instead of a block,
/// another with the same digest.
///
/// `Unread` if the files are not the named ones, if the image has 2^33 bytes or more, or if a read
/// fails or gives a block with another digest; `Far` only if a trailer that is read ends at 2^32 or
/// beyond in the named file; `Memory` if memory was refused.
pub fn load_sealed<F: FileExt + Drop, A: Allocator + Copy>(
    alloc: A,
    image: InFile<F>,
    tree: InFile<F>,
    digest: Digest,
    loading: Loading,
) -> Result<LoadedImage<F, A>, GatherFault>
    ensures ok { IfOk result (IsLoadedUnder digest loading) }
    ensures err { IfErr result (IsLoadFault (ReadsTrailer loading × IsFarUnder digest)) }
{
    let source = under_digest(alloc, image, tree, digest)?;
    load_under(alloc, source, loading)
}

fn load_under<F: FileExt + Drop, A: Allocator + Copy>(
    alloc: A,
    source: Unshared<F, A>,
    loading: Loading,
) -> Result<LoadedImage<F, A>, GatherFault>
    ensures ok { (digest : Digest) → IsNameUnder digest source →
        IfOk result (IsLoadedUnder digest loading) }
    ensures err { (digest : Digest) → IsNameUnder digest source →
        IfErr result (IsLoadFault (ReadsTrailer loading × IsFarUnder digest)) }
{
    match loading {
        Loading::Whole => Ok(whole(all_of(alloc, &source.shared())?)),
        Loading::Open(trailers) => open_sealed(alloc, source, trailers),
        Loading::Gather(trailers) => gather_sealed(alloc, source, trailers),
    }
}

/// The image of a file under a digest, which stays open.
fn open_sealed<F: FileExt + Drop, A: Allocator + Copy>(
    alloc: A,
    source: Unshared<F, A>,
    trailers: Trailers,
) -> Result<LoadedImage<F, A>, GatherFault>
    ensures ok { IfOk result (IsOpenAs source trailers) }
    ensures err { IfErr result (IsNotGathered trailers (sealed (seal_of source))) }
{
    let mut image = kept_of(alloc, &source, Grain::Block, trailers)?;
    image.source = Some(ImageData::Sealed(source.shared()));
    Ok(image)
}

/// The image of such a file, which is let go.
fn gather_sealed<F: FileExt + Drop, A: Allocator + Copy>(
    alloc: A,
    source: Unshared<F, A>,
    trailers: Trailers,
) -> Result<LoadedImage<F, A>, GatherFault>
    ensures ok { IfOk result (IsGoneAs source trailers) }
    ensures err { IfErr result (IsNotGathered trailers (sealed (seal_of source))) }
{
    kept_of(alloc, &source, Grain::Block, trailers)
}

/// All bytes of a source.
fn all_of<S: Contents, A: Allocator>(alloc: A, source: &S) -> Result<Vec<u8, A>, GatherFault>
    ensures given { IfOk result (λ bytes. MayGive (S.source source.now) 0 bytes.items) }
    ensures size { IfOk result (λ bytes. IsSizeOf (S.source source.now) (length bytes.items)) }
    ensures err { IfErr result IsReadFault }
{
    let size = source.size() as usize;
    let mut bytes = Vec::new(alloc);
    bytes.resize(size, 0)?;
    match fill(source, bytes.as_mut_slice(), 0) {
        Ok(()) => Ok(bytes),
        Err(_) => Err(GatherFault::Unread),
    }
}

/// A file under a digest, with the size that the file reports.
fn under_digest<F: FileExt + Drop, A: Allocator + Copy>(
    alloc: A,
    image: InFile<F>,
    tree: InFile<F>,
    digest: Digest,
) -> Result<Unshared<F, A>, GatherFault>
    ensures ok { IfOk result (IsNameUnder digest) }
    ensures err { IfErr result IsReadFault }
{
    let size = image.size();
    if size >= TOO_LARGE {
        return Err(GatherFault::Unread);
    }
    let files = Files {
        image,
        tree,
        hash: Recent::new(alloc, digest.algorithm())?,
        digest,
        size,
    };
    match SealedImage::open(alloc, files) {
        Ok(source) => Ok(source),
        Err(SealFault::Memory) => Err(GatherFault::Memory),
        Err(_) => Err(GatherFault::Unread),
    }
}
