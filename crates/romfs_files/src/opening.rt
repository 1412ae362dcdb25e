//! Opening files, from which at first only what the rules check is read.
//!
//! Headers come in any order, so this needs a file that can be read at a place (pread(2)): a
//! regular file, or a block device, whose size is found by a seek to its end. Any other file is a
//! stream, and is read in full.

ghost use Rattle.std.specs.Prelude.{◌≡◌, ◌↔◌, IfOk, IfErr, IsTrue, MatchResult};
ghost use Rattle.romfs_files.specs.Opening.{AreOfFile, IsBlockDevice, IsKindOf, IsLoadedAs};
ghost use Rattle.romfs_files.specs.Files.{IsLoadedOf};
ghost use Rattle.romfs_files.specs.Loaded.{ReadsTrailer};
ghost use Rattle.romfs_files.specs.Reading.{IsLoadFault, IsReadFault};

use crate::image_data::ImageData;
use crate::loaded::{LoadedImage, Loading, let_go, open, whole};
use crate::whole::read_file;
use devices::InFile;
use romfs_kept::GatherFault;
use std::alloc::Allocator;
use std::fs::{Metadata, OpenFile};
use std::io::{self, Read, Seek, SeekFrom};
use std::os::unix::fs::{FileExt, MetadataExt};

/// The bits of a mode that hold the kind of a file (S_IFMT of inode(7)).
const FILE_TYPE: u32 = 0o170000;

/// Their value for a block device (S_IFBLK).
const BLOCK_DEVICE: u32 = 0o060000;

/// The kind of a file, as far as it decides how the file is read.
#[derive(Clone, Copy)]
pub enum FileKind {
    /// A regular file of this many bytes, one at least.
    Regular { size: u64 },
    /// A block device. stat(2) does not report its size.
    BlockDevice,
    /// Any other: a pipe, a terminal, or a regular file that reports that it is empty, as files of
    /// /proc always do.
    Stream,
}

/// The kind that a file reports; a stream if it reports none.
fn told_kind(told: io::Result<Metadata>) -> FileKind
    ensures { MatchResult told (λ metadata. IsKindOf metadata result)
        (λ _. result ≡ FileKind.Stream) }
{
    match told {
        Ok(metadata) => kind_of(&metadata),
        Err(_) => FileKind::Stream,
    }
}

fn kind_of(metadata: &Metadata) -> FileKind
    ensures { IsKindOf metadata.now result }
{
    let size = metadata.len();
    if metadata.is_file() && 0 < size {
        return FileKind::Regular { size };
    }
    if is_block_device(metadata) {
        return FileKind::BlockDevice;
    }
    FileKind::Stream
}

// std's function of this name has no clause.
fn is_block_device(metadata: &Metadata) -> bool
    ensures { IsTrue result ↔ IsBlockDevice metadata.now }
{
    metadata.mode() & FILE_TYPE == BLOCK_DEVICE
}

/// Loads the image of a file, which is at its beginning.
#[tactic(auto, using(crate::proofs::Files::loaded_of))]
pub(crate) fn load_file<F: Read + Seek + OpenFile + FileExt + Drop, A: Allocator + Copy>(
    alloc: A,
    file: F,
    loading: Loading,
) -> Result<LoadedImage<F, A>, GatherFault>
    ensures ok { IfOk result (IsLoadedOf (F.remaining file) loading) }
    ensures err { IfErr result (IsLoadFault (ReadsTrailer loading)) }
{
    let kind = told_kind(file.metadata());
    load_as(alloc, file, kind, loading)
}

/// Loads the image of a file of this kind, which is at its beginning. `Unread` if a read fails, if
/// a device reports no end, or if the file ends before the size that it reported; `Far` if a
/// trailer that is read ends at 2^32 or beyond.
pub fn load_as<F: Read + Seek + OpenFile + FileExt + Drop, A: Allocator + Copy>(
    alloc: A,
    file: F,
    kind: FileKind,
    loading: Loading,
) -> Result<LoadedImage<F, A>, GatherFault>
    ensures ok { IfOk result (IsLoadedAs kind (F.remaining file) loading) }
    ensures err { IfErr result (IsLoadFault (ReadsTrailer loading)) }
{
    match loading {
        Loading::Whole => Ok(whole(read_file(alloc, file)?)),
        Loading::Open(trailers) => open(alloc, data_of(alloc, file, kind)?, trailers),
        Loading::Gather(trailers) => let_go(alloc, data_of(alloc, file, kind)?, trailers),
    }
}

/// What the data of a file of this kind are read from: the file, or all bytes of a stream.
fn data_of<F: Read + Seek + OpenFile + FileExt + Drop, A: Allocator>(
    alloc: A,
    mut file: F,
    kind: FileKind,
) -> Result<ImageData<F, A>, GatherFault>
    ensures ok { IfOk result (AreOfFile kind (F.remaining file)) }
    ensures err { IfErr result IsReadFault }
{
    match kind {
        FileKind::Regular { size } => Ok(ImageData::File(InFile::new(file, size))),
        FileKind::BlockDevice => {
            let size = end_of(&mut file)?;
            Ok(ImageData::File(InFile::new(file, size)))
        }
        FileKind::Stream => Ok(ImageData::Memory(read_file(alloc, file)?)),
    }
}

/// A file that is read at places, with the size that it reports: 0 if it reports none.
pub(crate) fn at_places<F: Seek + OpenFile + FileExt + Drop>(
    mut file: F,
) -> Result<InFile<F>, GatherFault> {
    match told_kind(file.metadata()) {
        FileKind::Regular { size } => Ok(InFile::new(file, size)),
        FileKind::BlockDevice => {
            let size = end_of(&mut file)?;
            Ok(InFile::new(file, size))
        }
        FileKind::Stream => Ok(InFile::new(file, 0)),
    }
}

/// How many bytes a file has before its end.
fn end_of<F: Seek>(file: &mut F) -> Result<u64, GatherFault>
    ensures { IfErr result IsReadFault }
{
    file.seek(SeekFrom::End(0)).map_err(|_| GatherFault::Unread)
}
