//! What the data of an image are read from while it is served.

use devices::{Algorithm, Contents, InFile, InMemory, Unread};
use romfs_kept::Grain;
use romfs_seal::{Files, SealedImage};
use std::alloc::Allocator;
use std::os::unix::fs::FileExt;

/// What the bytes of an image are read from. Several readers may read at the same time.
#[derive(Drop)]
pub enum ImageData<F: FileExt, A: Allocator> {
    /// The file, which stays open. Its size is the one that it reported when it was opened.
    File(InFile<F>),
    /// All bytes of a file that cannot be read at a place.
    Memory(Vec<u8, A>),
    /// The file and the file of its tree, which stay open, under the file's digest.
    Sealed(SealedImage<Files<InFile<F>, InFile<F>, Algorithm>, A>),
}

impl<F: FileExt, A: Allocator> ImageData<F, A> {
    /// What is read for one byte: under a digest a block, since the block is hashed.
    pub(crate) fn grain(&self) -> Grain {
        match self {
            ImageData::File(_) => Grain::Byte,
            ImageData::Memory(_) => Grain::Byte,
            ImageData::Sealed(_) => Grain::Block,
        }
    }
}

/// No byte of a file is known, and a read may fail. Bytes in memory are read as they are. Under a
/// digest, reads give bytes that it vouches for.
impl<F: FileExt, A: Allocator> Contents for ImageData<F, A> {
    ghost use Rattle.romfs_files.specs.Data.{source_of};

    ghost source = { source_of };

    fn size(&self) -> u64 {
        match self {
            ImageData::File(file) => file.size(),
            ImageData::Memory(bytes) => InMemory::new(bytes).size(),
            ImageData::Sealed(file) => file.size(),
        }
    }

    fn read_at(&self, room: &mut [u8], offset: u64) -> Result<usize, Unread> {
        match self {
            ImageData::File(file) => file.read_at(room, offset),
            ImageData::Memory(bytes) => InMemory::new(bytes).read_at(room, offset),
            ImageData::Sealed(file) => file.read_at(room, offset),
        }
    }
}
