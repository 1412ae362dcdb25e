//! Bytes that stay in a file.

use crate::contents::{Contents, Unread};
use std::io::ErrorKind;
use std::os::unix::fs::FileExt;

/// How often an interrupted read is tried.
const TRIES: u32 = 1024;

/// A file that can be read at a place (pread(2)), with the size that it reported when it was
/// opened. No contract knows its bytes.
#[derive(Drop)]
pub struct InFile<F> {
    file: F,
    size: u64,
}

impl<F: FileExt + Drop> InFile<F> {
    /// The bytes of this file, this many. Nothing is read yet.
    pub fn new(file: F, size: u64) -> InFile<F> {
        InFile { file, size }
    }
}

impl<F: FileExt> Contents for InFile<F> {
    ghost use Rattle.devices.specs.Sources.{unknown};

    ghost source = { λ _. unknown };

    /// The reported size, whatever happens to the file later.
    fn size(&self) -> u64 {
        self.size
    }

    /// An interrupted read (EINTR) is made again, 1,024 times at most.
    fn read_at(&self, room: &mut [u8], offset: u64) -> Result<usize, Unread> {
        for _ in 0..TRIES {
            match self.file.read_at(room, offset) {
                Ok(count) => return Ok(count),
                Err(error) if error.kind() == ErrorKind::Interrupted => {}
                Err(_) => return Err(Unread),
            }
        }
        Err(Unread)
    }
}
