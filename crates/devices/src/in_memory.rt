//! Bytes that are held.

ghost use Rattle.std.specs.Prelude.{◌≡◌};
ghost use Rattle.devices.specs.Sources.{held};

use crate::contents::{Contents, Unread};

/// Bytes in memory.
#[derive(Clone, Copy)]
pub struct InMemory<'a> {
    bytes: &'a [u8],
}

impl<'a> InMemory<'a> {
    /// These bytes.
    pub fn new(bytes: &'a [u8]) -> InMemory<'a>
        ensures { ⟦<InMemory<'a> as Contents>⟧.source result ≡ held bytes.now }
    {
        InMemory { bytes }
    }
}

impl<'a> Contents for InMemory<'a> {
    ghost use Rattle.devices.specs.Sources.{held};

    ghost source = { λ bytes. held bytes.bytes.now };

    fn size(&self) -> u64 {
        self.bytes.len() as u64
    }

    fn read_at(&self, room: &mut [u8], offset: u64) -> Result<usize, Unread> {
        let size = self.bytes.len();
        if offset >= size as u64 {
            return Ok(0);
        }
        let from = offset as usize;
        let count = room.len().min(size - from);
        room[..count].copy_from_slice(&self.bytes[from..from + count]);
        Ok(count)
    }
}
