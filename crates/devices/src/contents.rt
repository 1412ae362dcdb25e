//! What the bytes of an image are read from.

ghost use Rattle.std.specs.Prelude.{◌≤◌, length, IfOk};
ghost use Rattle.devices.specs.Sources.{Source, Gives, IsSizeOf};

/// Bytes could not be read: a read failed, or there were fewer.
#[derive(Debug, Clone, Copy, PartialEq, Eq)]
pub struct Unread;

/// The bytes of an image. A contract sees what is known of them: all bytes in memory, those that a
/// digest vouches for, nothing of a file. What is known, what reads may give, and whether they may
/// fail are cases of one `Source`.
pub trait Contents {
    ghost source: { Self → Source };

    /// How many bytes there are.
    fn size(&self) -> u64
        ensures size { IsSizeOf (source self.now) result };

    /// Puts bytes from an offset on at the front of the room, and returns how many, as pread(2)
    /// does: 0 only at the end, or if the room is empty. A read of bytes in memory never fails. The
    /// rest of the room is unspecified.
    fn read_at(&self, room: &mut [u8], offset: u64) -> Result<usize, Unread>
        ensures bound { IfOk result (λ count. count ≤ length room.new) }
        ensures given { Gives (source self.now) offset result room.new };
}
