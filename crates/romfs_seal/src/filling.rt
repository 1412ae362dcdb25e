//! Blocks that are filled from a file.

ghost use Rattle.std.specs.Prelude.{◌≡◌, ◌+◌, ◌<◌, ◌≤◌, ◌^◌, length, replicate, OnOk, OnErr};
ghost use Rattle.devices.specs.Given.{Allows, IsShort};
ghost use Rattle.devices.specs.Sources.{given_of};
ghost use Rattle.devices.specs.Tree.{AreBytes};
ghost use Rattle.devices.specs.Seal.{IsGiven};

use devices::{Contents, Unread, fill};

/// The bytes of a block.
pub(crate) const BLOCK: usize = 4096;

/// Fills a block with this many bytes of a file, and zeros after them.
pub(crate) fn fill_block<S: Contents>(
    source: &S,
    block: &mut [u8],
    count: usize,
    place: u64,
) -> Result<(), Unread>
    requires long { length block.old ≡ 4096 }
    requires fits { count ≤ 4096 }
    requires near { place + count < 2 ^ 64 }
    ensures ok { OnOk result (IsGiven (given_of (S.source source.now)) place count block.new) }
    ensures err { OnErr result (IsShort (given_of (S.source source.now)) place count) }
{
    fill_bytes(source, &mut block[..count], place)?;
    clear(&mut block[count..]);
    Ok(())
}

/// Fills a room with bytes of a file.
pub(crate) fn fill_bytes<S: Contents>(source: &S, room: &mut [u8], place: u64) -> Result<(), Unread>
    requires { place + length room.old < 2 ^ 64 }
    ensures ok { OnOk result (Allows (given_of (S.source source.now)) place room.new) }
    ensures bytes { AreBytes room.new }
    ensures err { OnErr result (IsShort (given_of (S.source source.now)) place (length room.old)) }
{
    fill(source, room, place)
}

/// Fills a room with zeros.
fn clear(room: &mut [u8])
    ensures { room.new ≡ replicate (length room.old) 0 }
{
    room.fill(0);
}
