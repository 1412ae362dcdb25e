//! Filling a room by as many reads as it takes.

ghost use Rattle.std.specs.Prelude.{◌+◌, ◌<◌, ◌^◌, length};
ghost use Rattle.devices.specs.Sources.{GivesAll};

use crate::contents::{Contents, Unread};

/// Fills the room with the bytes from an offset on. `Unread` if a read failed, or if the bytes end
/// earlier; the room is then unspecified. Bytes in memory are `Unread` only if there are too few.
///
/// It reads once for each portion of bytes, and once more if they end earlier.
pub fn fill<S: Contents>(source: &S, room: &mut [u8], offset: u64) -> Result<(), Unread>
    requires { offset + length room.old < 2 ^ 64 }
    ensures { GivesAll (S.source source.now) offset result room.new }
{
    let mut done = 0;
    while done < room.len() {
        let count = source.read_at(&mut room[done..], offset + done as u64)?;
        if count == 0 {
            return Err(Unread);
        }
        done += count;
    }
    Ok(())
}
