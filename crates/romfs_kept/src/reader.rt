//! Reading in few reads.
//!
//! The last read is a window, whose bytes are not read again. A window is as long as the request,
//! or 64 bytes. It is twice as long as the one before, up to 64 KiB, if three quarters of that one
//! were kept: adjacent headers are read many at a time, and little is read of the data between
//! others. Over a source that reads in blocks a window is extended to whole ones: headers that
//! share a block are then read, and hashed, with it.

ghost use Rattle.std.specs.Prelude.{◌≡◌, ◌+◌, ◌≤◌, ◌++◌, length, take, drop, replicate, OnOk, IfErr};
ghost use Rattle.romfs_kept.specs.Reads.{AreWithin, IsCause, IsReadAt};

use crate::fault::GatherFault;
use crate::grain::Grain;
use crate::window::{Window, look_at};
use devices::Contents;
use std::alloc::Allocator;
use std::marker::Model;

/// The first bytes of a source, as they are read. A clause sees the source, and how many bytes may
/// be read.
#[derive(Drop)]
pub struct Reader<'s, S: Contents, A: Allocator> {
    source: &'s S,
    size: u32,
    /// The last read.
    window: Window<A>,
}

impl<'s, S: Contents, A: Allocator> Model for Reader<'s, S, A> {
    ghost use Rattle.romfs_kept.specs.Reads.{Extent, AreWithin, IsHeld};

    ghost Value = { Extent S };

    ghost view = { λ reader. record { source = reader.source.now; size = reader.size } };

    ghost invariant = { λ reader. AreWithin (S.source reader.source.now) reader.size
        × IsHeld (S.source reader.source.now) reader.window.start reader.window.bytes.items };
}

impl<'s, S: Contents, A: Allocator> Reader<'s, S, A> {
    /// A reader of the first bytes, this many. Nothing is read yet.
    pub fn new(alloc: A, source: &'s S, size: u32, grain: Grain) -> Reader<'s, S, A>
        requires { AreWithin (S.source source.now) size }
        ensures source { result.source ≡ source.now }
        ensures size { result.size ≡ size }
    {
        let window = Window::new(alloc, grain);
        Reader {
            source,
            size,
            window,
        }
    }

    /// How many bytes may be read.
    pub fn size(&self) -> u32
        ensures value { result ≡ self.now.size }
        ensures within { AreWithin (S.source self.now.source) self.now.size }
    {
        self.size
    }

    /// Only this many bytes may be read from now on.
    pub fn cut(&mut self, size: u32)
        requires { size ≤ self.old.size }
        ensures { self.new ≡ record self.old { size = size } }
    {
        self.size = size;
    }

    /// Notes that this many bytes of what was read were kept.
    pub fn note_used(&mut self, count: usize)
        ensures { self.new ≡ self.old }
    {
        self.window.used = self.window.used.saturating_add(count);
    }

    /// Fills a room with the bytes from a place on, and with zeros after their end.
    pub fn read(&mut self, at: u32, room: &mut [u8]) -> Result<(), GatherFault>
        requires { length room.old ≤ 4096 }
        ensures same { self.new ≡ self.old }
        ensures room { OnOk result (IsReadAt S.source self.new at room.new) }
        ensures err { IfErr result (IsCause (S.source self.new.source)) }
    {
        clear(room);
        if at >= self.size {
            return Ok(());
        }
        let from = at as usize;
        let count = room.len().min((self.size - at) as usize);
        look_at(self.source, &mut self.window, self.size, from, count)?;
        copy_part(&self.window.bytes, from - self.window.start, count, room);
        Ok(())
    }
}

/// Fills a room with zeros.
fn clear(room: &mut [u8])
    ensures { room.new ≡ replicate (length room.old) 0 }
{
    room.fill(0);
}

/// Copies a part of some bytes to the front of a room.
fn copy_part(bytes: &[u8], from: usize, count: usize, room: &mut [u8])
    requires bytes { from + count ≤ length bytes.now }
    requires room { count ≤ length room.old }
    ensures { room.new ≡ take count (drop from bytes.now) ++ drop count room.old }
{
    room[..count].copy_from_slice(&bytes[from..from + count]);
}
