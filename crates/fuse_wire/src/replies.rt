//! Replies, one after another, for a device.
//!
//! They are at the front of a vector that keeps its length. After them are bytes of earlier
//! replies, or zeros; these mean nothing, and the next replies are set over them. Memory is
//! therefore cleared once, when it is first written to, and not in each round.

ghost use Rattle.std.specs.Prelude.{◌≡◌, ◌+◌, ◌<◌, ◌≤◌, ◌^◌, [], length, take, vec_len, vec_capacity, IfOk, OnOk};
ghost use Rattle.fuse_wire.specs.Appends.{Appends, MakesRoom};

use crate::structure::set_bytes;
use std::alloc::{AllocError, Allocator};
use std::marker::Model;

/// Zeros that clear memory.
const ZEROS: [u8; 1024] = [0; 1024];

/// The most bytes that are cleared at once: few enough to be still in the processor's cache when
/// replies are set over them.
const CLEARED: usize = 8192;

/// Replies, one after another. A contract sees their bytes, the total room, and the length of the
/// vector.
#[derive(Drop)]
pub struct Replies<A: Allocator> {
    pub(crate) bytes: Vec<u8, A>,
    // Their size in bytes.
    pub(crate) len: usize,
}

impl<A: Allocator> Model for Replies<A> {
    ghost use Rattle.std.specs.Prelude.{◌≤◌, length, take, vec_capacity};
    ghost use Rattle.fuse_wire.specs.Appends.{Filled};

    ghost Value = { Filled };

    ghost view = { λ r. record {
      items = take r.len r.bytes.items;
      room = vec_capacity r.bytes;
      standing = length r.bytes.items;
    } };

    ghost invariant = { λ r. r.len ≤ length r.bytes.items };
}

impl<A: Allocator> Replies<A> {
    /// No replies. They take no memory.
    pub fn new(alloc: A) -> Self
        ensures { result.items ≡ [] }
    {
        Replies {
            bytes: Vec::new(alloc),
            len: 0,
        }
    }

    /// No replies, with room for this many bytes. `AllocError` only if memory is refused.
    pub fn with_capacity(alloc: A, capacity: usize) -> Result<Self, AllocError>
        ensures items { IfOk result (λ replies. replies.items ≡ []) }
        ensures room { IfOk result (λ replies. capacity ≤ replies.room) }
    {
        Ok(Replies {
            bytes: Vec::with_capacity(alloc, capacity)?,
            len: 0,
        })
    }

    /// Their size in bytes.
    pub fn len(&self) -> usize
        ensures len { result ≡ length self.now.items }
        ensures few { result < 2 ^ 63 }
    {
        self.len
    }

    /// How many more bytes there is room for.
    pub fn room_left(&self) -> usize
        ensures { length self.now.items + result ≡ self.now.room }
    {
        self.bytes.capacity() - self.len
    }

    /// Their bytes.
    pub fn as_slice(&self) -> &[u8]
        ensures { result.now ≡ self.now.items }
    {
        &self.bytes[..self.len]
    }

    /// Removes all replies. Their room stays.
    pub fn clear(&mut self)
        ensures items { self.new.items ≡ [] }
        ensures room { self.new.room ≡ self.old.room }
    {
        self.len = 0;
    }

    /// Makes room for this many more bytes. `AllocError` only if there is no room for them and
    /// memory is refused; nothing changes then.
    pub fn make_room(&mut self, more: usize) -> Result<(), AllocError>
        ensures { MakesRoom result self.old self.new more }
    {
        if self.bytes.capacity() - self.len < more {
            self.bytes.reserve(more - (self.bytes.len() - self.len))?;
        }
        Ok(())
    }

    /// Ensures that this many bytes, which others may be set over, follow the replies.
    #[inline(always)]
    pub(crate) fn stand(&mut self, more: usize) -> Result<(), AllocError>
        ensures room { MakesRoom result self.old self.new more }
        ensures standing { OnOk result (length self.old.items + more ≤ self.new.standing) }
    {
        if self.bytes.len() - self.len < more {
            self.stand_anew(more)?;
        }
        Ok(())
    }

    // The same, if there are fewer.
    #[inline(never)]
    fn stand_anew(&mut self, more: usize) -> Result<(), AllocError>
        ensures room { MakesRoom result self.old self.new more }
        ensures standing { OnOk result (length self.old.items + more ≤ self.new.standing) }
    {
        self.make_room(more)?;
        let missing = more.saturating_sub(self.bytes.len() - self.len);
        clear_behind(&mut self.bytes, missing);
        Ok(())
    }

    /// Appends bytes. `AllocError` only if there is no room for them and memory is refused; nothing
    /// changes then.
    #[inline(always)]
    pub fn append(&mut self, bytes: &[u8]) -> Result<(), AllocError>
        ensures { Appends result self.old self.new bytes.now }
    {
        if self.bytes.len() - self.len < bytes.len() {
            return self.append_to_end(bytes);
        }
        self.len = set_bytes(self.bytes.as_mut_slice(), self.len, bytes);
        Ok(())
    }

    // The same, with new bytes after the existing ones.
    #[inline(never)]
    fn append_to_end(&mut self, bytes: &[u8]) -> Result<(), AllocError>
        ensures { Appends result self.old self.new bytes.now }
    {
        self.make_room(bytes.len())?;
        self.bytes.truncate(self.len);
        let _ = self.bytes.extend_from_slice(bytes);
        self.len = self.bytes.len();
        Ok(())
    }
}

/// Adds this many bytes after the existing ones, and some more if there is room, and clears them.
#[inline(never)]
pub(crate) fn clear_behind<A: Allocator>(bytes: &mut Vec<u8, A>, count: usize)
    requires { vec_len bytes.old + count ≤ vec_capacity bytes.old }
    ensures before { take (vec_len bytes.old) bytes.new.items ≡ bytes.old.items }
    ensures size { vec_len bytes.old + count ≤ vec_len bytes.new }
    ensures capacity { vec_capacity bytes.old ≤ vec_capacity bytes.new }
{
    let room = bytes.capacity() - bytes.len();
    put_zeros(bytes, count.max(CLEARED).min(room));
}

// Appends this many zeros, if there is room for them.
fn put_zeros<A: Allocator>(bytes: &mut Vec<u8, A>, count: usize)
    requires { vec_len bytes.old + count ≤ vec_capacity bytes.old }
    ensures before { take (vec_len bytes.old) bytes.new.items ≡ bytes.old.items }
    ensures size { vec_len bytes.new ≡ vec_len bytes.old + count }
    ensures capacity { vec_capacity bytes.old ≤ vec_capacity bytes.new }
{
    let mut left = count;
    while left > ZEROS.len() {
        let _ = bytes.extend_from_slice(&ZEROS);
        left -= ZEROS.len();
    }
    let _ = bytes.extend_from_slice(&ZEROS[..left]);
}
