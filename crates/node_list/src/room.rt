//! Bytes that wait for a sink.

ghost use Rattle.std.specs.Prelude.{◌≡◌, ◌≤◌, ◌<◌, ◌+◌, ◌^◌, [], ◌∷◌, ◌++◌, length, IfOk, OnOk, vec_len, vec_capacity};
ghost use Rattle.node_list.specs.Walks.{passage, Puts};

use devices::{Failed, Sink, hand_on};
use std::alloc::{AllocError, Allocator};

/// Bytes that wait for a sink, as many as there is room for.
#[derive(Drop)]
pub(crate) struct Room<A: Allocator> {
    waiting: Vec<u8, A>,
}

impl<A: Allocator> Room<A> {
    /// A room in which nothing waits.
    pub(crate) fn new(alloc: A, size: usize) -> Result<Room<A>, AllocError>
        ensures { IfOk result (λ room. room.waiting.items ≡ []) }
    {
        Ok(Room {
            waiting: Vec::with_capacity(alloc, size)?,
        })
    }

    /// Writes all waiting bytes to the sink.
    pub(crate) fn drain<K: Sink>(&mut self, sink: &mut K) -> Result<(), Failed>
        requires { (K.state sink.old).counts.failures < 2 ^ 63 }
        ensures put { Puts result (passage (K.state sink.old) self.old.waiting.items)
            (passage (K.state sink.new) self.new.waiting.items) [] }
        ensures items { OnOk result (self.new.waiting.items ≡ []) }
        ensures length { OnOk result (vec_len self.new.waiting ≡ 0) }
    {
        hand_on(sink, self.waiting.as_slice())?;
        self.waiting.clear();
        Ok(())
    }

    /// Adds bytes to the waiting ones, and first writes these to the sink if there is no room. It
    /// takes no memory.
    pub(crate) fn put<K: Sink>(&mut self, sink: &mut K, bytes: &[u8]) -> Result<(), Failed>
        requires { (K.state sink.old).counts.failures < 2 ^ 63 }
        ensures { Puts result (passage (K.state sink.old) self.old.waiting.items)
            (passage (K.state sink.new) self.new.waiting.items) bytes.now }
    {
        if bytes.len() <= self.waiting.capacity() - self.waiting.len() {
            self.append(bytes);
            return Ok(());
        }
        self.drain(sink)?;
        if bytes.len() <= self.waiting.capacity() {
            self.append(bytes);
            return Ok(());
        }
        hand_on(sink, bytes)
    }

    /// Adds a byte.
    pub(crate) fn put_byte<K: Sink>(&mut self, sink: &mut K, byte: u8) -> Result<(), Failed>
        requires { (K.state sink.old).counts.failures < 2 ^ 63 }
        ensures { Puts result (passage (K.state sink.old) self.old.waiting.items)
            (passage (K.state sink.new) self.new.waiting.items) (byte ∷ []) }
    {
        if self.waiting.len() < self.waiting.capacity() {
            self.append_byte(byte);
            return Ok(());
        }
        self.put(sink, &[byte])
    }

    // Appends bytes; there is room for them, so no growth can fail.
    fn append(&mut self, bytes: &[u8])
        requires { vec_len self.old.waiting + length bytes.now ≤ vec_capacity self.old.waiting }
        ensures { self.new.waiting.items ≡ self.old.waiting.items ++ bytes.now }
    {
        let Ok(()) = self.waiting.extend_from_slice(bytes) else {
            unreachable!()
        };
    }

    // The same for one byte.
    fn append_byte(&mut self, byte: u8)
        requires { vec_len self.old.waiting < vec_capacity self.old.waiting }
        ensures { self.new.waiting.items ≡ self.old.waiting.items ++ byte ∷ [] }
    {
        let Ok(()) = self.waiting.push(byte) else {
            unreachable!()
        };
    }
}
