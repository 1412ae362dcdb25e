//! How much of a stream is answered.

ghost use Rattle.std.specs.Prelude.{◌≡◌, IfOk};
ghost use Rattle.serve_loop.specs.Buffers.{IsWithinBytes};
ghost use Rattle.serve_loop.specs.Steps.{serving_state, beginning};

use crate::buffer::Buffer;
use crate::done::Done;
use crate::limits::ENOUGH_REPLIES;
use fuse_wire::Replies;
use fuse_wire::limits::MAX_REPLY_SIZE;
use reply_model::Session;
use std::alloc::{AllocError, Allocator};

/// Room for the replies of a round on one thread: fewer bytes than end it, and one more reply. If
/// workers answer more, it grows.
const REPLIES_ROOM: usize = ENOUGH_REPLIES + MAX_REPLY_SIZE;

/// How much of a stream is answered.
#[derive(Drop)]
pub(crate) struct Progress<A: Allocator> {
    // The bytes that were pulled and are not answered yet.
    pub buffer: Buffer<A>,
    // The session after the messages so far.
    pub session: Session,
    // The bytes of these messages.
    pub at: u64,
    // The number of these messages.
    pub messages: u64,
    // The bytes of their replies.
    pub written: u128,
    // The lookups that they gave to each node, minus those that they took.
    pub balances: Vec<i128, A>,
    // Room for the replies of one round.
    pub replies: Replies<A>,
}

impl<A: Allocator + Copy> Progress<A> {
    // No part of a stream that begins in this session is answered yet. Balances are kept for this
    // many nodes.
    pub(crate) fn new(alloc: A, first: Session, nodes: u64) -> Result<Progress<A>, AllocError>
        ensures { IfOk result (λ p. IsWithinBytes p.buffer
            × (serving_state p ≡ beginning first nodes)) }
    {
        Ok(Progress {
            buffer: Buffer::new(alloc),
            session: first,
            at: 0,
            messages: 0,
            written: 0,
            balances: vec![in alloc; 0i128; nodes as usize]?,
            replies: Replies::with_capacity(alloc, REPLIES_ROOM)?,
        })
    }
}

impl<A: Allocator> Progress<A> {
    // The result of the stream.
    pub(crate) fn done(self) -> Done<A>
        ensures messages { result.messages ≡ self.messages }
        ensures written { result.written ≡ self.written }
        ensures balances { result.balances.items ≡ self.balances.items }
    {
        Done {
            messages: self.messages,
            written: self.written,
            balances: self.balances,
        }
    }
}
