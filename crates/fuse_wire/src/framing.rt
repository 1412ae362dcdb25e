//! How a stream of bytes is cut into messages.

ghost use Rattle.fuse_wire.specs.Frames.{Frames};

use crate::limits::{HEADER_SIZE, MAX_MESSAGE_SIZE};
use byteorder::{ByteOrder, LittleEndian};

/// The size of the field `len` of a `struct fuse_in_header`, the first four bytes of a message.
const LEN_SIZE: usize = 4;

/// What a run of bytes begins with.
#[derive(Clone, Copy, PartialEq, Eq)]
pub enum Framed {
    /// No complete message yet: more bytes are needed.
    More,
    /// Four bytes with this length, which no message can have.
    Bad(u32),
    /// A message of this many bytes.
    Whole(usize),
}

/// Says what the bytes of a stream begin with, from the first byte of a message on. The length that
/// a message states (linux/fuse.h, `fuse_in_header.len`) includes its header, and is checked as
/// soon as its four bytes have arrived.
#[tactic(auto, using(crate::proofs::Begins::framed))]
pub fn frame(bytes: &[u8]) -> Framed
    ensures { Frames bytes.now result }
{
    if bytes.len() < LEN_SIZE {
        return Framed::More;
    }
    let said = LittleEndian::read_u32(bytes);
    let len = said as usize;
    if len < HEADER_SIZE || MAX_MESSAGE_SIZE < len {
        Framed::Bad(said)
    } else if bytes.len() < len {
        Framed::More
    } else {
        Framed::Whole(len)
    }
}
