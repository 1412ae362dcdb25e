//! What a message asks for, by its opcode and the bytes after its header. Bytes after a structure
//! are ignored: later clients append fields.

ghost use Rattle.std.specs.Prelude.{◌≡◌, ◌+◌, ◌≤◌, length, drop};
ghost use Rattle.std.specs.Option.{option_map};
ghost use Rattle.fuse_wire.specs.declared.limits.TheConstants.{HEADER_SIZE, MAX_MESSAGE_SIZE};
ghost use Rattle.fuse_wire.specs.Stream.{field};
ghost use Rattle.fuse_wire.specs.Requests.{op_of, cut_at_zero, body_name, lookup_of, getxattr_of};
ghost use Rattle.fuse_wire.specs.Reads.{op_said};

use crate::forget::{BATCH_FORGET_IN_SIZE, Forgets};
use crate::limits::HEADER_SIZE;
use crate::opcode;
use crate::request::Op;
use byteorder::{ByteOrder, LittleEndian};
use memchr::memrchr;

/// The size of a `struct fuse_init_in` of version 7.31.
const INIT_IN_SIZE: usize = 16;

/// The size of a `struct fuse_forget_in`.
const FORGET_IN_SIZE: usize = 8;

/// The size of a `struct fuse_getattr_in`.
const GETATTR_IN_SIZE: usize = 16;

/// The size of a `struct fuse_open_in`.
const OPEN_IN_SIZE: usize = 8;

/// The size of a `struct fuse_read_in`.
const READ_IN_SIZE: usize = 40;

/// The size of a `struct fuse_getxattr_in`.
const GETXATTR_IN_SIZE: usize = 8;

// What an opcode with this body of a message asks for.
#[tactic(auto, unfolding(crate::specs::Requests::op_of))]
pub fn read_op<'a>(opcode: u32, message: &[u8], body: &'a [u8]) -> Op<'a>
    requires rest { body.now ≡ drop HEADER_SIZE message.now }
    requires short { HEADER_SIZE + length body.now ≤ MAX_MESSAGE_SIZE }
    ensures { op_said result ≡ op_of opcode body.now }
{
    match opcode {
        opcode::LOOKUP => read_lookup(message, body),
        opcode::FORGET if FORGET_IN_SIZE <= body.len() => Op::Forget {
            nlookup: wide(body, 0),
        },
        opcode::GETATTR if GETATTR_IN_SIZE <= body.len() => Op::Getattr,
        opcode::READLINK => Op::Readlink,
        opcode::OPEN if OPEN_IN_SIZE <= body.len() => Op::Open {
            flags: word(body, 0),
        },
        opcode::READ if READ_IN_SIZE <= body.len() => Op::Read {
            offset: wide(body, 8),
            size: word(body, 16),
        },
        opcode::STATFS => Op::Statfs,
        opcode::RELEASE => Op::Release,
        opcode::FSYNC => Op::Fsync,
        opcode::FLUSH => Op::Flush,
        opcode::INIT if INIT_IN_SIZE <= body.len() => Op::Init {
            major: word(body, 0),
            minor: word(body, 4),
            max_readahead: word(body, 8),
            flags: word(body, 12),
        },
        opcode::OPENDIR if OPEN_IN_SIZE <= body.len() => Op::Opendir,
        opcode::READDIR if READ_IN_SIZE <= body.len() => Op::Readdir {
            offset: wide(body, 8),
            size: word(body, 16),
        },
        opcode::RELEASEDIR => Op::Releasedir,
        opcode::FSYNCDIR => Op::Fsyncdir,
        opcode::INTERRUPT => Op::Interrupt,
        opcode::DESTROY => Op::Destroy,
        opcode::BATCH_FORGET if BATCH_FORGET_IN_SIZE <= body.len() => Op::BatchForget {
            items: Forgets::read(body),
        },
        opcode::READDIRPLUS if READ_IN_SIZE <= body.len() => Op::Readdirplus {
            offset: wide(body, 8),
            size: word(body, 16),
        },
        opcode::GETXATTR if GETXATTR_IN_SIZE <= body.len() => read_getxattr(message, body),
        opcode::LISTXATTR if GETXATTR_IN_SIZE <= body.len() => Op::Listxattr {
            size: word(body, 0),
        },
        opcode::FORGET
        | opcode::GETATTR
        | opcode::OPEN
        | opcode::READ
        | opcode::INIT
        | opcode::OPENDIR
        | opcode::READDIR
        | opcode::BATCH_FORGET
        | opcode::READDIRPLUS
        | opcode::GETXATTR
        | opcode::LISTXATTR => Op::Malformed { opcode },
        opcode::SETATTR
        | opcode::SYMLINK
        | opcode::MKNOD
        | opcode::MKDIR
        | opcode::UNLINK
        | opcode::RMDIR
        | opcode::RENAME
        | opcode::LINK
        | opcode::WRITE
        | opcode::SETXATTR
        | opcode::REMOVEXATTR
        | opcode::CREATE
        | opcode::FALLOCATE
        | opcode::RENAME2
        | opcode::COPY_FILE_RANGE => Op::Modify,
        _ => Op::Other,
    }
}

// The number of 32 bits at a place of a message or of its body.
pub fn word(body: &[u8], place: usize) -> u32
    requires { place + 4 ≤ length body.now }
    ensures { result ≡ field 4 place body.now }
{
    LittleEndian::read_u32(&body[place..])
}

// The number of 64 bits at a place of a message or of its body.
pub fn wide(body: &[u8], place: usize) -> u64
    requires { place + 8 ≤ length body.now }
    ensures { result ≡ field 8 place body.now }
{
    LittleEndian::read_u64(&body[place..])
}

// What a LOOKUP with this body of a message asks for.
fn read_lookup<'a>(message: &[u8], body: &'a [u8]) -> Op<'a>
    requires { body.now ≡ drop HEADER_SIZE message.now }
    ensures { op_said result ≡ lookup_of body.now }
{
    match read_name(message, HEADER_SIZE, body) {
        Some(name) => Op::Lookup { name },
        None => Op::Malformed {
            opcode: opcode::LOOKUP,
        },
    }
}

// What a GETXATTR with this body of a message asks for; the body holds its structure.
fn read_getxattr<'a>(message: &[u8], body: &'a [u8]) -> Op<'a>
    requires rest { body.now ≡ drop HEADER_SIZE message.now }
    requires whole { 8 ≤ length body.now }
    ensures { op_said result ≡ getxattr_of body.now }
{
    let start = HEADER_SIZE + GETXATTR_IN_SIZE;
    match read_name(message, start, &body[GETXATTR_IN_SIZE..]) {
        Some(name) => Op::Getxattr {
            size: word(body, 0),
            name,
        },
        None => Op::Malformed {
            opcode: opcode::GETXATTR,
        },
    }
}

// The name at the end of a message, from a place on: its last byte is its only zero byte, and it is
// not empty.
//
// The search for another zero byte begins after the name and may end in what precedes it. So there
// are 32 bytes to look at at once, and few names are longer.
#[tactic(auto, using(crate::proofs::Names::named))]
fn read_name<'a>(message: &[u8], start: usize, body: &'a [u8]) -> Option<&'a [u8]>
    requires { body.now ≡ drop start message.now }
    ensures { option_map (λ name. name.now) result ≡ body_name (cut_at_zero body.now) }
{
    if body.len() < 2 {
        return None;
    }
    let end = body.len() - 1;
    match memrchr(0, &message[..start + end]) {
        Some(place) if start <= place => None,
        _ if body[end] != 0 => None,
        _ => Some(&body[..end]),
    }
}
