//! Messages as they are read.

ghost use Rattle.std.specs.Prelude.{◌≡◌, length};
ghost use Rattle.fuse_wire.specs.Stream.{IsGoodLength};
ghost use Rattle.fuse_wire.specs.Requests.{asked};
ghost use Rattle.fuse_wire.specs.Reads.{asked_of};

use crate::body::{read_op, wide, word};
use crate::forget::Forgets;
use crate::limits::HEADER_SIZE;
use crate::opcode::LOOKUP;
use byteorder::{ByteOrder, LittleEndian};

/// The offset of `opcode` in a `struct fuse_in_header`.
const OPCODE: usize = 4;

/// The offset of `unique` in a `struct fuse_in_header`.
const UNIQUE: usize = 8;

/// The offset of `nodeid` in a `struct fuse_in_header`.
const NODEID: usize = 16;

/// A message that was read (linux/fuse.h, `struct fuse_in_header` and the structure after it).
#[derive(Clone, Copy)]
pub struct Request<'a> {
    /// The number that the reply repeats.
    pub unique: u64,
    /// The number of the node that the request is about.
    pub node: u64,
    /// The request.
    pub op: Op<'a>,
}

/// A request, with the fields that answers use.
#[derive(Clone, Copy)]
pub enum Op<'a> {
    /// The first request of a session (`FUSE_INIT`).
    Init {
        /// The client's protocol version.
        major: u32,
        /// Its minor version.
        minor: u32,
        /// The most bytes that the client reads ahead.
        max_readahead: u32,
        /// What the client can do ([`flags`](crate::flags)).
        flags: u32,
    },
    /// The entry of this name in a directory (`FUSE_LOOKUP`).
    Lookup {
        /// The name, without its zero byte. It is not empty.
        name: &'a [u8],
    },
    /// Lookups of a node are forgotten (`FUSE_FORGET`).
    Forget {
        /// How many.
        nlookup: u64,
    },
    /// A node's attributes (`FUSE_GETATTR`).
    Getattr,
    /// A symbolic link's target (`FUSE_READLINK`).
    Readlink,
    /// A file is opened (`FUSE_OPEN`).
    Open {
        /// The flags of open(2), whose lowest two bits are the access mode.
        flags: u32,
    },
    /// Bytes of a file (`FUSE_READ`).
    Read {
        /// Their offset in the file.
        offset: u64,
        /// How many at most.
        size: u32,
    },
    /// Figures of the entire tree (`FUSE_STATFS`).
    Statfs,
    /// A file is closed (`FUSE_RELEASE`).
    Release,
    /// Store what was written to a file (`FUSE_FSYNC`).
    Fsync,
    /// A file's descriptor is closed (`FUSE_FLUSH`).
    Flush,
    /// A directory is opened (`FUSE_OPENDIR`).
    Opendir,
    /// Rows of a directory (`FUSE_READDIR`).
    Readdir {
        /// The place of the row before the first requested one; 0 for the first row of all.
        offset: u64,
        /// How many bytes of rows at most.
        size: u32,
    },
    /// A directory is closed (`FUSE_RELEASEDIR`).
    Releasedir,
    /// Store what was written to a directory (`FUSE_FSYNCDIR`).
    Fsyncdir,
    /// An earlier request is no longer needed (`FUSE_INTERRUPT`).
    Interrupt,
    /// The session ends (`FUSE_DESTROY`).
    Destroy,
    /// Lookups of several nodes are forgotten (`FUSE_BATCH_FORGET`).
    BatchForget {
        /// The nodes, and how many lookups of each.
        items: Forgets<'a>,
    },
    /// Rows of a directory, each with its node's entry (`FUSE_READDIRPLUS`).
    Readdirplus {
        /// The place of the row before the first requested one; 0 for the first row of all.
        offset: u64,
        /// How many bytes of rows at most.
        size: u32,
    },
    /// An extended attribute of a node (`FUSE_GETXATTR`).
    Getxattr {
        /// The most bytes of it; 0 asks for its length.
        size: u32,
        /// Its name, without the zero byte. It is not empty.
        name: &'a [u8],
    },
    /// The names of a node's extended attributes (`FUSE_LISTXATTR`).
    Listxattr {
        /// The most bytes of them; 0 asks for their length.
        size: u32,
    },
    /// An opcode that would change the tree.
    Modify,
    /// An unsupported opcode.
    Other,
    /// A body that is shorter than its structure, or has no valid name.
    Malformed {
        /// The message's opcode.
        opcode: u32,
    },
}

impl<'a> Request<'a> {
    /// Reads a complete message, as [`frame`](crate::frame) found it. Names and items are borrowed
    /// from it.
    pub fn read(message: &'a [u8]) -> Self
        requires { IsGoodLength (length message.now) }
        ensures { asked_of result ≡ asked message.now }
    {
        Request {
            unique: wide(message, UNIQUE),
            node: wide(message, NODEID),
            op: read_op(word(message, OPCODE), message, &message[HEADER_SIZE..]),
        }
    }
}

/// The node and the name of a LOOKUP, for reading ahead: no answer depends on it. `None` for any
/// other message. Only the length of the name is checked.
pub fn glance(message: &[u8]) -> Option<(u64, &[u8])> {
    if message.len() < HEADER_SIZE + 2 || LittleEndian::read_u32(&message[OPCODE..]) != LOOKUP {
        return None;
    }
    let node = LittleEndian::read_u64(&message[NODEID..]);
    Some((node, &message[HEADER_SIZE..message.len() - 1]))
}
