//! The limits of messages and replies, each defined once: code, definitions, clauses and proofs
//! name the same constants. A limit of Linux is cited by its name there; the others are this
//! project's.

/// The size of a `struct fuse_in_header` (linux/fuse.h), in bytes: no message is shorter.
pub const HEADER_SIZE: usize = 40;

/// The size of a `struct fuse_out_header` (linux/fuse.h), in bytes: no reply is shorter.
pub const OUT_HEADER_SIZE: usize = 16;

/// The most bytes that one READ, READDIR or READDIRPLUS may ask for, and so the most data of one
/// reply: 1 MiB. This project's; Linux asks for no more than 256 pages (its `FUSE_MAX_MAX_PAGES`),
/// which is the same for pages of 4,096 bytes.
pub const MAX_DATA_SIZE: u32 = 1_048_576;

/// The most bytes that a client may read ahead (`max_readahead` of linux/fuse.h, `struct
/// fuse_init_out`): as many as one READ may ask for. This project's.
pub const MAX_READAHEAD: u32 = MAX_DATA_SIZE;

/// The most bytes that a client may send with one WRITE (`max_write` of linux/fuse.h, `struct
/// fuse_init_out`): 32 pages of 4,096 bytes. This project's; no WRITE is served.
pub const MAX_WRITE: u32 = 131_072;

/// The most bytes of a message: 4,096 for its header and everything but data, and as many for data
/// as a reply may have. This project's.
pub const MAX_MESSAGE_SIZE: usize = 4_096 + MAX_DATA_SIZE as usize;

/// The most bytes of a reply: its header and the most data.
pub const MAX_REPLY_SIZE: usize = OUT_HEADER_SIZE + MAX_DATA_SIZE as usize;

/// The most bytes of a name (`NAME_MAX` of linux/limits.h), which STATFS reports as `namelen`
/// (linux/fuse.h, `struct fuse_kstatfs`). Targets of links are bounded by the rules of images.
pub const MAX_NAME_SIZE: u32 = 255;

/// The most nodes that one message forgets: as many items of 16 bytes as the longest
/// `FUSE_BATCH_FORGET` has room for after 8 bytes of its own.
pub const MAX_FORGETS: usize = (MAX_MESSAGE_SIZE - HEADER_SIZE - 8) / 16;
