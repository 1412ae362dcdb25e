//! The structures of replies (linux/fuse.h), each set over existing bytes, from a place on, field
//! by field in order. Each function returns the place after it.

ghost use Rattle.std.specs.Prelude.{◌≡◌, ◌++◌, ◌<◌, ◌≤◌, ◌+◌, ◌^◌, length, take};
ghost use Rattle.fuse_wire.specs.Structures.{init_out, init_out_22, init_out_rest, max_pages, served_flags, attr, entry_out, negative_entry_out, attr_out, open_out, getxattr_out, statfs_out, row_front};
ghost use Rattle.fuse_wire.specs.Replies.{reply_head, error_reply};

use crate::limits::{MAX_NAME_SIZE, MAX_READAHEAD, MAX_WRITE, OUT_HEADER_SIZE};
use crate::structure::{set_u16, set_u32, set_u64, set_zeros};
use crate::{Attr, Dirent, Errno, InitOut, flags};

/// The size of a `struct fuse_init_out`.
pub const INIT_OUT_SIZE: usize = 64;

/// The size of the front of a `struct fuse_init_out`, all that clients of minor versions below 23
/// know (`FUSE_COMPAT_22_INIT_OUT_SIZE`).
pub const COMPAT_22_INIT_OUT_SIZE: usize = 24;

/// The size of a `struct fuse_entry_out`.
pub const ENTRY_OUT_SIZE: usize = 128;

/// The size of a `struct fuse_attr_out`.
pub const ATTR_OUT_SIZE: usize = 104;

/// The size of a `struct fuse_open_out`.
pub const OPEN_OUT_SIZE: usize = 16;

/// The size of a `struct fuse_getxattr_out`.
pub const GETXATTR_OUT_SIZE: usize = 8;

/// The size of a `struct fuse_statfs_out`.
pub const STATFS_OUT_SIZE: usize = 80;

/// The protocol's version (`FUSE_KERNEL_VERSION`).
const MAJOR: u32 = 7;

/// The protocol's minor version (`FUSE_KERNEL_MINOR_VERSION`).
const MINOR: u32 = 31;

/// The flags that a session may have.
const SERVED_FLAGS: u32 = 0x0044_6011;

/// The same if the tree lasts.
const LASTING_FLAGS: u32 = 0x01c6_6011;

/// How many requests may wait in the background.
const MAX_BACKGROUND: u16 = 12;

/// With this many requests in the background the client slows down.
const CONGESTION_THRESHOLD: u16 = 9;

/// The resolution of times, in nanoseconds.
const TIME_GRANULARITY: u32 = 1;

/// How many pages of 4,096 bytes a request may have.
const MAX_PAGES: u16 = 32;

/// The same if the tree lasts: as many as Linux allows (its `FUSE_MAX_MAX_PAGES`).
const LASTING_MAX_PAGES: u16 = 256;

/// How long an entry or attributes stay valid, in seconds.
const VALID_SECONDS: u64 = 3_600;

/// The size of a block for transfers, in bytes.
const BLOCK_SIZE: u32 = 4_096;

/// The size of the blocks that STATFS counts, in bytes.
const STATFS_BLOCK_SIZE: u32 = 512;

// `struct fuse_out_header` of a reply without an error and with `size` bytes of data.
#[tactic(auto, unfolding(crate::specs::Replies::reply_head))]
pub fn head(fields: &mut [u8], at: usize, unique: u64, size: usize) -> usize
    requires room { at + 16 ≤ length fields.old }
    requires size { 16 + size < 2 ^ 32 }
    ensures fields { take result fields.new ≡ take at fields.old ++ reply_head unique size }
    ensures size { length fields.new ≡ length fields.old }
    ensures end { result ≡ at + 16 }
{
    let at = set_u32(fields, at, (OUT_HEADER_SIZE + size) as u32); // len
    let at = set_u32(fields, at, 0); // error
    set_u64(fields, at, unique)
}

// The same for a reply with an error.
#[tactic(auto, unfolding(crate::specs::Replies::error_reply))]
pub fn error_head(fields: &mut [u8], at: usize, unique: u64, errno: Errno) -> usize
    requires { at + 16 ≤ length fields.old }
    ensures fields { take result fields.new ≡ take at fields.old ++ error_reply unique errno }
    ensures size { length fields.new ≡ length fields.old }
    ensures end { result ≡ at + 16 }
{
    let at = set_u32(fields, at, OUT_HEADER_SIZE as u32); // len
    let at = set_u32(fields, at, errno.number().wrapping_neg()); // error
    set_u64(fields, at, unique)
}

// `struct fuse_init_out`, as far as the client knows it.
#[tactic(auto, unfolding(crate::specs::Structures::init_out), using(crate::proofs::Sizes::sizes))]
pub fn init_out(fields: &mut [u8], at: usize, init: &InitOut) -> usize
    requires { at + 64 ≤ length fields.old }
    ensures fields { take result fields.new ≡ take at fields.old ++ init_out init.now }
    ensures size { length fields.new ≡ length fields.old }
    ensures end { result ≡ at + length (init_out init.now) }
{
    match *init {
        InitOut::Version => {
            let at = set_u32(fields, at, MAJOR);
            let at = set_u32(fields, at, MINOR);
            set_zeros::<56>(fields, at)
        }
        InitOut::Terms {
            lasting,
            acls,
            minor,
            max_readahead,
            flags,
        } => {
            let session_flags = flags & served_flags(lasting, acls);
            let at = init_out_22(fields, at, max_readahead, session_flags);
            if 23 <= minor {
                init_out_rest(fields, at, lasting, flags)
            } else {
                at
            }
        }
    }
}

// Its fields up to `max_write`.
#[tactic(auto, unfolding(crate::specs::Structures::init_out_22))]
fn init_out_22(fields: &mut [u8], at: usize, max_readahead: u32, session_flags: u32) -> usize
    requires { at + 24 ≤ length fields.old }
    ensures fields { take result fields.new
        ≡ take at fields.old ++ init_out_22 max_readahead session_flags }
    ensures size { length fields.new ≡ length fields.old }
    ensures end { result ≡ at + 24 }
{
    let at = set_u32(fields, at, MAJOR);
    let at = set_u32(fields, at, MINOR);
    let at = set_u32(fields, at, max_readahead.min(MAX_READAHEAD));
    let at = set_u32(fields, at, session_flags);
    let at = set_u16(fields, at, MAX_BACKGROUND);
    let at = set_u16(fields, at, CONGESTION_THRESHOLD);
    set_u32(fields, at, MAX_WRITE)
}

// Its fields from `time_gran` on.
#[tactic(auto, unfolding(crate::specs::Structures::init_out_rest))]
fn init_out_rest(fields: &mut [u8], at: usize, lasting: bool, flags: u32) -> usize
    requires { at + 40 ≤ length fields.old }
    ensures fields { take result fields.new
        ≡ take at fields.old ++ init_out_rest lasting flags }
    ensures size { length fields.new ≡ length fields.old }
    ensures end { result ≡ at + 40 }
{
    let at = set_u32(fields, at, TIME_GRANULARITY);
    let at = set_u16(fields, at, max_pages(lasting, flags));
    let at = set_u16(fields, at, 0); // map_alignment
    set_zeros::<32>(fields, at) // unused
}

// The flags that a session may have.
fn served_flags(lasting: bool, acls: bool) -> u32
    ensures { result ≡ served_flags lasting acls }
{
    let of_tree = if lasting { LASTING_FLAGS } else { SERVED_FLAGS };
    if acls {
        of_tree + flags::POSIX_ACL
    } else {
        of_tree
    }
}

// How many pages a request may have, for a client with these flags.
#[tactic(auto, using(crate::proofs::FlagBits::max_pages_bit))]
fn max_pages(lasting: bool, flags: u32) -> u16
    ensures { result ≡ max_pages lasting flags }
{
    if flags & flags::MAX_PAGES == 0 {
        0
    } else if lasting {
        LASTING_MAX_PAGES
    } else {
        MAX_PAGES
    }
}

// `struct fuse_attr`. Its three times are equal.
#[tactic(auto, unfolding(crate::specs::Structures::attr))]
fn attr(fields: &mut [u8], at: usize, node: &Attr) -> usize
    requires { at + 88 ≤ length fields.old }
    ensures fields { take result fields.new ≡ take at fields.old ++ attr node.now }
    ensures size { length fields.new ≡ length fields.old }
    ensures end { result ≡ at + 88 }
{
    let at = set_u64(fields, at, node.ino);
    let at = set_u64(fields, at, node.size);
    let at = set_u64(fields, at, node.blocks);
    let at = set_u64(fields, at, node.seconds); // atime
    let at = set_u64(fields, at, node.seconds); // mtime
    let at = set_u64(fields, at, node.seconds); // ctime
    let at = set_u32(fields, at, node.nanoseconds); // atimensec
    let at = set_u32(fields, at, node.nanoseconds); // mtimensec
    let at = set_u32(fields, at, node.nanoseconds); // ctimensec
    let at = set_u32(fields, at, node.mode);
    let at = set_u32(fields, at, node.nlink);
    let at = set_u32(fields, at, node.uid);
    let at = set_u32(fields, at, node.gid);
    let at = set_u32(fields, at, node.rdev);
    let at = set_u32(fields, at, BLOCK_SIZE); // blksize
    set_u32(fields, at, 0) // padding
}

// `struct fuse_entry_out`.
#[tactic(auto, unfolding(crate::specs::Structures::entry_out))]
pub fn entry_out(fields: &mut [u8], at: usize, node: &Attr) -> usize
    requires { at + 128 ≤ length fields.old }
    ensures fields { take result fields.new ≡ take at fields.old ++ entry_out node.now }
    ensures size { length fields.new ≡ length fields.old }
    ensures end { result ≡ at + 128 }
{
    let at = set_u64(fields, at, node.ino); // nodeid
    let at = set_u64(fields, at, 0); // generation
    let at = set_u64(fields, at, VALID_SECONDS); // entry_valid
    let at = set_u64(fields, at, VALID_SECONDS); // attr_valid
    let at = set_u32(fields, at, 0); // entry_valid_nsec
    let at = set_u32(fields, at, 0); // attr_valid_nsec
    attr(fields, at, node)
}

// `struct fuse_entry_out` for a name without an entry.
#[tactic(auto, unfolding(crate::specs::Structures::negative_entry_out))]
pub fn negative_entry_out(fields: &mut [u8], at: usize) -> usize
    requires { at + 128 ≤ length fields.old }
    ensures fields { take result fields.new ≡ take at fields.old ++ negative_entry_out }
    ensures size { length fields.new ≡ length fields.old }
    ensures end { result ≡ at + 128 }
{
    let at = set_u64(fields, at, 0); // nodeid
    let at = set_u64(fields, at, 0); // generation
    let at = set_u64(fields, at, VALID_SECONDS); // entry_valid
    let at = set_u64(fields, at, 0); // attr_valid
    let at = set_u32(fields, at, 0); // entry_valid_nsec
    let at = set_u32(fields, at, 0); // attr_valid_nsec
    set_zeros::<88>(fields, at) // attr
}

// `struct fuse_attr_out`.
#[tactic(auto, unfolding(crate::specs::Structures::attr_out))]
pub fn attr_out(fields: &mut [u8], at: usize, node: &Attr) -> usize
    requires { at + 104 ≤ length fields.old }
    ensures fields { take result fields.new ≡ take at fields.old ++ attr_out node.now }
    ensures size { length fields.new ≡ length fields.old }
    ensures end { result ≡ at + 104 }
{
    let at = set_u64(fields, at, VALID_SECONDS); // attr_valid
    let at = set_u32(fields, at, 0); // attr_valid_nsec
    let at = set_u32(fields, at, 0); // dummy
    attr(fields, at, node)
}

// `struct fuse_open_out`.
#[tactic(auto, unfolding(crate::specs::Structures::open_out))]
pub fn open_out(fields: &mut [u8], at: usize, open_flags: u32) -> usize
    requires { at + 16 ≤ length fields.old }
    ensures fields { take result fields.new ≡ take at fields.old ++ open_out open_flags }
    ensures size { length fields.new ≡ length fields.old }
    ensures end { result ≡ at + 16 }
{
    let at = set_u64(fields, at, 0); // fh
    let at = set_u32(fields, at, open_flags);
    set_u32(fields, at, 0) // padding
}

// `struct fuse_getxattr_out`.
#[tactic(auto, unfolding(crate::specs::Structures::getxattr_out))]
pub fn getxattr_out(fields: &mut [u8], at: usize, size: u32) -> usize
    requires { at + 8 ≤ length fields.old }
    ensures fields { take result fields.new ≡ take at fields.old ++ getxattr_out size }
    ensures size { length fields.new ≡ length fields.old }
    ensures end { result ≡ at + 8 }
{
    let at = set_u32(fields, at, size);
    set_u32(fields, at, 0) // padding
}

// `struct fuse_statfs_out`, which holds a `struct fuse_kstatfs`.
#[tactic(auto, unfolding(crate::specs::Structures::statfs_out))]
pub fn statfs_out(fields: &mut [u8], at: usize, blocks: u64, files: u64) -> usize
    requires { at + 80 ≤ length fields.old }
    ensures fields { take result fields.new ≡ take at fields.old ++ statfs_out blocks files }
    ensures size { length fields.new ≡ length fields.old }
    ensures end { result ≡ at + 80 }
{
    let at = set_u64(fields, at, blocks);
    let at = set_u64(fields, at, 0); // bfree
    let at = set_u64(fields, at, 0); // bavail
    let at = set_u64(fields, at, files);
    let at = set_u64(fields, at, 0); // ffree
    let at = set_u32(fields, at, STATFS_BLOCK_SIZE); // bsize
    let at = set_u32(fields, at, MAX_NAME_SIZE); // namelen
    let at = set_u32(fields, at, STATFS_BLOCK_SIZE); // frsize
    let at = set_u32(fields, at, 0); // padding
    set_zeros::<24>(fields, at) // spare
}

// `struct fuse_dirent` up to its name.
#[tactic(auto, unfolding(crate::specs::Structures::dirent_front))]
pub fn dirent_front(fields: &mut [u8], at: usize, row: &Dirent<'_>) -> usize
    requires room { at + 24 ≤ length fields.old }
    requires named { length row.now.name.now < 2 ^ 32 }
    ensures fields { take result fields.new ≡ take at fields.old ++ row_front row.now }
    ensures size { length fields.new ≡ length fields.old }
    ensures end { result ≡ at + 24 }
{
    let at = set_u64(fields, at, row.ino);
    let at = set_u64(fields, at, row.off);
    let at = set_u32(fields, at, row.name.len() as u32); // namelen
    set_u32(fields, at, row.file_type) // type
}
