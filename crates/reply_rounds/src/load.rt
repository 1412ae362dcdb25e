//! How much work a round is, and whether it is worth workers.
//!
//! Starting a worker takes as long as some hundred ordinary requests, so a round is worth workers
//! only if its replies are long. Their lengths come from the table: from the bytes of files and the
//! rows of directories, never from the size in a request.
//!
//! A scan over the first messages adds up the expected time of each reply. It stops as soon as the
//! messages so far take less time than their share of a full round that is worth workers: after
//! five messages of ordinary requests, and at the end of a round with many rows.

ghost use Rattle.std.specs.Prelude.{◌≤◌, ◌^◌, IfSome};
ghost use Rattle.serve_loop.specs.declared.limits.TheConstants.{MAX_ROUND_MESSAGES};

use fuse_wire::limits::{MAX_DATA_SIZE, OUT_HEADER_SIZE};
use fuse_wire::{Framed, Op, Request, frame};
use node_reader::Table;
use romfs_format::Kind;
use romfs_format::limits::{MAX_TARGET_SIZE, MAX_XATTR_SIZE};
use serve_loop::limits::MAX_ROUND_MESSAGES;
use std::alloc::Allocator;

/// A round is worth workers if one thread needs this many nanoseconds to answer it. Within 2 MiB of
/// replies READ and READDIRPLUS take less: what workers save, one more copy of their replies costs.
const WORTH: u64 = 1_000_000;

/// The most bytes of replies of a round that workers answer: 2 MiB.
const MAX_REPLIES: u64 = 2_097_152;

/// Nanoseconds for each message of a full round that is barely worth workers.
const PACE: u64 = WORTH / MAX_ROUND_MESSAGES as u64;

/// The first messages may take this much less than their share, which is the share of four.
const HEAD_START: u64 = 4 * PACE;

/// The time for any reply, in nanoseconds, without its bytes and rows.
const REPLY_TIME: u64 = 100;

/// How many bytes of a file are copied in a nanosecond.
const COPIED: u64 = 8;

/// The time for a row of READDIR, in nanoseconds, and for one of READDIRPLUS.
const PLAIN_ROW_TIME: u64 = 20;

const PLUS_ROW_TIME: u64 = 34;

/// The most bytes of a reply without data and rows: the target of a symbolic link.
const SHORT_REPLY: u64 = (OUT_HEADER_SIZE as u32 + MAX_TARGET_SIZE) as u64;

/// The expected cost of the reply to a request.
#[derive(Clone, Copy)]
struct Load {
    // Nanoseconds of one thread.
    time: u64,
    // Bytes at most.
    room: u64,
    ghost short: { time ≤ 2 ^ 33 },
    ghost small: { room ≤ 2 ^ 33 },
}

/// How many of the first messages of a stream workers must answer: 1 to 256, with at most 2 MiB of
/// replies. None if the round is not worth workers.
pub fn worth_workers<A: Allocator>(table: &Table<A>, stream: &[u8]) -> Option<usize>
    ensures { IfSome result (λ n. (1 ≤ n) × (n ≤ MAX_ROUND_MESSAGES)) }
{
    let mut rest = stream;
    let mut messages = 0usize;
    let mut time = 0u64;
    let mut room = 0u64;
    while messages < MAX_ROUND_MESSAGES && PACE * messages as u64 <= time + HEAD_START {
        let Framed::Whole(len) = frame(rest) else {
            break;
        };
        let load = expected(table, &Request::read(&rest[..len]));
        if MAX_REPLIES < room + load.room {
            break;
        }
        time += load.time;
        room += load.room;
        messages += 1;
        rest = &rest[len..];
    }
    if WORTH <= time { Some(messages) } else { None }
}

// The load of a reply without data and rows.
const SHORT: Load = Load {
    time: REPLY_TIME,
    room: SHORT_REPLY,
};

// The expected cost of the reply to a request. Each opcode is named, so a new one does not compile
// before its reply is considered.
fn expected<A: Allocator>(table: &Table<A>, request: &Request<'_>) -> Load {
    match request.op {
        Op::Read { offset, size } if size <= MAX_DATA_SIZE => {
            data_load(left(file_size(table, request.node), offset), size)
        }
        Op::Readdir { offset, size } if size <= MAX_DATA_SIZE => {
            rows_load(left(rows(table, request.node), offset), size, false)
        }
        Op::Readdirplus { offset, size } if size <= MAX_DATA_SIZE => {
            rows_load(left(rows(table, request.node), offset), size, true)
        }
        Op::Read { .. } | Op::Readdir { .. } | Op::Readdirplus { .. } => SHORT,
        Op::Getxattr { size, .. } | Op::Listxattr { size } => xattr_load(size),
        Op::Init { .. } | Op::Destroy | Op::Interrupt => SHORT,
        Op::Lookup { .. } | Op::Forget { .. } | Op::BatchForget { .. } => SHORT,
        Op::Getattr | Op::Readlink | Op::Statfs => SHORT,
        Op::Open { .. } | Op::Release | Op::Fsync | Op::Flush => SHORT,
        Op::Opendir | Op::Releasedir | Op::Fsyncdir => SHORT,
        Op::Modify | Op::Other | Op::Malformed { .. } => SHORT,
    }
}

// The load of data of which this many bytes remain.
fn data_load(left: u64, size: u32) -> Load {
    let bytes = left.min(u64::from(size));
    Load {
        time: REPLY_TIME + bytes / COPIED,
        room: OUT_HEADER_SIZE as u64 + bytes,
    }
}

// The load of rows of which this many remain. A `struct fuse_dirent` (linux/fuse.h) has 24 bytes
// and a name, padded to multiples of 8: 32 to 280. With its entry a row has 128 bytes more.
#[inline(always)]
fn rows_load(left: u64, size: u32, with_entries: bool) -> Load {
    let size = u64::from(size);
    let rows = left.min(size);
    let (time, most) = if with_entries {
        (rows.min(size / 160) * PLUS_ROW_TIME, rows * 408)
    } else {
        (rows.min(size / 32) * PLAIN_ROW_TIME, rows * 280)
    };
    Load {
        time: REPLY_TIME + time,
        room: OUT_HEADER_SIZE as u64 + size.min(most),
    }
}

// The load of the value of an extended attribute, or of their names, which are mostly few bytes.
fn xattr_load(size: u32) -> Load {
    Load {
        time: REPLY_TIME,
        room: SHORT_REPLY + u64::from(size).min(MAX_XATTR_SIZE as u64),
    }
}

// How many remain after an offset.
fn left(len: u64, offset: u64) -> u64 {
    if offset < len { len - offset } else { 0 }
}

// How many bytes a regular file has; 0 for any other node.
fn file_size<A: Allocator>(table: &Table<A>, number: u64) -> u64 {
    match table.node(number) {
        Some(node) if node.kind == Kind::Regular => u64::from(node.part.len),
        _ => 0,
    }
}

// How many rows a directory has besides `.` and `..`; 0 for any other node.
fn rows<A: Allocator>(table: &Table<A>, number: u64) -> u64 {
    table.rows(number).len() as u64
}
