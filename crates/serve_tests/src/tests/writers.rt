//! Each writer with its request for memory refused: earlier bytes are unchanged, and the next call
//! succeeds.

use fuse_wire::{
    Attr, Dirent, Errno, InitOut, Replies, put_attr, put_data, put_data_head, put_dirent,
    put_direntplus, put_entry, put_error, put_head, put_init, put_negative_entry, put_open,
    put_statfs, put_xattr_size,
};
use std::alloc::{AllocError, Allocator, Global};
use test_kit::refusing::Refusing;

const NODE: Attr = Attr {
    ino: 2,
    size: 2,
    blocks: 1,
    seconds: 0,
    nanoseconds: 0,
    mode: 0x81a4,
    nlink: 1,
    uid: 0,
    gid: 0,
    rdev: 0,
};

const OLDER: InitOut = InitOut::Terms {
    lasting: false,
    acls: false,
    minor: 22,
    max_readahead: 131_072,
    flags: 1,
};

fn put_reply<A: Allocator>(writer: u8, out: &mut Replies<A>) -> Result<(), AllocError> {
    match writer {
        0 => put_head(out, 1),
        1 => put_error(out, 1, Errno::EIO),
        2 => put_data(out, 1, b"data"),
        3 => put_init(out, 1, &InitOut::Version),
        4 => put_init(out, 1, &OLDER),
        5 => put_entry(out, 1, &NODE),
        6 => put_attr(out, 1, &NODE),
        7 => put_open(out, 1, 0),
        8 => put_statfs(out, 1, 11, 6),
        9 => put_xattr_size(out, 1, 3),
        _ => put_negative_entry(out, 1),
    }
}

fn put_row<A: Allocator>(writer: u8, out: &mut Replies<A>) -> Result<(), AllocError> {
    let row = Dirent {
        ino: 2,
        off: 3,
        file_type: 8,
        name: b"big",
    };
    match writer {
        11 => put_data_head(out, 1, 32),
        12 => put_dirent(out, &row),
        13 => put_direntplus(out, None, &row),
        _ => put_direntplus(out, Some(&NODE), &row),
    }
}

fn put_one<A: Allocator>(writer: u8, out: &mut Replies<A>) -> Result<(), AllocError> {
    if writer < 11 {
        put_reply(writer, out)
    } else {
        put_row(writer, out)
    }
}

/// How many bytes there are if a writer is refused its request after some bytes and is then called
/// again, and how many requests there were; none if the refusal is not reported, or changes earlier
/// bytes.
fn stands<'a>(memory: &'a Refusing<Global>, writer: u8) -> Option<(usize, u64)> {
    let mut out = Replies::new(memory);
    out.append(b"kept").ok()?;
    let is_told = put_one(writer, &mut out).is_err() && memory.refused();
    let is_kept = out.as_slice() == b"kept".as_slice();
    put_one(writer, &mut out).ok()?;
    (is_told && is_kept).then_some((out.len(), memory.requests()))
}

/// Each writer makes one request.
#[test]
fn a_refused_writer_appends_nothing(rt: HostRuntime) {
    for (writer, whole) in [
        (0, 20),
        (1, 20),
        (2, 24),
        (3, 84),
        (4, 44),
        (5, 148),
        (6, 124),
        (7, 36),
        (8, 100),
        (9, 28),
        (10, 148),
        (11, 20),
        (12, 36),
        (13, 164),
        (14, 164),
    ] {
        let memory = Refusing::new(rt.alloc(), 2);
        assert!(rt;
            stands(&memory, writer) == Some((whole, 3)),
            "writer {writer}"
        );
    }
}
