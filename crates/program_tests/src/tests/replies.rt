//! A sink over a writer that takes one complete reply per write.

use devices::{Sink, hand_on};
use serve_device::ReplySpout;
use std::alloc::{AllocError, Global};
use std::io::{self, Error, Write};
use std::test::Fail;

/// A writer that takes at most this many bytes of a write, and this many writes, and then fails
/// with an error number. It keeps the sizes of its writes.
#[derive(Drop)]
struct Replies {
    taken: Vec<u8>,
    sizes: Vec<usize>,
    most: usize,
    writes: usize,
    number: i32,
    flushes: u64,
}

fn replies_of(alloc: Global, most: usize, writes: usize, number: i32) -> Replies {
    Replies {
        taken: Vec::new(alloc),
        sizes: Vec::new(alloc),
        most,
        writes,
        number,
        flushes: 0,
    }
}

impl Write for Replies {
    fn write(&mut self, bytes: &[u8]) -> io::Result<usize> {
        self.sizes.push(bytes.len())?;
        if self.writes < self.sizes.len() {
            return Err(Error::from_raw_os_error(self.number));
        }
        let count = bytes.len().min(self.most);
        self.taken.extend_from_slice(&bytes[..count])?;
        Ok(count)
    }

    fn flush(&mut self) -> io::Result<()> {
        self.flushes = self.flushes.saturating_add(1);
        Ok(())
    }
}

/// Runs of bytes of these lengths, each of which begins with its length.
fn bytes_of(alloc: Global, lengths: &[u32]) -> Result<Vec<u8>, AllocError> {
    let mut bytes = Vec::new(alloc);
    for len in lengths {
        bytes.extend_from_slice(&len.to_le_bytes())?;
        for place in 4..*len {
            bytes.push((place % 251) as u8)?;
        }
    }
    Ok(bytes)
}

/// The result of pushing bytes to a writer.
#[derive(Clone, Copy, PartialEq, Eq)]
struct Seen {
    /// How many bytes were pushed; none if it failed.
    pushed: Option<usize>,
    /// How many bytes the writer has, if they are a prefix of what was pushed.
    taken: Option<usize>,
    /// Whether its writes had the sizes that they should.
    sized: bool,
    flushes: u64,
    /// Whether the device was gone, before the first push and after the last.
    gone: (bool, bool),
}

/// Pushes bytes once, or all of them, to a writer whose writes should have these sizes.
fn pushes_of(mut writer: Replies, bytes: &[u8], whole: bool, sizes: &[usize]) -> Seen {
    let mut spout = ReplySpout::new(&mut writer);
    let at_first = spout.is_gone();
    let pushed = if whole {
        hand_on(&mut spout, bytes).ok().map(|()| bytes.len())
    } else {
        spout.push(bytes).ok()
    };
    let gone = (at_first, spout.is_gone());
    drop(spout);
    let taken = writer.taken.len();
    Seen {
        pushed,
        taken: bytes.starts_with(&writer.taken).then_some(taken),
        sized: writer.sizes.as_slice() == sizes,
        flushes: writer.flushes,
        gone,
    }
}

#[test]
fn a_reply_a_write(rt: HostRuntime) -> Result<(), Fail> {
    let bytes = bytes_of(rt.alloc(), &[16, 80, 120, 1_048_592, 16])?;
    let writer = replies_of(rt.alloc(), usize::MAX, usize::MAX, 5);
    let seen = pushes_of(writer, &bytes, true, &[16, 80, 120, 1_048_592, 16]);
    drop(bytes);
    let told = Seen {
        pushed: Some(1_048_824),
        taken: Some(1_048_824),
        sized: true,
        flushes: 1,
        gone: (false, false),
    };
    assert!(rt; seen == told);
    Ok(())
}

#[test]
fn a_short_write_is_told(rt: HostRuntime) -> Result<(), Fail> {
    let bytes = bytes_of(rt.alloc(), &[80, 120])?;
    for (most, taken) in [(79, 79), (1, 1), (0, 0), (80, 80), (200, 80)] {
        let writer = replies_of(rt.alloc(), most, usize::MAX, 5);
        let seen = pushes_of(writer, &bytes, false, &[80]);
        let told = Seen {
            pushed: Some(taken),
            taken: Some(taken),
            sized: true,
            flushes: 0,
            gone: (false, false),
        };
        assert!(rt; seen == told, "{most}");
    }
    Ok(())
}

#[test]
fn bytes_without_a_whole_reply(rt: HostRuntime) -> Result<(), Fail> {
    for (said, size) in [
        (16u32, 0),
        (16, 3),
        (16, 15),
        (300, 299),
        (15, 30),
        (301, 300),
    ] {
        let mut bytes = bytes_of(rt.alloc(), &[said])?;
        bytes.resize(size, 0)?;
        let writer = replies_of(rt.alloc(), usize::MAX, usize::MAX, 5);
        let seen = pushes_of(writer, &bytes, false, &[]);
        drop(bytes);
        let told = Seen {
            pushed: None,
            taken: Some(0),
            sized: true,
            flushes: 0,
            gone: (false, false),
        };
        assert!(rt; seen == told, "{said} in {size}");
    }
    Ok(())
}

#[test]
fn writes_that_fail(rt: HostRuntime) -> Result<(), Fail> {
    let bytes = bytes_of(rt.alloc(), &[16, 80, 120])?;
    for (number, taken_away) in [(19, true), (4, false), (5, false), (11, false)] {
        for (sizes, taken) in [([16].as_slice(), 0), ([16, 80, 120].as_slice(), 96)] {
            let writer = replies_of(rt.alloc(), usize::MAX, sizes.len() - 1, number);
            let seen = pushes_of(writer, &bytes, true, sizes);
            let told = Seen {
                pushed: None,
                taken: Some(taken),
                sized: true,
                flushes: 0,
                gone: (false, taken_away),
            };
            assert!(rt; seen == told, "{number}");
        }
    }
    Ok(())
}

/// A reply that no request waits for is dropped after it is written: after each of them the next
/// one follows, and the bytes that the writer took are those before the first.
#[test]
fn replies_that_nobody_waits_for(rt: HostRuntime) -> Result<(), Fail> {
    let bytes = bytes_of(rt.alloc(), &[16, 80, 120])?;
    for (writes, taken) in [(0, 0), (1, 16), (2, 96)] {
        let writer = replies_of(rt.alloc(), usize::MAX, writes, 2);
        let seen = pushes_of(writer, &bytes, true, &[16, 80, 120]);
        let told = Seen {
            pushed: Some(216),
            taken: Some(taken),
            sized: true,
            flushes: 1,
            gone: (false, false),
        };
        assert!(rt; seen == told, "{writes}");
    }
    Ok(())
}
