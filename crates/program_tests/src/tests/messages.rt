//! A source over a reader that returns one complete message per read.

use devices::Source;
use serve_device::MessageTap;
use std::alloc::{AllocError, Global};
use std::io::{self, Error, Read};
use std::test::Fail;
use test_kit::refusing::Refusing;

/// The least room for a read that the kernel accepts.
const LEAST_ROOM: usize = 131_152;

/// A reader that returns messages of these sizes, one per read; each byte is its place modulo 251.
/// Before each message this many reads are interrupted with an error number. Then the reader fails
/// with an error number, or ends.
#[derive(Drop)]
struct Messages<'a> {
    sizes: &'a [usize],
    given: usize,
    times: u32,
    number: i32,
    last: Option<i32>,
    interrupted: u32,
    reads: u64,
    /// The least room of any read.
    least: usize,
}

/// Messages of these sizes, and then the end.
fn messages_of(sizes: &[usize]) -> Messages<'_> {
    Messages {
        sizes,
        given: 0,
        times: 0,
        number: 0,
        last: None,
        interrupted: 0,
        reads: 0,
        least: usize::MAX,
    }
}

fn put_places(into: &mut [u8]) {
    for (place, byte) in into.iter_mut().enumerate() {
        *byte = (place % 251) as u8;
    }
}

impl Read for Messages<'_> {
    fn read(&mut self, into: &mut [u8]) -> io::Result<usize> {
        self.reads = self.reads.saturating_add(1);
        self.least = self.least.min(into.len());
        let Some(size) = self.sizes.get(self.given) else {
            return match self.last {
                Some(number) => Err(Error::from_raw_os_error(number)),
                None => Ok(0),
            };
        };
        if self.interrupted < self.times {
            self.interrupted += 1;
            return Err(Error::from_raw_os_error(self.number));
        }
        let size = (*size).min(into.len());
        put_places(&mut into[..size]);
        self.interrupted = 0;
        self.given = self.given.saturating_add(1);
        Ok(size)
    }
}

/// What pulls returned until the end or a failure.
#[derive(Drop)]
struct Pulled {
    bytes: Vec<u8>,
    pulls: u32,
    ended: bool,
}

/// Pulls into a room of this size.
fn pull_all<S: Source>(alloc: Global, source: &mut S, room: usize) -> Result<Pulled, AllocError> {
    let mut bytes = Vec::new(alloc);
    let mut into = vec![in alloc; 0u8; room.max(1)]?;
    for pulls in 1..=5000 {
        match source.pull(&mut into) {
            Ok(0) => {
                let ended = true;
                return Ok(Pulled {
                    bytes,
                    pulls,
                    ended,
                });
            }
            Ok(n) => bytes.extend_from_slice(&into[..n])?,
            Err(_) => {
                let ended = false;
                return Ok(Pulled {
                    bytes,
                    pulls,
                    ended,
                });
            }
        }
    }
    Err(AllocError)
}

/// What pulls returned until the end or a failure.
#[derive(Clone, Copy, PartialEq, Eq)]
struct Seen {
    /// Whether they returned the messages that they should.
    whole: bool,
    /// Whether they reached the end.
    ended: bool,
    pulls: u32,
    /// Whether the device was gone, before the first pull and after the last.
    gone: (bool, bool),
}

/// Pulls messages from the reader into a room of this size: messages of these sizes, and no others.
fn pulls_of(
    alloc: Global,
    reader: &mut Messages<'_>,
    room: usize,
    sizes: &[usize],
) -> Result<Seen, AllocError> {
    let mut tap = MessageTap::new(alloc, reader)?;
    let at_first = tap.is_gone();
    let pulled = pull_all(alloc, &mut tap, room)?;
    Ok(Seen {
        whole: are_messages(&pulled.bytes, sizes),
        ended: pulled.ended,
        pulls: pulled.pulls,
        gone: (at_first, tap.is_gone()),
    })
}

/// Whether the bytes are one message after another.
fn are_messages(bytes: &[u8], sizes: &[usize]) -> bool {
    let mut rest = bytes;
    for size in sizes {
        let Some((message, after)) = rest.split_at_checked(*size) else {
            return false;
        };
        let whole = message
            .iter()
            .enumerate()
            .all(|(place, byte)| usize::from(*byte) == place % 251);
        if !whole {
            return false;
        }
        rest = after;
    }
    rest.is_empty()
}

/// The sizes of two messages, the room of a pull, and how many pulls read them, including the one
/// that reads the end.
const SIZES: [([usize; 2], usize, u32); 10] = [
    ([40, 41], 65_536, 3),
    ([40, 104], 41, 5),
    ([56, 40], 1, 97),
    ([4_095, 4_096], 65_536, 3),
    ([65_535, 65_536], 65_536, 3),
    ([65_537, 69_104], 65_536, 5),
    ([131_152, 40], 65_536, 5),
    ([135_168, 135_167], 65_536, 7),
    ([135_168, 40], 135_168, 3),
    ([40, 135_168], 200_000, 3),
];

#[test]
fn a_message_a_read(rt: HostRuntime) -> Result<(), Fail> {
    for (sizes, room, pulls) in SIZES {
        let mut reader = messages_of(&sizes);
        let seen = pulls_of(rt.alloc(), &mut reader, room, &sizes)?;
        let told = Seen {
            whole: true,
            ended: true,
            pulls,
            gone: (false, false),
        };
        assert!(rt; seen == told, "{sizes:?}");
        assert!(rt;
            reader.reads == 3 && LEAST_ROOM <= reader.least,
            "{sizes:?}"
        );
    }
    Ok(())
}

#[test]
fn interrupted_reads(rt: HostRuntime) -> Result<(), Fail> {
    for (times, number, pulls, ended) in [
        (1000, 2, 3, true),
        (1000, 4, 3, true),
        (1000, 11, 3, true),
        (1000, 103, 3, true),
        (1024, 4, 1, false),
        (1, 5, 1, false),
    ] {
        let mut reader = messages_of(&[40, 80]);
        reader.times = times;
        reader.number = number;
        let sizes: &[usize] = if ended { &[40, 80] } else { &[] };
        let seen = pulls_of(rt.alloc(), &mut reader, 65_536, sizes)?;
        let told = Seen {
            whole: true,
            ended,
            pulls,
            gone: (false, false),
        };
        assert!(rt; seen == told, "{number}");
        assert!(rt; ended || reader.reads == u64::from(times), "{number}");
    }
    Ok(())
}

#[test]
fn mounts_that_are_taken_away(rt: HostRuntime) -> Result<(), Fail> {
    let none: [usize; 0] = [];
    let two = [40, 70_000];
    for (number, taken) in [(19, true), (5, false), (22, false)] {
        for (sizes, pulls) in [(none.as_slice(), 1), (two.as_slice(), 4)] {
            let mut reader = messages_of(sizes);
            reader.last = Some(number);
            let seen = pulls_of(rt.alloc(), &mut reader, 65_536, sizes)?;
            let told = Seen {
                whole: true,
                ended: false,
                pulls,
                gone: (false, taken),
            };
            assert!(rt; seen == told, "{number}");
        }
    }
    Ok(())
}

/// How many requests for memory a room makes, if pulls to the end make no more.
fn requests_of_room(global: Global) -> Option<u64> {
    let counting = Refusing::new(global, 0);
    let mut reader = messages_of(&[40]);
    let mut tap = MessageTap::new(&counting, &mut reader).ok()?;
    let requests = counting.requests();
    let ended = pull_all(global, &mut tap, 65_536).ok()?.ended;
    (ended && counting.requests() == requests).then_some(requests)
}

/// Whether a room is refused, and nothing is read, if the request with this number is refused.
fn is_refused(global: Global, refuse_at: u64) -> bool {
    let refusing = Refusing::new(global, refuse_at);
    let mut reader = messages_of(&[40]);
    let refused = MessageTap::new(&refusing, &mut reader).is_err();
    refused && reader.reads == 0
}

#[test]
fn no_memory_for_the_room(rt: HostRuntime) {
    let requests = requests_of_room(rt.alloc()).unwrap_or(0);
    assert!(rt; 0 < requests);
    for refuse_at in 1..=requests {
        assert!(rt; is_refused(rt.alloc(), refuse_at), "at {refuse_at}");
    }
}
