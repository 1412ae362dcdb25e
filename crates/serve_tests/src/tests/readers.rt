//! Several readers of one device, which gives each message to one of them.

ghost use Rattle.std.specs.Prelude.{◌≡◌, true, IfSome};

use node_reader::Table;
use serve_core::{
    Counted, Done, FreePass, Gate, MAX_TURNS, Plan, Served, Serving, Session, StreamFault, Terms,
    Work,
};
use serve_device::{End, Seat, end_of_all, seats_over};
use serve_test_kit::runs::table_of;
use std::alloc::Allocator;
use std::io::{self, Error, Read, Write};
use std::sync::atomic::{AtomicU64, Ordering};
use std::thread::Threads;
use test_kit::gates::MANY;
use test_kit::memories::{Memories, refuse_in_turn};
use test_kit::messages::{REPLIES, REQUESTS};
use test_kit::sample_images::{alone, image};

/// How many messages a device gives: INIT, and then requests for the attributes of the root.
const MESSAGES: u64 = 41;

/// The bits of them all: that of the message with the number n is the bit n.
const ALL: u64 = (1 << (MESSAGES + 1)) - 2;

/// Which read or write of a device fails, counted from 1, and with which error number.
#[derive(Clone, Copy)]
struct Fails {
    read: u64,
    write: u64,
    number: i32,
}

/// No read and no write fails.
const NEVER: Fails = Fails {
    read: 0,
    write: 0,
    number: 0,
};

/// A device that returns one message per read, and takes one reply per write.
#[derive(Drop)]
struct Device {
    fails: Fails,
    reads: AtomicU64,
    writes: AtomicU64,
    given: AtomicU64,
    /// The bits of the messages that are answered. Bit 0 is set by a reply that is wrong, or the
    /// second one to its message.
    answered: AtomicU64,
}

impl Device {
    fn new(fails: Fails) -> Self {
        Device {
            fails,
            reads: AtomicU64::new(0),
            writes: AtomicU64::new(0),
            given: AtomicU64::new(0),
            answered: AtomicU64::new(0),
        }
    }

    fn note(&self, reply: &[u8]) {
        let own = bit_of(reply);
        if self.answered.fetch_or(own, Ordering::SeqCst) & own != 0 {
            self.answered.fetch_or(1, Ordering::SeqCst);
        }
    }
}

/// Counts a call, and returns its number, counted from 1.
fn count(calls: &AtomicU64) -> u64 {
    calls.fetch_add(1, Ordering::SeqCst).saturating_add(1)
}

impl Read for &Device {
    fn read(&mut self, buf: &mut [u8]) -> io::Result<usize> {
        if count(&self.reads) == self.fails.read {
            return Err(Error::from_raw_os_error(self.fails.number));
        }
        let number = count(&self.given);
        if MESSAGES < number {
            return Ok(0);
        }
        let size = buf.len().min(56);
        buf[..size].copy_from_slice(&message(number)[..size]);
        Ok(size)
    }
}

impl Write for &Device {
    fn write(&mut self, buf: &[u8]) -> io::Result<usize> {
        if count(&self.writes) == self.fails.write {
            return Err(Error::from_raw_os_error(self.fails.number));
        }
        self.note(buf);
        Ok(buf.len())
    }

    fn flush(&mut self) -> io::Result<()> {
        Ok(())
    }
}

/// The message with this number.
fn message(number: u64) -> [u8; 56] {
    let mut message = [0; 56];
    if number == 1 {
        message.copy_from_slice(&REQUESTS[..56]);
    } else {
        message.copy_from_slice(&REQUESTS[56..]);
        message[8..16].copy_from_slice(&number.to_le_bytes());
    }
    message
}

/// The bit of the message that this is the reply to, or 1.
fn bit_of(reply: &[u8]) -> u64 {
    let Some(number) = reply.get(8) else {
        return 1;
    };
    let number = u64::from(*number);
    if number == 1 && reply == &REPLIES[..80] {
        return 2;
    }
    let mut wanted = [0; 120];
    wanted.copy_from_slice(&REPLIES[80..]);
    wanted[8..16].copy_from_slice(&number.to_le_bytes());
    if 2 <= number && number <= MESSAGES && reply == &wanted[..] {
        1 << number
    } else {
        1
    }
}

/// The results of readers: the reported end; how many streams ended, and how many messages they
/// had; and the bits of the answered messages.
type Seen = (End, (usize, u64), u64);

/// How many streams ended, with the one before the session, and how many messages they had.
fn counted<A: Allocator>(
    before: &Option<Done<A>>,
    seats: &[Seat<&Device, &Device, A>],
) -> (usize, u64) {
    let (mut streams, mut messages) = match before {
        Some(done) => (1usize, done.messages),
        None => (0, 0),
    };
    for seat in seats {
        if let Some(Ok(done)) = &seat.result {
            streams = streams.saturating_add(1);
            messages = messages.saturating_add(done.messages);
        }
    }
    (streams, messages)
}

/// The table of the empty image.
fn empty_table<R: Threads + Sync, A: Allocator + Copy + Send + Sync>(
    rt: &R,
    alloc: A,
) -> Option<Table<A>>
    ensures { IfSome result (λ table. table.whole ≡ true) }
{
    table_of(rt, alloc, alone(alloc, image(alloc, b"v", "").ok()?).ok()?)
}

/// The results of this many readers of a device, at least one, over a table; none if memory is
/// refused for their seats.
fn served<R: Threads + Sync, A: Allocator + Copy + Send + Sync, G: Gate + Sync>(
    rt: &R,
    alloc: A,
    table: &Table<A>,
    device: &Device,
    readers: u32,
    plan: Plan,
    gate: &G,
) -> Option<(End, (usize, u64))>
    requires { table.now.whole ≡ true }
{
    let terms = Terms {
        first: Session::Fresh,
        plan,
        turns: MAX_TURNS,
        counted: Counted::AllNodes,
        gate,
    };
    let serving = Serving {
        served: Served::held(table),
        terms,
    };
    let Ok(mut seats) = seats_over(alloc, readers.max(1), device, device) else {
        return None;
    };
    let all = seats.as_mut_slice();
    let before = Seat::serve_all(rt, alloc, &serving, all);
    Some((end_of_all(all), counted(&before, all)))
}

/// The same for a new device, with its answered messages.
fn seen_over<R: Threads + Sync, A: Allocator + Copy + Send + Sync, G: Gate + Sync>(
    rt: &R,
    alloc: A,
    table: &Table<A>,
    readers: u32,
    fails: Fails,
    gate: &G,
) -> Option<Seen>
    requires { table.now.whole ≡ true }
{
    let plan = Plan::new(2, 3)?;
    let device = Device::new(fails);
    let (end, done) = served(rt, alloc, table, &device, readers, plan, gate)?;
    Some((end, done, device.answered.load(Ordering::SeqCst)))
}

/// The same over the empty image.
fn seen_of<R: Threads + Sync, G: Gate + Sync>(
    rt: &R,
    memories: &Memories,
    readers: u32,
    fails: Fails,
    gate: &G,
) -> Option<Seen> {
    let table = empty_table(rt, &memories.plain)?;
    seen_over(rt, &memories.refusing, &table, readers, fails, gate)
}

/// Each message gets one reply, from one reader, two or sixteen. Each stream comes to its end, and
/// before them that of INIT.
#[test]
fn each_message_is_answered_once(rt: HostRuntime) {
    let memories = Memories::new(rt.alloc(), 0);
    for readers in [1, 2, 16] {
        let seen = seen_of(&rt, &memories, readers, NEVER, &FreePass);
        let streams = readers as usize + 1;
        let wanted = (End::AtEnd, (streams, MESSAGES), ALL);
        assert!(rt; seen == Some(wanted), "{readers}");
    }
}

/// Lets INIT pass, and holds the next message until one more is under way.
#[derive(Drop)]
struct Meeting {
    came: AtomicU64,
    given_up: AtomicU64,
}

impl Gate for Meeting {
    fn pass(&self, _work: Work, _number: u32) {
        if count(&self.came) == 1 {
            return;
        }
        for _ in 0..MANY {
            if 3 <= self.came.load(Ordering::SeqCst) {
                return;
            }
        }
        self.given_up.store(1, Ordering::SeqCst);
    }
}

#[test]
fn two_readers_are_in_the_middle_of_a_message(rt: HostRuntime) {
    let memories = Memories::new(rt.alloc(), 0);
    let gate = Meeting {
        came: AtomicU64::new(0),
        given_up: AtomicU64::new(0),
    };
    let seen = seen_of(&rt, &memories, 2, NEVER, &gate);
    assert!(rt; seen.is_some() && gate.given_up.load(Ordering::SeqCst) == 0);
}

/// Whether readers, one of which is refused memory, report that or answer all messages. None serves
/// if it is refused for a seat.
fn is_refused<R: Threads + Sync>(rt: &R, memories: &Memories) -> bool {
    let seen = seen_of(rt, memories, 3, NEVER, &FreePass);
    match (memories.refusing.refused(), seen) {
        (false, Some(seen)) => seen == (End::AtEnd, (4, MESSAGES), ALL),
        (true, Some((end, _, _))) => end == End::Stopped(StreamFault::Memory),
        (refused, None) => refused,
    }
}

#[test]
fn refused_memory_ends_one_reader(rt: HostRuntime) {
    let requests = refuse_in_turn(rt.alloc(), |memories| is_refused(&rt, memories));
    assert!(rt; matches!(requests, Ok(12..)));
}

/// Whether three readers of a device that fails so come to this end, with this many messages
/// answered.
fn ends_so<R: Threads + Sync>(
    rt: &R,
    memories: &Memories,
    fails: Fails,
    end: End,
    answered: u32,
) -> bool {
    match seen_of(rt, memories, 3, fails, &FreePass) {
        Some((told, _, all)) => told == end && all & !ALL == 0 && all.count_ones() == answered,
        None => false,
    }
}

/// A read that fails ends only its reader: the others answer all messages. A write that fails also
/// ends only its reader, and that reply is lost. With ENODEV each is the end of a mount.
#[test]
fn what_fails_ends_one_reader(rt: HostRuntime) {
    let memories = Memories::new(rt.alloc(), 0);
    for at in [2, 9, 41] {
        for (number, read, write) in [
            (
                5,
                End::Stopped(StreamFault::Read),
                End::Stopped(StreamFault::Write),
            ),
            (19, End::TakenAway, End::TakenAway),
        ] {
            let reading = Fails {
                read: at,
                write: 0,
                number,
            };
            let writing = Fails {
                read: 0,
                write: at,
                number,
            };
            let is_right = ends_so(&rt, &memories, reading, read, 41)
                && ends_so(&rt, &memories, writing, write, 40);
            assert!(rt; is_right, "{at} {number}");
        }
    }
}

/// If INIT cannot be read or answered, no other reader begins, and nothing is answered.
#[test]
fn no_other_reader_begins_before_init(rt: HostRuntime) {
    let memories = Memories::new(rt.alloc(), 0);
    for (read, write, fault) in [(1, 0, StreamFault::Read), (0, 1, StreamFault::Write)] {
        let fails = Fails {
            read,
            write,
            number: 5,
        };
        let seen = seen_of(&rt, &memories, 3, fails, &FreePass);
        let wanted = (End::Stopped(fault), (0, 0), 0);
        assert!(rt; seen == Some(wanted), "{read}");
    }
}
