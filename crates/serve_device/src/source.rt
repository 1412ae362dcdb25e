//! The source of messages.

ghost use Rattle.std.specs.Prelude.{◌≡◌, ◌<◌, ◌≤◌, length, false, IfOk, OnOk, IsTrue};
ghost use Rattle.std.specs.Io.KnownBytes.{ReadConsumes};
ghost use Rattle.std.specs.Io.Buffered.{reader_remaining};
ghost use Rattle.devices.specs.Counting.{no_pulls, pulled};
ghost use Rattle.devices.specs.States.{source_state};
ghost use Rattle.serve_device.specs.Reads.{PullsMessage, ReadsLast, noted_reader};

use crate::noted_reader::NotedReader;
use crate::trouble::{Trouble, note_gone, trouble_of_read};
use devices::{Failed, Pulls, Source};
use std::alloc::{AllocError, Allocator};
use std::io::{BufReader, Read};

/// The room for a message, in bytes: 132 KiB. The kernel refuses a read into less than 131,152
/// bytes if a write may have 128 KiB of data.
const ROOM: usize = 135_168;

/// The most reads of a pull.
const TRIES: u32 = 1024;

/// A source over a reader that returns one complete message per read.
///
/// A pull returns what the room holds of the last message. If the room is empty, the pull reads
/// once, and again as long as the read is interrupted (EINTR, EAGAIN, ENOENT, ECONNABORTED), at
/// most 1,024 times. It reads into a room of 135,168 bytes, or straight into the pull's own buffer
/// if that is at least as large. What does not fit stays for the next pull. A read of no bytes is
/// the end, and any other error fails the pull. Pulls take no memory.
#[derive(Drop)]
pub struct MessageTap<R, A: Allocator> {
    reader: NotedReader<BufReader<R, A>>,
    gone: bool,
    counts: Pulls,
    ghost gone_by_failure: { IsTrue gone → 0 < counts.failures },
}

impl<R: Read + Drop, A: Allocator> MessageTap<R, A> {
    ghost use Rattle.serve_device.specs.Taps.{room_of, tap_gone};

    /// A source of the reader's remaining bytes, not pulled yet, with its room. `AllocError` if
    /// memory for the room is refused; nothing is read then, and the reader is dropped.
    pub fn new(alloc: A, reader: R) -> Result<MessageTap<R, A>, AllocError>
        ensures state { IfOk result (λ tap. ⟦<MessageTap<R, A> as Source>⟧.state tap
            ≡ source_state (R.remaining reader) no_pulls) }
        ensures room { IfOk result (λ tap. room_of tap ≡ 135168) }
        ensures there { IfOk result (λ tap. tap_gone tap ≡ false) }
    {
        match BufReader::with_capacity(alloc, ROOM, reader) {
            Ok(reader) => Ok(MessageTap {
                reader: NotedReader::new(reader),
                gone: false,
                counts: Pulls::none(),
            }),
            Err(_) => Err(AllocError),
        }
    }

    /// Whether a pull failed because of an unmount: a read returned ENODEV. Once true, it stays
    /// true.
    pub fn is_gone(&self) -> bool
        ensures gone { result ≡ tap_gone self.now }
        ensures failed { IsTrue result
            → 0 < (⟦<MessageTap<R, A> as Source>⟧.state self.now).counts.failures }
    {
        self.gone
    }
}

impl<R: Read, A: Allocator> Source for MessageTap<R, A> {
    ghost use Rattle.serve_device.specs.Taps.{buffered_of, tap_gone, tap_reader};

    ghost state = { λ tap.
        source_state (reader_remaining R.remaining (buffered_of tap)) tap.counts };

    fn pull(&mut self, into: &mut [u8]) -> Result<usize, Failed>
        ensures bound { IfOk result (λ n. n ≤ length into.new) }
        ensures bytes { ReadConsumes (⟦<MessageTap<R, A> as Source>⟧.state self.old).left
            (⟦<MessageTap<R, A> as Source>⟧.state self.new).left result into.new }
        ensures counts { (⟦<MessageTap<R, A> as Source>⟧.state self.new).counts
            ≡ pulled (⟦<MessageTap<R, A> as Source>⟧.state self.old).counts result }
        ensures got { PullsMessage result (tap_reader R.remaining self.old)
            (tap_reader R.remaining self.new) (tap_gone self.old) (tap_gone self.new) }
        ensures stays { IsTrue (tap_gone self.old) → IsTrue (tap_gone self.new) }
        ensures there { OnOk result (tap_gone self.new ≡ tap_gone self.old) }
    {
        let outcome = read_again(&mut self.reader, into);
        note_gone(&mut self.gone, &outcome);
        let got = match outcome {
            Ok(n) => Ok(n),
            Err(_) => Err(Failed),
        };
        self.counts.note(&got);
        got
    }
}

// Reads once, and again as long as the read is interrupted.
fn read_again<R: Read>(reader: &mut NotedReader<R>, into: &mut [u8]) -> Result<usize, Trouble>
    ensures bound { IfOk result (λ n. n ≤ length into.new) }
    ensures bytes { ReadConsumes (noted_reader R.remaining reader.old).left
        (noted_reader R.remaining reader.new).left result into.new }
    ensures last { ReadsLast result (noted_reader R.remaining reader.old)
        (noted_reader R.remaining reader.new) }
{
    for _ in 0..TRIES {
        match reader.read(into) {
            Ok(n) => return Ok(n),
            Err(error) => match trouble_of_read(&error) {
                Trouble::Again => {}
                trouble => return Err(trouble),
            },
        }
    }
    Err(Trouble::Fault)
}
