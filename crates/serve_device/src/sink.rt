//! The sink of replies.

ghost use Rattle.std.specs.Prelude.{◌≡◌, ◌<◌, ◌≤◌, length, false, None, IfOk, OnOk, IsTrue, MatchOption};
ghost use Rattle.std.specs.Io.KnownBytes.{Keeps, WriteAppends};
ghost use Rattle.devices.specs.Counting.{flushed, no_pushes, pushed};
ghost use Rattle.devices.specs.States.{sink_state};
ghost use Rattle.serve_device.specs.FirstReply.{BeginsReply, BeginsNone, IsWithinFirst, PutsReply, Writes, after_trouble};
ghost use Rattle.serve_device.specs.Writes.{noted_writer};

use crate::noted_writer::NotedWriter;
use crate::trouble::{Trouble, note_gone, trouble_of_write};
use byteorder::{ByteOrder, LittleEndian};
use devices::{Failed, Pushes, Sink};
use std::io::Write;

/// A reply's header.
const HEADER_SIZE: usize = 16;

/// A sink over a writer that takes one complete reply per write.
///
/// A push takes the first complete reply of its bytes, by the length in its first four bytes, in
/// one write, and no more. If the writer takes less of it, the push returns how much. A reply that
/// no request waits for any more (a write answered with ENOENT) is dropped: it counts as taken,
/// since the kernel knows no such request. What the other side holds is therefore not known. A push
/// fails if its bytes do not begin with a complete reply, or at any other error of a write,
/// including an interrupted one; it takes nothing then. There is no buffer and no copy.
#[derive(Drop)]
pub struct ReplySpout<W> {
    writer: NotedWriter<W>,
    gone: bool,
    counts: Pushes,
    ghost gone_by_failure: { IsTrue gone → 0 < counts.failures },
}

impl<W: Write> ReplySpout<W> {
    ghost use Rattle.serve_device.specs.Spouts.{spout_gone, spout_writer, writer_of};
    ghost use Rattle.serve_device.specs.Writes.{writer_state};

    /// A sink over this writer, without pushes so far.
    pub fn new(writer: W) -> ReplySpout<W>
        ensures state { ⟦<ReplySpout<W> as Sink>⟧.state result ≡ sink_state None no_pushes }
        ensures over { writer_of result ≡ writer }
        ensures there { spout_gone result ≡ false }
        ensures unwritten { spout_writer W.contents result
            ≡ writer_state (W.contents writer) 0 0 None }
    {
        ReplySpout {
            writer: NotedWriter::new(writer),
            gone: false,
            counts: Pushes::none(),
        }
    }

    /// Whether a push failed because of an unmount: a write returned ENODEV. Once true, it stays
    /// true.
    pub fn is_gone(&self) -> bool
        ensures gone { result ≡ spout_gone self.now }
        ensures failed { IsTrue result
            → 0 < (⟦<ReplySpout<W> as Sink>⟧.state self.now).counts.failures }
    {
        self.gone
    }
}

impl<W: Write> Sink for ReplySpout<W> {
    ghost use Rattle.serve_device.specs.Spouts.{spout_gone, spout_writer, writer_of};
    ghost use Rattle.serve_device.specs.Writes.{writer_state};

    ghost state = { λ spout. sink_state None spout.counts };

    fn push(&mut self, bytes: &[u8]) -> Result<usize, Failed>
        ensures bound { IfOk result (λ n. n ≤ length bytes.now) }
        ensures bytes { WriteAppends (⟦<ReplySpout<W> as Sink>⟧.state self.old).held
            (⟦<ReplySpout<W> as Sink>⟧.state self.new).held result bytes.now }
        ensures counts { (⟦<ReplySpout<W> as Sink>⟧.state self.new).counts
            ≡ pushed (⟦<ReplySpout<W> as Sink>⟧.state self.old).counts (length bytes.now) result }
        ensures first { IfOk result (IsWithinFirst bytes.now) }
        ensures put { PutsReply bytes.now result (spout_writer W.contents self.old)
            (spout_writer W.contents self.new) (spout_gone self.old) (spout_gone self.new) }
        ensures stays { IsTrue (spout_gone self.old) → IsTrue (spout_gone self.new) }
        ensures there { OnOk result (spout_gone self.new ≡ spout_gone self.old) }
    {
        let outcome = write_first(&mut self.writer, bytes);
        note_gone(&mut self.gone, &outcome);
        let taken = match outcome {
            Ok(n) => Ok(n),
            Err(_) => Err(Failed),
        };
        self.counts.note_push(bytes.len(), &taken);
        taken
    }

    fn flush(&mut self) -> Result<(), Failed>
        ensures bytes { Keeps (⟦<ReplySpout<W> as Sink>⟧.state self.old).held
            (⟦<ReplySpout<W> as Sink>⟧.state self.new).held }
        ensures counts { (⟦<ReplySpout<W> as Sink>⟧.state self.new).counts
            ≡ flushed (⟦<ReplySpout<W> as Sink>⟧.state self.old).counts result }
        ensures writes { (spout_writer W.contents self.new).writes
            ≡ (spout_writer W.contents self.old).writes }
        ensures offered { (spout_writer W.contents self.new).offered
            ≡ (spout_writer W.contents self.old).offered }
        ensures last { (spout_writer W.contents self.new).last
            ≡ (spout_writer W.contents self.old).last }
        ensures gone { spout_gone self.new ≡ spout_gone self.old }
    {
        self.writer.flush(&mut self.counts)
    }
}

// Writes the first reply of the bytes, once, and returns how much of it is finished: all of it, if
// no request waits for it.
fn write_first<W: Write>(writer: &mut NotedWriter<W>, bytes: &[u8]) -> Result<usize, Trouble>
    ensures first { IfOk result (IsWithinFirst bytes.now) }
    ensures put { Writes bytes.now result (noted_writer W.contents writer.old)
        (noted_writer W.contents writer.new) }
{
    match first_reply(bytes) {
        Some(len) => match writer.write(&bytes[..len]) {
            Ok(n) => Ok(n),
            Err(error) => let_go(len, trouble_of_write(&error)),
        },
        None => Err(Trouble::Fault),
    }
}

// Drops a reply of this length if no request waits for it.
fn let_go(len: usize, trouble: Trouble) -> Result<usize, Trouble>
    ensures { result ≡ after_trouble len trouble }
{
    match trouble {
        Trouble::Unwanted => Ok(len),
        other => Err(other),
    }
}

// The length of the reply at the front of the bytes, if it is complete.
fn first_reply(bytes: &[u8]) -> Option<usize>
    ensures { MatchOption result (BeginsNone bytes.now) (BeginsReply bytes.now) }
{
    if bytes.len() < HEADER_SIZE {
        return None;
    }
    let len = LittleEndian::read_u32(bytes) as usize;
    if len < HEADER_SIZE || bytes.len() < len {
        return None;
    }
    Some(len)
}
