//! The commands of the program, over its three standard streams or an open `/dev/fuse`.
//!
//! A command does its steps in this order, and the first that fails ends it: it reads the files of
//! the images, opens the file of requests, creates the files of replies and of balances,
//! and then does its work. `socket` makes its socket after the images are stacked.

ghost use Rattle.std.specs.Prelude.{◌≡◌, ℕ, List, map, true, false, Ok, Err, IfOk, IfErr, MatchResult};
ghost use Rattle.strata_words.specs.CommandLine.{IsInLimits, IsLineOf, NamesSocket};
ghost use Rattle.devices.specs.States.{devices};
ghost use Rattle.serve_device.specs.MountEnds.{ends};
ghost use Rattle.strata.specs.Ending.{AreNew, EndsInFault, IsOverWith, IsRunOf};
ghost use Rattle.strata.specs.Ends.{end_states, given};
ghost use Rattle.strata.specs.Mounts.{status_on_device, IsReadOf, IsRunAsSaid, IsRunBy, IsRunMounted, IsRunOnDevice};

use crate::ends::{Ends, Ran};
use crate::faults::Fault;
use crate::host::Host;
use crate::listening::listen;
use crate::serving::serve;
use crate::version::tell_version;
use devices::{Sink, Source, Spout, Tap};
use serve_core::{SharedAllocator, StreamFault};
use serve_device::{MessageTap, ReplySpout};
use std::alloc::Global;
use std::convert::AsStr;
use std::fs::Files;
use std::io::{Read, Write};
use std::net::Net;
use std::os::unix::fs::FileExt;
use std::thread::Threads;
use strata_images::{ImagesFault, check, gather_all, list, open_all};
use strata_words::{Line, NoLine, Verb, line};

/// Reads the arguments after the program's name, and runs the program on them as
/// [`Host::command_as_read`] does. Memory is from `alloc`, except for the arguments: `clap` takes
/// only the global allocator.
pub fn command<
    R: Files + Net + Threads + Sync,
    A: SharedAllocator,
    S: AsStr,
    I: Read + Copy + Send + Drop,
    O: Write + Copy + Send + Drop,
    E: Write,
>(
    rt: &R,
    alloc: A,
    global: Global,
    words: &[S],
    reader: I,
    writer: O,
    faults: &mut E,
) -> Ran<I, O, A>
where
    R::File: FileExt + Send + Sync,
    R::Dir: Send,
    ensures { IsRunAsSaid A (map S.text words.now)
        (given (I.remaining reader) (O.contents writer))
        result.status (end_states I.remaining O.contents result.ends) }
{
    let host = Host { rt, alloc };
    host.command_as_read(line(global, words), reader, writer, faults)
}

impl<R: Files + Net + Threads + Sync, A: SharedAllocator> Host<'_, R, A>
where
    R::File: FileExt + Send + Sync,
    R::Dir: Send,
{
    /// Runs the program as its arguments were read by [`line`], over a reader and a writer that
    /// were not used before, and returns its exit status, with the ends that it ran between. The
    /// reader and the writer are the two ends of an open `/dev/fuse` if the line has `--device`,
    /// and not otherwise; several readers have a copy of each. A fault of the arguments, or memory
    /// refused while they were read, ends it before either is touched. A request for the version
    /// prints its line.
    ///
    /// [`Host::command_on_device`] and [`Host::command_on_streams`] say what it then does, and
    /// `serve_device` what several readers do.
    pub fn command_as_read<I: Read + Copy + Send + Drop, O: Write + Copy + Send + Drop, E: Write>(
        &self,
        read: Result<Line<'_>, NoLine>,
        reader: I,
        writer: O,
        faults: &mut E,
    ) -> Ran<I, O, A>
        requires limits { IfOk read (λ line. IsInLimits line) }
        requires socket { IfOk read (λ line. NamesSocket line) }
        ensures { (words : List (List ℕ)) → IsReadOf words read.entry → IsRunAsSaid A words
            (given (I.remaining reader) (O.contents writer))
            result.status (end_states I.remaining O.contents result.ends) }
    {
        match read {
            Ok(line) => self.command_of_line(&line, reader, writer, faults),
            Err(NoLine::Version) => {
                let mut output = Spout::new(writer);
                let status = tell_version(self.alloc, &mut output, faults);
                Ran {
                    status,
                    ends: Ends::Streams(Tap::new(reader), output),
                }
            }
            Err(NoLine::Fault(fault)) => Ran {
                status: Fault::from(fault).end(faults),
                ends: Ends::Unused,
            },
        }
    }

    // Runs the program by its line, over the devices that the line names.
    fn command_of_line<I: Read + Copy + Send + Drop, O: Write + Copy + Send + Drop, E: Write>(
        &self,
        line: &Line<'_>,
        reader: I,
        writer: O,
        faults: &mut E,
    ) -> Ran<I, O, A>
        requires limits { IsInLimits line.now }
        requires socket { NamesSocket line.now }
        ensures { (words : List (List ℕ)) → IsLineOf words line.now → IsRunBy A words line.now
            (given (I.remaining reader) (O.contents writer))
            result.status (end_states I.remaining O.contents result.ends) }
    {
        if line.device {
            if line.readers == 1 {
                return self.mount(line, reader, writer, faults);
            }
            return self.mount_by_readers(line, reader, writer, faults);
        }
        let mut input = Tap::new(reader);
        let mut output = Spout::new(writer);
        let status = self.command_on_streams(line, &mut input, &mut output, faults);
        Ran {
            status,
            ends: Ends::Streams(input, output),
        }
    }

    // Runs the program over an open `/dev/fuse`, once there is room for a message.
    fn mount<I: Read + Drop, O: Write + Drop, E: Write>(
        &self,
        line: &Line<'_>,
        reader: I,
        writer: O,
        faults: &mut E,
    ) -> Ran<I, O, A>
        requires device { line.now.device ≡ true }
        requires limits { IsInLimits line.now }
        requires socket { NamesSocket line.now }
        ensures { (words : List (List ℕ)) → IsLineOf words line.now →
            IsRunMounted A words result.status (I.remaining reader)
            (end_states I.remaining O.contents result.ends) }
    {
        match MessageTap::new(self.alloc, reader) {
            Ok(mut input) => {
                let mut output = ReplySpout::new(writer);
                let status = self.command_on_device(line, &mut input, &mut output, faults);
                Ran {
                    status,
                    ends: Ends::Device(input, output),
                }
            }
            Err(refused) => Ran {
                status: Fault::from(refused).end(faults),
                ends: Ends::Unused,
            },
        }
    }

    /// Runs the program by a line without `--device`, over a source and a sink.
    ///
    /// The status is 0 only if the work of the line was done: the entire stream was answered over
    /// the images, and `output` gained all replies, unless a file is named for them; or all
    /// sessions at a socket were served to their end; or `output` gained the sizes of all images,
    /// or their visible paths. Otherwise the status is that of a [`Fault`], whose line is written
    /// to `faults`; `output` then has the replies so far, or a prefix of the lines if it failed on
    /// these, or is unchanged. `input` is read only by `serve`, if no file of requests is named.
    ///
    /// It requires that neither `input` nor `output` was used before.
    pub fn command_on_streams<T: Source, K: Sink, E: Write>(
        &self,
        line: &Line<'_>,
        input: &mut T,
        output: &mut K,
        faults: &mut E,
    ) -> u8
        requires streams { line.now.device ≡ false }
        requires limits { IsInLimits line.now }
        requires socket { NamesSocket line.now }
        requires new { AreNew (devices (T.state input.old) (K.state output.old)) }
        ensures { (words : List (List ℕ)) → IsLineOf words line.now → IsRunOf A words result
            (devices (T.state input.old) (K.state output.old))
            (devices (T.state input.new) (K.state output.new)) }
    {
        match self.do_steps(line, input, output, faults) {
            Ok(status) => status,
            Err(fault) => fault.end(faults),
        }
    }

    /// Runs the program as [`Host::command_on_streams`] does, by a line with `--device`, over the
    /// two devices of an open `/dev/fuse`.
    ///
    /// The status is 0 also after an unmount: a pull failed, and `input` says that it is gone; or a
    /// push failed, and one of both says so. No line is written then, and `output` took a prefix of
    /// the replies. Any other fault has its line and its status.
    pub fn command_on_device<I: Read + Drop, O: Write, E: Write>(
        &self,
        line: &Line<'_>,
        input: &mut MessageTap<I, A>,
        output: &mut ReplySpout<O>,
        faults: &mut E,
    ) -> u8
        requires device { line.now.device ≡ true }
        requires limits { IsInLimits line.now }
        requires socket { NamesSocket line.now }
        requires new { AreNew (devices (⟦<MessageTap<I, A> as Source>⟧.state input.old)
            (⟦<ReplySpout<O> as Sink>⟧.state output.old)) }
        ensures { (words : List (List ℕ)) → IsLineOf words line.now → IsRunOnDevice A words result
            (ends I.remaining input.old output.old) (ends I.remaining input.new output.new) }
    {
        match self.do_steps(line, input, output, faults) {
            Ok(status) => status,
            Err(fault) => end_on_device(&fault, input.is_gone(), output.is_gone(), faults),
        }
    }

    // Does all the steps after reading the line, and returns the exit status. Sessions at a socket
    // may make it nonzero: their faults are reported as they occur.
    fn do_steps<T: Source, K: Sink, E: Write>(
        &self,
        line: &Line<'_>,
        input: &mut T,
        output: &mut K,
        faults: &mut E,
    ) -> Result<u8, Fault>
        requires new { AreNew (devices (T.state input.old) (K.state output.old)) }
        requires limits { IsInLimits line.now }
        requires socket { NamesSocket line.now }
        ensures over { (words : List (List ℕ)) → IsLineOf words line.now →
            IfOk result (λ status. IsOverWith A words status
            (devices (T.state input.old) (K.state output.old))
            (devices (T.state input.new) (K.state output.new))) }
        ensures stopped { (words : List (List ℕ)) → IsLineOf words line.now →
            IfErr result (λ fault. EndsInFault A words fault
            (devices (T.state input.old) (K.state output.old))
            (devices (T.state input.new) (K.state output.new))) }
    {
        match line.verb {
            Verb::Serve => {
                let images = open_all(self.rt, self.alloc, line)?;
                as_status(serve(self.rt, self.alloc, line, images, input, output))
            }
            Verb::Socket => {
                let images = open_all(self.rt, self.alloc, line)?;
                listen(self.rt, self.alloc, line, images, faults)
            }
            Verb::Check => {
                let images = gather_all(self.rt, self.alloc, line)?;
                as_told(check(self.alloc, line, images, output, faults))
            }
            Verb::List => {
                let images = gather_all(self.rt, self.alloc, line)?;
                as_told(list(self.rt, self.alloc, line, images, output, faults))
            }
        }
    }
}

fn as_status(done: Result<(), Fault>) -> Result<u8, Fault>
    ensures { MatchResult done (λ _. result ≡ Ok 0) (λ fault. result ≡ Err fault) }
{
    match done {
        Ok(()) => Ok(0),
        Err(fault) => Err(fault),
    }
}

fn as_told(done: Result<(), ImagesFault>) -> Result<u8, Fault>
    ensures { MatchResult done (λ _. result ≡ Ok 0) (λ fault. result ≡ Err (Fault.Images fault)) }
{
    match done {
        Ok(()) => Ok(0),
        Err(fault) => Err(Fault::Images(fault)),
    }
}

// Ends with a fault over an open `/dev/fuse`, of which either side may be gone.
fn end_on_device<E: Write>(fault: &Fault, input: bool, output: bool, faults: &mut E) -> u8
    ensures { result ≡ status_on_device fault.now input output }
{
    let taken_away = match fault {
        Fault::Stopped(StreamFault::Read) => input,
        Fault::Stopped(StreamFault::Write) => input || output,
        _ => false,
    };
    if taken_away { 0 } else { fault.end(faults) }
}
