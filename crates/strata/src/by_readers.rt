//! The command `serve` over an open `/dev/fuse`, by several readers.

ghost use Rattle.std.specs.Prelude.{◌≡◌, map, IfOk, IfErr};
ghost use Rattle.strata_words.specs.CommandLine.{IsInLimits};
ghost use Rattle.serve_device.specs.Seats.{seat_of};
ghost use Rattle.strata.specs.Ends.{end_states};
ghost use Rattle.strata.specs.Readers.{AreShared, IsNotShared, IsRunByReaders, status_of_end};

use crate::ends::{Ends, Ran};
use crate::faults::Fault;
use crate::host::Host;
use crate::settings::{first_of, plan_of};
use serve_core::{Counted, FreePass, MAX_TURNS, Served, Serving, SharedAllocator, Terms};
use serve_device::{End, Seat, end_of_all, seats_over};
use std::fs::Files;
use std::io::{Read, Write};
use std::os::unix::fs::FileExt;
use std::thread::Threads;
use strata_images::{open_all, prepare};
use strata_words::Line;

impl<R: Files + Threads + Sync, A: SharedAllocator> Host<'_, R, A>
where
    R::File: FileExt + Send + Sync,
    R::Dir: Send,
{
    /// Serves an open `/dev/fuse` over the images of a line with as many readers as it says, all of
    /// which use this reader and this writer. Returns the exit status and the final seats of the
    /// readers; none if a fault occurred before.
    ///
    /// The status is 0 if each reader reached its stream's end or found the file system unmounted.
    /// Otherwise it is that of the first of their faults in the table of faults, whose line is
    /// written to `faults` after all have ended.
    pub(crate) fn mount_by_readers<
        I: Read + Copy + Send + Drop,
        O: Write + Copy + Send + Drop,
        E: Write,
    >(&self, line: &Line<'_>, reader: I, writer: O, faults: &mut E) -> Ran<I, O, A>
        requires { IsInLimits line.now }
        ensures { IsRunByReaders A result.status line.now (I.remaining reader)
            (end_states I.remaining O.contents result.ends) }
    {
        match self.serve_shared(line, reader, writer) {
            Ok(seats) => Ran {
                status: tell_end(end_of_all(seats.as_slice()), faults),
                ends: Ends::Readers(seats),
            },
            Err(fault) => Ran {
                status: fault.end(faults),
                ends: Ends::Unused,
            },
        }
    }

    // Opens, checks and stacks the images, serves their table by the line's readers, and returns
    // their seats.
    fn serve_shared<I: Read + Copy + Send + Drop, O: Write + Copy + Send + Drop>(
        &self,
        line: &Line<'_>,
        reader: I,
        writer: O,
    ) -> Result<Vec<Seat<I, O, A>, A>, Fault>
        requires { IsInLimits line.now }
        ensures served { IfOk result (λ seats. AreShared A line.now (I.remaining reader)
            (map (seat_of I.remaining) seats.items)) }
        ensures stopped { IfErr result (IsNotShared line.now) }
    {
        let images = open_all(self.rt, self.alloc, line)?;
        let (table, files) = prepare(self.rt, self.alloc, line, images)?;
        let served = Served {
            table: &table,
            files: files.as_slice(),
        };
        let terms = Terms {
            first: first_of(line),
            plan: plan_of(line),
            turns: MAX_TURNS,
            // no line names a file of balances beside a device
            counted: Counted::NoNodes,
            gate: &FreePass,
        };
        let mut seats = seats_over(self.alloc, line.readers, reader, writer)?;
        let serving = Serving { served, terms };
        let _before = Seat::serve_all(self.rt, self.alloc, &serving, seats.as_mut_slice());
        Ok(seats)
    }
}

// The exit status of an end; the line of a fault is written.
fn tell_end<E: Write>(end: End, faults: &mut E) -> u8
    ensures { result ≡ status_of_end end }
{
    match end {
        End::AtEnd | End::TakenAway => 0,
        End::Stopped(stop) => Fault::Stopped(stop).end(faults),
    }
}
