//! One reader.

ghost use Rattle.std.specs.Prelude.{◌≡◌, IfOk, length, map, replicate};
ghost use Rattle.fuse_answer.specs.Puts.{sourced_by};
ghost use Rattle.serve_core.specs.Headline.{bounds_of};
ghost use Rattle.serve_loop.specs.Serving.{AreReady};
ghost use Rattle.serve_device.specs.Seats.{AreNew, devices_of, new_seat, own_end, seat_of};
ghost use Rattle.serve_device.specs.Readers.{HasOpened, HasServed, shared_of};

use crate::ends::{End, end_of_stop};
use crate::{MessageTap, ReplySpout};
use devices::Contents;
use serve_core::{Begun, Done, Gate, Opening, Serving, SharedAllocator, StreamFault, Until};
use std::alloc::{AllocError, Allocator};
use std::io::{Read, Write};
use std::thread::Threads;

/// The place of one reader: the devices for its messages and replies, and its result.
#[derive(Drop)]
pub struct Seat<I, O, A: Allocator> {
    input: MessageTap<I, A>,
    output: ReplySpout<O>,
    /// The result of its stream, once it ended or stopped.
    pub result: Option<Result<Done<A>, StreamFault>>,
}

impl<I: Read + Drop, O: Write + Drop, A: SharedAllocator> Seat<I, O, A> {
    /// A seat whose reader has not begun, with a room of 135,168 bytes for messages. `AllocError`
    /// if memory for the room is refused; nothing is read then.
    pub fn new(alloc: A, reader: I, writer: O) -> Result<Self, AllocError>
        ensures { IfOk result (λ seat.
            seat_of I.remaining seat ≡ new_seat (I.remaining reader)) }
    {
        Ok(Seat {
            input: MessageTap::new(alloc, reader)?,
            output: ReplySpout::new(writer),
            result: None,
        })
    }

    /// How its reader ended.
    pub fn end(&self) -> End
        ensures { result ≡ own_end (seat_of I.remaining self.now) }
    {
        match self.result {
            None | Some(Ok(_)) => End::AtEnd,
            Some(Err(fault)) => end_of_stop(fault, self.input.is_gone(), self.output.is_gone()),
        }
    }

    // Serves the requests from its devices until the session has begun, and returns the session.
    pub(crate) fn open<R: Threads + Sync, D: Contents + Sync, G: Gate + Sync>(
        &mut self,
        rt: &R,
        alloc: A,
        serving: &Serving<'_, '_, A, D, G>,
    ) -> Option<Begun<A>>
        requires { AreReady serving.now.terms.turns (devices_of (seat_of I.remaining self.old)) }
        ensures { HasOpened serving.now.terms.first (shared_of D.source serving.now)
            (seat_of I.remaining self.old) (seat_of I.remaining self.new) result }
    {
        let (input, output) = (&mut self.input, &mut self.output);
        let opened = serving.run_until(rt, alloc, input, output, Until::Begun);
        let ended = match opened {
            Ok(Opening::Begun(begun)) => return Some(begun),
            Ok(Opening::Ended(done)) => Ok(done),
            Err(fault) => Err(fault),
        };
        self.result = Some(ended);
        None
    }

    // Serves the requests from its devices to their end.
    pub(crate) fn serve<R: Threads + Sync, D: Contents + Sync, G: Gate + Sync>(
        &mut self,
        rt: &R,
        alloc: A,
        serving: &Serving<'_, '_, A, D, G>,
    )
        requires { AreReady serving.now.terms.turns (devices_of (seat_of I.remaining self.old)) }
        ensures { HasServed serving.now.terms.first (sourced_by D.source serving.now.served)
            (bounds_of D.source serving.now) (seat_of I.remaining self.old)
            (seat_of I.remaining self.new) }
    {
        let (input, output) = (&mut self.input, &mut self.output);
        self.result = Some(serving.run(rt, alloc, input, output));
    }
}

/// Seats for this many readers that have not begun, all over the same reader and writer.
/// `AllocError` if memory is refused for one; nothing is read then.
pub fn seats_over<I: Read + Copy + Drop, O: Write + Copy + Drop, A: SharedAllocator>(
    alloc: A,
    readers: u32,
    reader: I,
    writer: O,
) -> Result<Vec<Seat<I, O, A>, A>, AllocError>
    ensures seats { IfOk result (λ seats. map (seat_of I.remaining) seats.items
        ≡ replicate readers (new_seat (I.remaining reader))) }
    ensures count { IfOk result (λ seats. length seats.items ≡ readers) }
    ensures new { IfOk result (λ seats. AreNew (map (seat_of I.remaining) seats.items)) }
{
    let mut seats = Vec::new(alloc);
    for _reader in 0..readers {
        seats.push(Seat::new(alloc, reader, writer)?)?;
    }
    Ok(seats)
}
