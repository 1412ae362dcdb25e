//! All readers.

ghost use Rattle.std.specs.Prelude.{◌≡◌, ◌<◌, ◌≤◌, length, map};
ghost use Rattle.std.specs.List.{AllByRecursion, AllZip};
ghost use Rattle.std.specs.Thread.{IsSync};
ghost use denote.Param.Send.{IsSend, Frees};
ghost use Rattle.devices.specs.declared.limits.TheConstants.{MAX_TURNS};
ghost use Rattle.fuse_answer.specs.Puts.{sourced_by};
ghost use Rattle.serve_core.specs.Headline.{bounds_of};
ghost use Rattle.serve_loop.specs.Serving.{AreReady};
ghost use Rattle.serve_device.specs.Seats.{AreNew, devices_of, end_of_all, seat_of};
ghost use Rattle.serve_device.specs.Readers.{AreServedBy, HasServed, shared_of};

use crate::ends::{End, first_told};
use crate::seat::Seat;
use devices::Contents;
use serve_core::{Begun, Done, Gate, Serving, SharedAllocator, Terms};
use std::io::{Read, Write};
use std::thread::{Threads, for_each_mut};

impl<I, O, A> Seat<I, O, A>
where
    I: Read + Copy + Send + Drop,
    O: Write + Copy + Send + Drop,
    A: SharedAllocator,
{
    /// Serves the requests of an open `/dev/fuse` by the readers in these seats, and waits until
    /// all have ended. Each seat then holds the result of its reader. Each reader counts lookups
    /// for itself, as the terms say.
    ///
    /// The reader of the first seat serves alone until the session has begun. Then the others begin
    /// in that session, and each answers what it reads as [`Serving::run`] does, with buffers and
    /// balances of its own. A reader that ends, or stops for a fault or lack of memory, ends alone:
    /// the others continue. If no thread can be started for a reader, it begins after another has
    /// ended. The result is that of the stream before the session; if the first reader ended before
    /// the session began, there is none, and no other reader has begun.
    pub fn serve_all<R: Threads + Sync, D: Contents + Sync, G: Gate + Sync>(
        rt: &R,
        alloc: A,
        serving: &Serving<'_, '_, A, D, G>,
        seats: &mut [Self],
    ) -> Option<Done<A>>
        requires some { 0 < length seats.old }
        requires new { AreNew (map (seat_of I.remaining) seats.old) }
        requires turns { serving.now.terms.turns ≤ MAX_TURNS }
        ensures { AreServedBy serving.now.terms.first (shared_of D.source serving.now)
            (map (seat_of I.remaining) seats.old) (map (seat_of I.remaining) seats.new) result }
    {
        let Begun { session, done } = seats[0].open(rt, alloc, serving)?;
        let begun = Serving {
            served: serving.served,
            terms: Terms {
                first: session,
                ..serving.terms
            },
        };
        Self::serve_together(rt, alloc, &begun, seats);
        Some(done)
    }

    // Serves by all readers at the same time.
    fn serve_together<R: Threads + Sync, D: Contents + Sync, G: Gate + Sync>(
        rt: &R,
        alloc: A,
        serving: &Serving<'_, '_, A, D, G>,
        seats: &mut [Self],
    )
        requires some { 0 < length seats.old }
        requires ready { AllByRecursion (λ seat. AreReady serving.now.terms.turns (devices_of seat))
            (map (seat_of I.remaining) seats.old) }
        ensures { AllZip (HasServed serving.now.terms.first
            (sourced_by D.source serving.now.served) (bounds_of D.source serving.now))
            (map (seat_of I.remaining) seats.old) (map (seat_of I.remaining) seats.new) }
    {
        let serve = move |_place: usize, seat: &mut Self|
            requires { IsSync R.row × IsSync G.row × IsSync D.row × IsSync A.row × IsSend A.row
                × Frees A.Allocator A.dealloc_token
                × AreReady serving.now.terms.turns (devices_of (seat_of I.remaining seat.now)) }
            ensures { HasServed serving.entry.now.terms.first
                (sourced_by D.source serving.entry.now.served)
                (bounds_of D.source serving.entry.now)
                (seat_of I.remaining seat.entry.now) (seat_of I.remaining seat.exit.now) }
        { seat.serve(rt, alloc, serving) };
        let readers = seats.len();
        for_each_mut(rt, seats, readers, &serve);
    }
}

/// The end that is reported for the readers in these seats: a fault, if any has one, the first in
/// the table of faults and exit statuses, and of equal ones that of the first reader. Otherwise an
/// unmount, if any has met one.
pub fn end_of_all<I: Read + Drop, O: Write + Drop, A: SharedAllocator>(
    seats: &[Seat<I, O, A>],
) -> End
    ensures { result ≡ end_of_all (map (seat_of I.remaining) seats.now) }
{
    match seats.split_first() {
        Some((seat, others)) => first_told(seat.end(), end_of_all(others)),
        None => End::AtEnd,
    }
}
