//! What the results of readers mean, by what [`crate::Seat::serve_all`] promises.

ghost use Rattle.std.specs.Prelude.{◌≡◌, ◌<◌, ◌+◌, ◌⊎◌, ℕ, List, ◌∷◌, false, None, Some, IsPermutation};
ghost use Rattle.std.specs.List.{AllZip, flat_map};
ghost use Rattle.reply_model.specs.declared.session.Session.{Session};
ghost use Rattle.reply_model.specs.Moves.{balance};
ghost use Rattle.reply_model.specs.Readings.{Sourced};
ghost use Rattle.reply_model.specs.Sessions.{is_fresh};
ghost use Rattle.serve_core.specs.Headline.{Bounds};
ghost use Rattle.reply_pool.specs.Answers.{answering_from};
ghost use Rattle.serve_loop.specs.declared.done.Done.{Done};
ghost use Rattle.serve_loop.specs.Rounds.{Answering};
ghost use Rattle.serve_loop.specs.Serving.{Does, moves_of};
ghost use Rattle.serve_device.specs.declared.ends.End.TheVariants.{AtEnd};
ghost use Rattle.serve_device.specs.Readers.{AreServedBy, HasDone, HasServed, shared};
ghost use Rattle.serve_device.specs.Seats.{SeatState, done_of_all, end_of_all};
ghost use Rattle.serve_device.specs.Laws.{CameOf, HasReader, HasServedBefore, HaveMessages, IsToldFirst, KeepsSession, moved_at, sum_at};

use std::alloc::Allocator;

/// The reported end is the end of some reader, unless it is an end without a fault, and no reader's
/// end ranks before it.
pub fn first_fault_is_told<A: Allocator>()
    ensures first { (seats : List (SeatState A)) → IsToldFirst (end_of_all seats) seats }
    ensures one { (seats : List (SeatState A)) →
        (end_of_all seats ≡ AtEnd) ⊎ HasReader (end_of_all seats) seats }
{}

/// If the stream before the session has a result, the session began in the stream of the first
/// reader. From then on all readers served in it, each between its own devices.
pub fn readers_go_on_in_the_session<A: Allocator>()
    ensures { (first : Session) (over : Sourced) (within : Bounds)
        (old new : List (SeatState A)) (before : Done A) →
        AreServedBy first (shared over within) old new (Some before) → (session : Session)
        × (is_fresh session ≡ false) × (leader began : SeatState A)
        × (others : List (SeatState A)) × (old ≡ leader ∷ others)
        × AllZip (HasServed session over within) (began ∷ others) new }
{}

/// If it has none, the first reader served alone: if its stream ended or a read failed, the
/// messages that it read did not begin a session. No other reader began.
pub fn one_ends_before_the_session<A: Allocator>()
    ensures { (first : Session) (over : Sourced) (within : Bounds)
        (old new : List (SeatState A)) → AreServedBy first (shared over within) old new None →
        (leader ended : SeatState A) × (others : List (SeatState A)) × (old ≡ leader ∷ others)
        × (new ≡ ended ∷ others)
        × HasDone (λ result. Does (λ t. HasServedBefore first over within t result)) leader ended }
{}

/// Each reader read messages of its own, and wrote a prefix of the replies to them. For each node,
/// the messages of all readers move what one stream of them moves, in any order, if none changes
/// the session. Streams that end leave exactly what their messages moved, for the nodes whose
/// lookups they count.
#[tactic(auto, using(crate::proofs::Sums::summed))]
pub fn moves_are_summed<A: Allocator>()
    ensures read { (session : Session) (over : Sourced) (within : Bounds)
        (old new : List (SeatState A)) → AllZip (HasServed session over within) old new →
        (parts : List (List (List ℕ)))
        × HaveMessages (answering_from session over) old new parts }
    ensures together { (by : Answering) (parts : List (List (List ℕ))) (all : List (List ℕ)) →
        IsPermutation (flat_map (λ part. part) parts) all → KeepsSession by.first all →
        (node : ℕ) → moved_at by node parts ≡ balance node (moves_of by all) }
    ensures each { (session : Session) (over : Sourced) (within : Bounds)
        (old new : List (SeatState A)) → AllZip (HasServed session over within) old new →
        (parts : List (List (List ℕ))) × CameOf (answering_from session over) within.counted
        (done_of_all new) parts }
    ensures counted { (by : Answering) (nodes : ℕ) (done : List (Done A))
        (parts : List (List (List ℕ))) → CameOf by nodes done parts →
        (place : ℕ) → place < nodes → sum_at place done ≡ moved_at by (place + 1) parts }
{}
