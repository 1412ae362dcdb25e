//! What serving over images means: each law follows from what [`crate::serve_as`] promises, and so
//! does what is promised if images are prepared and a stream is then run over them.
//! `serve_loop::laws` say what each end of a stream means, and `stack_prepare::laws` that images
//! are refused for one reason.

ghost use Rattle.std.specs.Prelude.{◌≡◌, ℕ, List, map, Result, Ok, Err};
ghost use Rattle.devices.specs.States.{Devices};
ghost use Rattle.romfs_format.specs.declared.rule.ImageFault.{ImageFault};
ghost use Rattle.stack_prepare.specs.declared.refusal.Refusal.{Refusal};
ghost use Rattle.stack_prepare.specs.declared.refusal.Refusal.TheVariants as refusals;
ghost use Rattle.stack_prepare.specs.Layers.{AreRefused};
ghost use Rattle.stack_prepare.specs.Preparing.{AreStacked};
ghost use Rattle.serve_loop.specs.declared.done.Done.{Done};
ghost use Rattle.serve_loop.specs.declared.stream_fault.StreamFault.{StreamFault};
ghost use Rattle.serve_loop.specs.Serving.{AreRepliesTo};
ghost use Rattle.stack_model.specs.Listing.{Stacked};
ghost use Rattle.reply_model.specs.declared.session.Session.{Session};
ghost use Rattle.devices.specs.Sources.{Source, held};
ghost use Rattle.reply_model.specs.Readings.{in_memory, sourced, AreShown};
ghost use Rattle.reply_model.specs.Streams.{replies};
ghost use Rattle.reply_pool.specs.Answers.{answering, answering_from};
ghost use Rattle.serve_core.specs.declared.stop.Stop.{Stop};
ghost use Rattle.serve_core.specs.declared.stop.Stop.TheVariants.{Layer, Layers};
ghost use Rattle.serve_core.specs.declared.terms.Counted.TheVariants.{AllNodes};
ghost use Rattle.serve_core.specs.Stops.{stop_of_refusal, told};
ghost use Rattle.serve_core.specs.Headline.{Call, ServesBetween, AreRightReplies, HasServedAll, IsRefusedFor, IsAtOnce, RunsWithin, bounds_over};

use std::alloc::Allocator;

/// If layers are held in memory, messages may get only their defined replies, one after another;
/// the same if their data are read from sources that hold exactly the layers' bytes. From sources
/// that show these bytes a READ of data may get EIO instead.
#[tactic(auto, using(crate::proofs::Headline::as_replied))]
pub fn replies_are_those_defined()
    ensures held { (first : Session) (stack : Stacked) (messages : List (List ℕ))
        (bytes : List ℕ) →
        AreRepliesTo (answering first stack) messages bytes →
        bytes ≡ replies stack first messages }
    ensures read { (first : Session) (stack : Stacked) (messages : List (List ℕ))
        (bytes : List ℕ) →
        AreRepliesTo (answering_from first (sourced stack (map held stack.layers))) messages bytes →
        bytes ≡ replies stack first messages }
    ensures shown { (first : Session) (stack : Stacked) (sources : List Source) →
        AreShown sources stack.layers → (messages : List (List ℕ)) (bytes : List ℕ) →
        AreRepliesTo (answering_from first (sourced stack sources)) messages bytes →
        AreRightReplies first (sourced stack sources) stack messages bytes }
{}

/// Over images, in any session that a stream begins in, `Ok` means that they are good, that the
/// source met its end between two messages, and that the definition's replies to all messages were
/// written, one after another. `Layers` and `Layer` say what is wrong with the images, and no
/// device was called. With no turns the result for good images is `Turns`.
#[tactic(auto, using(crate::proofs::Headline::over_images))]
pub fn streams_are_served_over_images<A: Allocator>()
    ensures served { (call : Call) (done : Done A) (old new : Devices) →
        ServesBetween call (Ok done) old new → HasServedAll call done old new }
    ensures layers { (call : Call) (n : ℕ) (old new : Devices) →
        ServesBetween {A = A} call (Err (Layers n)) old new →
        IsRefusedFor call (refusals.Layers n) old new }
    ensures layer { (call : Call) (n : ℕ) (f : ImageFault) (old new : Devices) →
        ServesBetween {A = A} call (Err (Layer n f)) old new →
        IsRefusedFor call (refusals.Layer n f) old new }
    ensures at_once { (call : Call) (result : Result (Done A) Stop) (old new : Devices) →
        call.turns ≡ 0 → ServesBetween call result old new → IsAtOnce call result }
{}

/// To prepare images of any owner, and then to run a stream over their table with lookups of all
/// nodes counted, is to serve it over the images, as a program that holds them in full does.
#[tactic(auto, using(crate::proofs::Headline::run_once_prepared))]
pub fn streams_are_served_once_images_are_prepared<A: Allocator>()
    ensures run { (call : Call) (stack : Stacked) (ended : Result (Done A) StreamFault)
        (old new : Devices) → AreStacked call.profile call.owner call.images stack →
        RunsWithin call.first (in_memory stack)
        (bounds_over call.turns AllNodes (in_memory stack)) ended old new →
        ServesBetween call (told ended) old new }
    ensures refused { (call : Call) (refusal : Refusal) (devices : Devices) →
        AreRefused call.profile call.images refusal →
        ServesBetween {A = A} call (Err (stop_of_refusal refusal)) devices devices }
{}
