//! What was gathered from images is refused for the same faults as they are, shows the same, and
//! gets the same answers.

ghost use Rattle.std.specs.Prelude.{◌≡◌, ◌≢◌, ◌⊎◌, ◌↔◌, ℕ, List, map, length, take, false};
ghost use Rattle.devices.specs.Sources.{Source, held};
ghost use Rattle.stack_model.specs.declared.owner.Owner.{Owner};
ghost use Rattle.romfs_format.specs.declared.rule.Profile.{Profile};
ghost use Rattle.romfs_format.specs.Profiles.{reads_attributes};
ghost use Rattle.romfs_kept.specs.Footprint.{reach};
ghost use Rattle.fuse_wire.specs.declared.errno.Errno.TheVariants.{EIO};
ghost use Rattle.fuse_wire.specs.declared.limits.TheConstants.{OUT_HEADER_SIZE};
ghost use Rattle.fuse_wire.specs.Replies.{error_reply};
ghost use Rattle.fuse_wire.specs.Requests.{Asked, at_node, read};
ghost use Rattle.stack_model.specs.Listing.{Stacked};
ghost use Rattle.stack_model.specs.Numbers.{nodes};
ghost use Rattle.stack_prepare.specs.declared.refusal.Refusal.{Refusal};
ghost use Rattle.stack_prepare.specs.Layers.{AreRefused};
ghost use Rattle.stack_prepare.specs.Preparing.{AreStacked};
ghost use Rattle.reply_model.specs.declared.session.Session.{Session};
ghost use Rattle.reply_model.specs.Replies.{reply};
ghost use Rattle.reply_model.specs.Moves.{moves};
ghost use Rattle.reply_model.specs.Holding.{AreHeldBy};
ghost use Rattle.reply_model.specs.Readings.{Sourced, sourced, AreShown, IsReplyOver, IsRightOver};
ghost use Rattle.reply_model.specs.Streams.{replies};
ghost use Rattle.reply_rounds.specs.Answers.{answering_from};
ghost use Rattle.serve_loop.specs.declared.done.Done.{Done};
ghost use Rattle.serve_loop.specs.Serving.{AreRepliesTo, Trace};
ghost use Rattle.serve_loop.specs.Laws.{HasServed};
ghost use Rattle.serve_core.specs.Headline.{AreRightReplies, HasServedOver, HasServedRight};
ghost use Rattle.serve_core.specs.Kept.{WereGatheredFor, WereGatheredFrom, AreStacksOf, AreServedAs, over};

use std::alloc::Allocator;

/// The first bytes of images, as many as are read, were gathered from them, for a profile that
/// reads no attributes.
#[tactic(auto, using(crate::proofs::Themselves::all_themselves))]
pub fn images_are_gathered_of_themselves()
    ensures { (profile : Profile) → reads_attributes profile ≡ false → (images : List (List ℕ)) →
        WereGatheredFor profile images (map (λ b. take (reach b) b) images) }
{}

/// What was gathered from images is refused for the same faults as they are.
#[tactic(auto, using(crate::proofs::Refused::refused_alike))]
pub fn refused_as_they_are()
    ensures { (profile : Profile) (images kept : List (List ℕ)) →
        WereGatheredFor profile images kept → (r : Refusal) →
        (AreRefused profile kept r ↔ AreRefused profile images r) }
{}

/// It can be stacked if the images can, and then shows what they show: the same entries, rows,
/// lists and owner.
pub fn stacked_as_they_are()
    ensures forth { (profile : Profile) (images kept : List (List ℕ)) →
        WereGatheredFor profile images kept → (owner : Owner) (stack : Stacked) →
        AreStacked profile owner images stack → AreStacked profile owner kept (over kept stack) }
    ensures back { (profile : Profile) (images kept : List (List ℕ)) →
        WereGatheredFor profile images kept → (owner : Owner) (stack : Stacked) →
        AreStacked profile owner kept stack → AreStacked profile owner images (over images stack) }
{}

/// Over what was gathered, with data read from memory that holds the images, a request may get the
/// reply that is defined over the images, and no other. From any sources that hold them it gets
/// only that reply; from sources that show them that reply, or EIO if the source may lack its data.
/// And it moves the same lookups.
pub fn answered_as_they_are()
    ensures told { (images : List (List ℕ)) (gathered whole : Stacked) →
        AreStacksOf images gathered whole → (s : Session) (q : Asked) (bytes : List ℕ) →
        (IsReplyOver (sourced gathered (map held images)) s q bytes ↔ (bytes ≡ reply whole s q)) }
    ensures same { (images : List (List ℕ)) (gathered whole : Stacked) →
        AreStacksOf images gathered whole → (sources : List Source) → AreHeldBy sources images →
        (s : Session) (q : Asked) (bytes : List ℕ) →
        IsReplyOver (sourced gathered sources) s q bytes → bytes ≡ reply whole s q }
    ensures right { (images : List (List ℕ)) (gathered whole : Stacked) →
        AreStacksOf images gathered whole → (sources : List Source) → AreShown sources images →
        (s : Session) (q : Asked) (bytes : List ℕ) →
        IsReplyOver (sourced gathered sources) s q bytes →
        IsRightOver (sourced gathered sources) (reply whole s q) q bytes }
    ensures moved { (images : List (List ℕ)) (gathered whole : Stacked) →
        AreStacksOf images gathered whole → (s : Session) (q : Asked) →
        moves gathered s q ≡ moves whole s q }
{}

/// Whatever the sources return, for instance for files that were changed or fail: each request
/// except READ gets the reply that is defined over the images, and READ one with as much data, or
/// EIO.
pub fn only_data_are_read()
    ensures others { (images : List (List ℕ)) (gathered whole : Stacked) →
        AreStacksOf images gathered whole → (sources : List Source) (s : Session) (q : Asked)
        (bytes : List ℕ) → IsReplyOver (sourced gathered sources) s q bytes →
        ((offset size : ℕ) → q.op ≢ at_node (read offset size)) → bytes ≡ reply whole s q }
    ensures reads { (images : List (List ℕ)) (gathered whole : Stacked) →
        AreStacksOf images gathered whole → (sources : List Source) (s : Session) (q : Asked)
        (bytes : List ℕ) → IsReplyOver (sourced gathered sources) s q bytes →
        ((length bytes ≡ length (reply whole s q))
        × (take OUT_HEADER_SIZE bytes ≡ take OUT_HEADER_SIZE (reply whole s q)))
        ⊎ (bytes ≡ error_reply q.unique EIO) }
{}

/// From sources that hold the images, a stream is served as over the images, to its end; from
/// sources that show them, with EIO instead of data that may be missing.
pub fn streams_are_served_as_over_them<A: Allocator>()
    ensures told { (images : List (List ℕ)) (gathered whole : Stacked) →
        AreStacksOf images gathered whole → (sources : List Source) → AreHeldBy sources images →
        (first : Session) (messages : List (List ℕ)) (bytes : List ℕ) →
        AreRepliesTo (answering_from first (sourced gathered sources)) messages bytes →
        bytes ≡ replies whole first messages }
    ensures served { (images : List (List ℕ)) (gathered whole : Stacked) →
        AreStacksOf images gathered whole → (sources : List Source) → AreHeldBy sources images →
        (first : Session) (t : Trace) (done : Done A) →
        HasServed (answering_from first (sourced gathered sources))
        (length (nodes gathered.entries)) t done → HasServedOver first whole done t }
    ensures right { (images : List (List ℕ)) (gathered whole : Stacked) →
        AreStacksOf images gathered whole → (sources : List Source) → AreShown sources images →
        (first : Session) (messages : List (List ℕ)) (bytes : List ℕ) →
        AreRepliesTo (answering_from first (sourced gathered sources)) messages bytes →
        AreRightReplies first (sourced gathered sources) whole messages bytes }
    ensures served_right { (images : List (List ℕ)) (gathered whole : Stacked) →
        AreStacksOf images gathered whole → (sources : List Source) → AreShown sources images →
        (first : Session) (t : Trace) (done : Done A) →
        HasServed (answering_from first (sourced gathered sources))
        (length (nodes gathered.entries)) t done →
        HasServedRight first (sourced gathered sources) whole done t }
{}

/// What was gathered from sources is served like any images that the sources show: it is refused
/// for the same faults. Once it is stacked the images are good, each reply is the one that is
/// defined over them, or EIO instead of data, and the same lookups are moved. A sealed source shows
/// any bytes with its digest, unless a read returns, instead of a block of theirs or of their tree,
/// another block with the same digest. Bytes in memory show themselves.
pub fn shown_images_are_served()
    ensures refused { (profile : Profile) (sources : List Source) (images kept : List (List ℕ)) →
        WereGatheredFrom profile sources kept → AreShown sources images → (r : Refusal) →
        (AreRefused profile kept r ↔ AreRefused profile images r) }
    ensures served { (profile : Profile) (owner : Owner) (by : Sourced)
        (images kept : List (List ℕ)) → WereGatheredFrom profile by.sources kept →
        AreStacked profile owner kept by.stack →
        AreShown by.sources images → AreServedAs profile owner by images }
    ensures stacks { (profile : Profile) (owner : Owner) (by : Sourced)
        (images kept : List (List ℕ)) → WereGatheredFrom profile by.sources kept →
        AreStacked profile owner kept by.stack →
        AreShown by.sources images → AreStacksOf images by.stack (over images by.stack) }
    ensures held { (profile : Profile) (images kept : List (List ℕ)) →
        WereGatheredFor profile images kept → WereGatheredFrom profile (map held images) kept }
    ensures shown { (sources : List Source) (images : List (List ℕ)) →
        AreHeldBy sources images → AreShown sources images }
{}
