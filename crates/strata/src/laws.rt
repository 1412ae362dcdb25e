//! What the exit statuses mean, by what [`crate::command`] and [`crate::Service::sessions_from`]
//! promise.

ghost use Rattle.std.specs.Prelude.{◌≡◌, ◌≢◌, ◌≤◌, ◌⊎◌, ◌↔◌, ℕ, List, Bool, true, false, length, map, is_some, Option, Some, None, Ok, Err};
ghost use Rattle.std.specs.List.{AllByRecursion};
ghost use Rattle.strata_words.specs.CommandLine.{IsRefused, IsMisnumbered, IsMissealed, IsCrossed};
ghost use Rattle.strata_words.specs.declared.options.Line.{Line};
ghost use Rattle.strata_words.specs.declared.options.Verb.TheVariants as verbs;
ghost use Rattle.devices.specs.States.{Devices};
ghost use Rattle.serve_loop.specs.declared.stream_fault.StreamFault.TheVariants.{Read, Write};
ghost use Rattle.strata.specs.Ending.{EndsWith, IsServedWhole, IsFileFault, IsDoneOver, first_of};
ghost use Rattle.reply_model.specs.declared.session.Session.{Session};
ghost use Rattle.reply_model.specs.declared.session.Session.TheVariants.{Fresh, LastingFresh};
ghost use Rattle.reply_model.specs.Readings.{Sourced, sourced, AreShown, IsReplyOver};
ghost use Rattle.reply_model.specs.Replies.{reply};
ghost use Rattle.serve_core.specs.Kept.{WereGatheredFor, AreServedAs, over};
ghost use Rattle.devices.specs.Sources.{held};
ghost use Rattle.fuse_wire.specs.Requests.{Asked, at_node, read};
ghost use Rattle.stack_model.specs.Listing.{Stacked};
ghost use Rattle.stack_prepare.specs.Preparing.{AreStacked};
ghost use Rattle.serve_loop.specs.declared.done.Done.{Done};
ghost use Rattle.serve_loop.specs.Serving.{Trace};
ghost use Rattle.serve_device.specs.MountEnds.{MountEnds};
ghost use Rattle.strata_images.specs.Images.{ArePrepared, AreReadFor, profile_of};
ghost use Rattle.strata.specs.Readers.{status_of_end};
ghost use Rattle.serve_loop.specs.declared.stream_fault.StreamFault.{StreamFault};
ghost use Rattle.serve_device.specs.Ends.{end_of_stop};
ghost use Rattle.strata.specs.Sessions.{first_fault, status_at, Accepting, AreServed, EndWith, IsSession, ServedSession};
ghost use Rattle.strata.specs.declared.faults.Fault.{Fault};
ghost use Rattle.strata.specs.declared.faults.Fault.TheVariants.{Stopped};
ghost use Rattle.strata.specs.Laws.{AreBad, AreFar, AreToBlame, AreUnsealed, EndsAlike, HasMetItsEnd, HasStatusOf, IsOfFirstStopped, IsWhole, TellsOfSessions};
ghost use Rattle.strata.specs.Mounts.{is_taken_away, status_on_device, IsRunOnDevice, IsTakenAway, StopsWhere};

use std::alloc::Allocator;
use std::os::unix::fs::FileExt;

/// A status other than 0 is one of 1 to 5. With 2 the arguments are no command of the program, or
/// have a malformed number or digest, a number out of range, or not a digest for each image, or
/// name a file beside the device, and no device was touched. With 3 the images are none or more
/// than 128, or one is broken, or one with a digest is not as sealed, or the trailer of one that is
/// not read in full ends at 4 GiB or beyond; that is the fault of the run.
pub fn statuses_tell<A: Allocator>()
    ensures range { (words : List (List ℕ)) (n : ℕ) (old new : Devices) →
        EndsWith A words n old new → (1 ≤ n) × (n ≤ 5) }
    ensures words { (words : List (List ℕ)) (old new : Devices) →
        EndsWith A words 2 old new →
        (IsRefused words ⊎ (IsMisnumbered words ⊎ (IsCrossed words ⊎ IsMissealed words)))
        × (new ≡ old) }
    ensures images { (words : List (List ℕ)) (old new : Devices) (e : EndsWith A words 3 old new) →
        AreToBlame words
        ⊎ ((AreUnsealed words e.fault ⊎ AreFar words e.fault) × (new ≡ old)) }
{}

/// The status of a fault says what is wrong: 1 files, sockets and streams; 2 the arguments; 3 the
/// images; 4 the requests, also if they do not end; 5 memory.
#[tactic(auto, using(crate::proofs::Blames::each_status))]
pub fn each_status_has_its_faults()
    ensures { (fault : Fault) → HasStatusOf fault }
{}

/// Sessions end without a fault and with 0 if all of them were served to their end; otherwise with
/// the fault of the first that stopped, with its number, and with its status; or with 1 after fewer
/// sessions than requested, since no client could be accepted. For any sessions in a row the fault
/// is that of the first of these that stopped, and there is none if none did.
pub fn sessions_tell<A: Allocator>()
    ensures faults { (first : Session) (by : Sourced) (count : ℕ) (fault : Option Fault)
        (clients : Accepting) → AreServed A first by count fault clients →
        TellsOfSessions A first by count fault (status_at fault) }
    ensures statuses { (first : Session) (by : Sourced) (count status : ℕ)
        (clients : Accepting) → EndWith A first by count status clients →
        (fault : Option Fault) × TellsOfSessions A first by count fault status }
    ensures stopped { (first : Session) (by : Sourced) (served : List (ServedSession A first by))
        (fault : Fault) → first_fault 1 served ≡ Some fault → IsOfFirstStopped served fault }
    ensures whole { (first : Session) (by : Sourced) (served : List (ServedSession A first by)) →
        first_fault 1 served ≡ None → AllByRecursion IsWhole served }
{}

/// Each session counts alone: if it was served to its end, it met that once, and nothing failed; if
/// a failed read or write stopped it, it has that one failure.
pub fn sessions_begin_anew<A: Allocator>()
    ensures whole { (first : Session) (by : Sourced) (counted : ℕ) (t : Trace) (done : Done A) →
        IsSession first by counted t (Ok done) → HasMetItsEnd t }
    ensures read { (first : Session) (by : Sourced) (counted : ℕ) (t : Trace) →
        IsSession {A = A} first by counted t (Err Read) → t.source.failures ≡ 1 }
    ensures write { (first : Session) (by : Sourced) (counted : ℕ) (t : Trace) →
        IsSession {A = A} first by counted t (Err Write) → t.sink.failures ≡ 1 }
{}

/// Over an open `/dev/fuse` a status other than 0 means what it means over streams; after an
/// unmount the status is 0, and a read or a write failed.
pub fn statuses_tell_of_mounts<A: Allocator>()
    ensures there { (words : List (List ℕ)) (n : ℕ) (old new : MountEnds) →
        IsRunOnDevice A words n old new → n ≢ 0 → EndsWith A words n old.devices new.devices }
    ensures taken_away { (words : List (List ℕ)) (n : ℕ) (old new : MountEnds) →
        StopsWhere A words true n old new →
        (n ≡ 0) × IsTakenAway A words old.devices new.devices }
{}

/// Over a device, and with `--lasting`, the client learns that the tree never changes; otherwise
/// not.
pub fn devices_are_served_lastingly()
    ensures device { (line : Line) → line.device ≡ true → first_of line ≡ LastingFresh }
    ensures lasting { (line : Line) → line.lasting ≡ true → first_of line ≡ LastingFresh }
    ensures usual { (line : Line) → line.device ≡ false → line.lasting ≡ false →
        first_of line ≡ Fresh }
{}

/// If this was gathered from images for a line, and its data are read from sources that hold
/// exactly these images, they are good, and a request may only get the reply that is defined over
/// them. This was gathered so from whatever images the sources of the line show; and these are
/// good, and served as they are, or with EIO where data may be missing.
pub fn lines_are_served_as_over_their_files()
    ensures good { (line : Line) (kept images : List (List ℕ)) (by : Sourced) →
        ArePrepared line kept by → WereGatheredFor (profile_of line) images kept →
        AreStacked (profile_of line) line.owner images (over images by.stack) }
    ensures told { (line : Line) (kept images : List (List ℕ)) (by : Sourced) →
        ArePrepared line kept by → WereGatheredFor (profile_of line) images kept →
        (whole : Stacked) → AreStacked (profile_of line) line.owner images whole →
        (s : Session) (q : Asked) (bytes : List ℕ) →
        (IsReplyOver (sourced by.stack (map held images)) s q bytes ↔ (bytes ≡ reply whole s q)) }
    ensures gathered { (line : Line) (kept images : List (List ℕ)) (by : Sourced) →
        ArePrepared line kept by → 1 ≤ length images → AreShown by.sources images →
        WereGatheredFor (profile_of line) images kept }
    ensures shown { (line : Line) (kept images : List (List ℕ)) (by : Sourced) →
        ArePrepared line kept by → 1 ≤ length images → AreShown by.sources images →
        AreServedAs (profile_of line) line.owner by images }
{}

/// Whatever is read from the files later, a request other than READ gets the reply that is defined
/// over the images from which this was gathered.
pub fn lines_keep_what_they_show()
    ensures { (line : Line) (kept images : List (List ℕ)) (by : Sourced) →
        ArePrepared line kept by → WereGatheredFor (profile_of line) images kept →
        (whole : Stacked) → AreStacked (profile_of line) line.owner images whole →
        (s : Session) (q : Asked) (bytes : List ℕ) → IsReplyOver by s q bytes →
        ((offset size : ℕ) → q.op ≢ at_node (read offset size)) → bytes ≡ reply whole s q }
{}

/// What `check` and `list` report of what they hold of images is so of the images that the sources
/// show, and these are bad if what is held is: under digests, those that have them, unless a read
/// returned, instead of a block, another with its digest.
pub fn reports_are_of_shown_images<A: Allocator>()
    ensures checked { (line : Line) (kept images : List (List ℕ)) (read : AreReadFor line kept) →
        AreShown read.sources images → EndsAlike A verbs.Check line kept images }
    ensures listed { (line : Line) (kept images : List (List ℕ)) (read : AreReadFor line kept) →
        AreShown read.sources images → EndsAlike A verbs.List line kept images }
    ensures blamed { (line : Line) (kept images : List (List ℕ)) (read : AreReadFor line kept) →
        AreShown read.sources images → AreBad (profile_of line) kept →
        AreBad (profile_of line) images }
{}

/// One of several readers ends with the same status as a reader alone.
#[tactic(auto, using(crate::proofs::Rules::ends_alike))]
pub fn readers_end_as_one_does()
    ensures { (stop : StreamFault) (input output : Bool) →
        status_of_end (end_of_stop stop input output)
        ≡ status_on_device (Stopped stop) input output }
{}

/// A failed write means an unmount if either side knows of it, and a failed read if its own side
/// does.
pub fn writes_know_by_either_side()
    ensures write { (input : Bool) → is_taken_away (Stopped Write) input true ≡ true }
    ensures written { is_taken_away (Stopped Write) true false ≡ true }
    ensures read { (output : Bool) → is_taken_away (Stopped Read) false output ≡ false }
    ensures ended { (output : Bool) → is_taken_away (Stopped Read) true output ≡ true }
    ensures there { is_taken_away (Stopped Write) false false ≡ false }
{}

/// A file of requests or of replies replaces a stream, which stays untouched; a file that cannot be
/// opened leaves both streams untouched; and `check` and `list` leave the input untouched.
pub fn named_files_leave_the_streams<A: Allocator>()
    ensures requests { (line : Line) (images : List (List ℕ)) (old new : Devices) →
        IsServedWhole A line images old new → is_some line.requests ≡ true →
        new.source ≡ old.source }
    ensures replies { (line : Line) (images : List (List ℕ)) (old new : Devices) →
        IsServedWhole A line images old new → is_some line.replies ≡ true → new.sink ≡ old.sink }
    ensures faults { (line : Line) (fault : Fault) (old new : Devices) →
        IsFileFault line fault old new → new ≡ old }
    ensures check { (line : Line) (images : List (List ℕ)) (old new : Devices) →
        IsDoneOver A verbs.Check line images old new → new.source ≡ old.source }
    ensures list { (line : Line) (images : List (List ℕ)) (old new : Devices) →
        IsDoneOver A verbs.List line images old new → new.source ≡ old.source }
{}
