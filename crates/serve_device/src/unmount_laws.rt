//! What follows from the definition of the first reply, and what pushes and pulls say about the
//! device.

ghost use Rattle.std.specs.Prelude.{◌≡◌, ◌⊎◌, ◌≤◌, ◌<◌, ◌+◌, ◌^◌, ℕ, pos, List, Bool, true, false, Some, Result, Ok, Err};
ghost use Rattle.devices.specs.Counting.{up};
ghost use Rattle.devices.specs.declared.failed.Failed.{Failed};
ghost use Rattle.serve_device.specs.FirstReply.{BeginsReply, IsWithinFirst, PutsReply};
ghost use Rattle.serve_device.specs.Reads.{HasGivenUp, PullsMessage, ReaderState};
ghost use Rattle.serve_device.specs.Writes.{WriterState};
ghost use Rattle.serve_device.specs.declared.answer.Answer.TheVariants.{Bytes, Failure};

/// Bytes begin with at most one reply, so what is within the first one is within each.
pub fn within_one_reply()
    ensures { (bytes : List ℕ) (taken n : ℕ) →
        IsWithinFirst bytes taken → BeginsReply bytes n → taken ≤ n }
{}

/// A push that counts bytes as taken wrote once: the writer was given the whole first reply, and
/// took this many bytes, or returned ENOENT (2). If a push leaves its sink gone, the writer
/// returned ENODEV (19).
#[tactic(auto, using(crate::proofs::Told::done_push, crate::proofs::Told::gone_push))]
pub fn pushes_write()
    ensures taken { (bytes : List ℕ) (n : ℕ) (old new : WriterState) (was is : Bool) →
        PutsReply bytes (Ok n) old new was is → (new.writes ≡ up old.writes)
        × BeginsReply bytes new.offered
        × ((new.last ≡ Some (Bytes n)) ⊎ (new.last ≡ Some (Failure (Some (pos 2))))) }
    ensures gone { (bytes : List ℕ) (result : Result ℕ Failed) (old new : WriterState) →
        PutsReply bytes result old new false true → new.last ≡ Some (Failure (Some (pos 19))) }
{}

/// A pull that returned bytes, or the end, took that from its last read, the only one that was not
/// interrupted. If it leaves its source gone, that read returned ENODEV (19).
#[tactic(auto, using(crate::proofs::Told::done_pull, crate::proofs::Told::gone_pull))]
pub fn pulls_read()
    ensures given { (n : ℕ) (old new : ReaderState) (was is : Bool) →
        PullsMessage (Ok n) old new was is →
        (new.last ≡ Some (Bytes n)) × (new.settled ≡ up old.settled) }
    ensures gone { (result : Result ℕ Failed) (old new : ReaderState) →
        PullsMessage result old new false true → new.last ≡ Some (Failure (Some (pos 19))) }
{}

/// A pull reads at least once, and at most 1,024 times. If it failed, its last read did; if that
/// was interrupted, so was each of 1,024.
#[tactic(auto, using(crate::proofs::Told::tried_pull, crate::proofs::Told::failed_pull))]
pub fn pulls_give_up()
    ensures tried { (result : Result ℕ Failed) (old new : ReaderState) (was is : Bool) →
        PullsMessage result old new was is → old.reads + 1024 < 2 ^ 64 →
        (old.reads < new.reads) × (new.reads ≤ old.reads + 1024) }
    ensures failed { (failed : Failed) (old new : ReaderState) (was is : Bool) →
        PullsMessage (Err failed) old new was is → HasGivenUp old new }
{}
