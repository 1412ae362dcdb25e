//! What a served stream means, end by end: laws that follow from the promise of
//! [`crate::run_until`].

ghost use Rattle.std.specs.Prelude.{◌≡◌, ◌↔◌, ◌+◌, ℕ, ℤ, true, List, Result, Ok, Err};
ghost use Rattle.fuse_wire.specs.Stream.{IsSplit};
ghost use Rattle.reply_model.specs.declared.moves.Move.{Move};
ghost use Rattle.reply_model.specs.Sessions.{is_fresh};
ghost use Rattle.serve_loop.specs.Rounds.{Answering};
ghost use Rattle.serve_loop.specs.declared.done.Done.{Done};
ghost use Rattle.serve_loop.specs.declared.opening.Begun.{Begun};
ghost use Rattle.serve_loop.specs.declared.stream_fault.StreamFault.{StreamFault};
ghost use Rattle.serve_loop.specs.declared.stream_fault.StreamFault.TheVariants.{BadLength, CutOff, Read, Write, Turns};
ghost use Rattle.serve_loop.specs.Serving.{Trace, AreBalances, IsRun, IsPrompt, HaveReplies, flushed_bytes, before};
ghost use Rattle.serve_loop.specs.Opening.{HasBegun, HasNotBegun};
ghost use Rattle.serve_loop.specs.Laws.{HasServed, HasBadLength, IsCutOff, HasFailed, HasUsedTurns, IsFront};

use std::alloc::Allocator;

/// `Ok`, `BadLength`, `CutOff`, `Read` and `Turns` say how the stream ended, and all replies are
/// written and flushed.
#[tactic(auto, using(crate::proofs::Ends::ends))]
pub fn ends_are_told<A: Allocator>()
    ensures served { (by : Answering) (n turns : ℕ) (t : Trace) (done : Done A) →
        IsRun by n turns t (Ok done) → HasServed by n t done }
    ensures bad { (by : Answering) (n turns : ℕ) (t : Trace) (at len : ℕ) →
        IsRun {A = A} by n turns t (Err (BadLength at len)) → HasBadLength by t at len }
    ensures cut { (by : Answering) (n turns : ℕ) (t : Trace) (at : ℕ) →
        IsRun {A = A} by n turns t (Err (CutOff at)) → IsCutOff by t at }
    ensures read { (by : Answering) (n turns : ℕ) (t : Trace) →
        IsRun {A = A} by n turns t (Err Read) → HasFailed by t }
    ensures turns { (by : Answering) (n turns : ℕ) (t : Trace) →
        IsRun {A = A} by n turns t (Err Turns) → HasUsedTurns by turns t }
{}

/// `Read` exactly if the source failed in the call, and `Write` exactly if the sink did, and each
/// failed once.
#[tactic(auto, using(crate::proofs::Ends::faults))]
pub fn faults_are_the_devices<A: Allocator>()
    ensures read { (by : Answering) (n turns : ℕ) (t : Trace) (r : Result (Done A) StreamFault) →
        IsRun by n turns t r →
        ((r ≡ Err Read) ↔ (t.source.failures ≡ t.source_before.failures + 1)) }
    ensures write { (by : Answering) (n turns : ℕ) (t : Trace) (r : Result (Done A) StreamFault) →
        IsRun by n turns t r → ((r ≡ Err Write) ↔ (t.sink.failures ≡ t.sink_before.failures + 1)) }
{}

/// At every end the bytes written are a prefix of the replies. All replies to what was pulled
/// before the last pull were flushed; there was no bad length in it, and the replies are those to
/// its messages, into which it is cut in one way.
#[tactic(auto, using(crate::proofs::Ends::always))]
pub fn replies_come_in_order<A: Allocator>()
    ensures front { (by : Answering) (n turns : ℕ) (t : Trace) (r : Result (Done A) StreamFault) →
        IsRun by n turns t r → IsFront by t }
    ensures prompt { (by : Answering) (n turns : ℕ) (t : Trace) (r : Result (Done A) StreamFault) →
        IsRun by n turns t r → IsPrompt by t }
    ensures flushed { (by : Answering) (n turns : ℕ) (t : Trace) (r : Result (Done A) StreamFault)
        (messages : List (List ℕ)) (rest : List ℕ) → IsRun by n turns t r →
        IsSplit (before t) messages rest → HaveReplies by messages (flushed_bytes t) }
{}

/// If a stream began in a fresh session and its session has begun, then what was pulled contains
/// that beginning.
#[tactic(auto, using(crate::proofs::Openings::begun_or_not))]
pub fn sessions_have_begun_or_not<A: Allocator>()
    ensures { (by : Answering) (n turns : ℕ) (t : Trace) (begun : Begun A) →
        is_fresh by.first ≡ true → HasBegun by n turns t begun → ¬ HasNotBegun by t.got }
{}

/// Moves have exactly one list of balances.
pub fn balances_are_one()
    ensures { (moves : List Move) (nodes : ℕ) (xs ys : List ℤ) →
        AreBalances moves nodes xs → AreBalances moves nodes ys → xs ≡ ys }
{}
