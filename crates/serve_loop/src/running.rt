//! A stream, served to its end or until its session has begun.

ghost use Rattle.std.specs.Prelude.{◌≡◌, Err, MatchOption};
ghost use Rattle.std.specs.Io.KnownBytes.{IsAtEnd};
ghost use Rattle.devices.specs.States.{devices};
ghost use Rattle.fuse_wire.specs.Stream.{IsRest, IsBad, IsOpen};
ghost use Rattle.serve_loop.specs.declared.stream_fault.StreamFault.TheVariants.{Turns};
ghost use Rattle.serve_loop.specs.Serving.{AreReady, Does};
ghost use Rattle.serve_loop.specs.Opening.{IsServedUntil, OnEnded};

use crate::one_round::AnswersRounds;
use crate::opening::{Opening, Until, as_begun, is_reached};
use crate::progress::Progress;
use crate::rounds_on::answer_all;
use crate::stream_fault::StreamFault;
use devices::{Sink, Source};
use fuse_wire::{Framed, frame};
use std::alloc::Allocator;

/// Serves the source's stream of requests into the sink, in at most `turns` pulls of at most 65,536
/// bytes each. The stream begins in the session that `answers` names. It is served to its end, or
/// only until its session has begun and no part of a message is left: after the pull that brought
/// INIT, if each pull brings one message.
///
/// - `Ended`: the stream came to its end between two messages, and all replies are written and
///   flushed. If the beginning of a session was to end it, no session had begun.
/// - `Begun`: the session has begun, and had not before the last pull. Everything pulled is
///   answered, the replies are flushed, and neither device failed or met its end.
/// - `BadLength`, `CutOff`, `Read` and `Turns`: all replies to the complete messages that arrived
///   are written and flushed.
/// - `Write` and `Memory`: some of the first replies are written.
///
/// `Read` and `Write` exactly if the source's or the sink's count of failures rose in this call. No
/// pull follows an end, a bad length or a failure, and no device is called after memory was
/// refused. With no turns it returns `Turns` at once.
pub fn run_until<T: AnswersRounds, S: Source, K: Sink, A: Allocator + Copy>(
    alloc: A,
    answers: &T,
    source: &mut S,
    sink: &mut K,
    turns: u64,
    until: Until,
) -> Result<Opening<A>, StreamFault>
    requires ready { T.ready answers.now }
    requires devices { AreReady turns (devices (S.state source.old) (K.state sink.old)) }
    ensures run { Does (λ t. IsServedUntil until
        (T.answering answers.now) (T.nodes answers.now) turns t result)
        (devices (S.state source.old) (K.state sink.old))
        (devices (S.state source.new) (K.state sink.new)) }
    ensures end { OnEnded result (IsAtEnd (S.state source.new).left) }
    ensures at_once { turns ≡ 0 → result ≡ Err Turns }
{
    if turns == 0 {
        return Err(StreamFault::Turns);
    }
    let mut progress = Progress::new(alloc, answers.first(), answers.nodes())?;
    for _turn in 0..turns {
        progress.buffer.make_room()?;
        let got = match progress.buffer.pull(source) {
            Ok(got) => got,
            Err(_) => return Err(StreamFault::Read),
        };
        if got == 0 {
            if progress.buffer.rest().is_empty() {
                return Ok(Opening::Ended(progress.done()));
            }
            return Err(StreamFault::CutOff { at: progress.at });
        }
        // like `?`, but each end is a match arm, whose name the proof uses
        match answer_all(answers, &mut progress, sink) {
            Ok(()) => {}
            Err(fault) => return Err(fault),
        }
        if let Some(len) = bad_length(progress.buffer.rest()) {
            return Err(StreamFault::BadLength {
                at: progress.at,
                len,
            });
        }
        if is_reached(until, &progress) {
            return Ok(Opening::Begun(as_begun(progress)));
        }
    }
    Err(StreamFault::Turns)
}

// In bytes without a complete message, the length of the next message, if no message can have it.
fn bad_length(rest: &[u8]) -> Option<u32>
    requires { IsRest rest.now }
    ensures { MatchOption result (IsOpen rest.now) (λ n. IsBad rest.now n) }
{
    match frame(rest) {
        Framed::Bad(len) => Some(len),
        _ => None,
    }
}
