//! Rounds of answers, written to the sink.

ghost use Rattle.std.specs.Prelude.{◌<◌, ◌^◌, OnOk, IfOk, IfErr};
ghost use Rattle.serve_loop.specs.Steps.{serving_state, IsInOrder, Advances, AdvancesToRest, StopsShort};

use crate::one_round::AnswersRounds;
use crate::progress::Progress;
use crate::stream_fault::StreamFault;
use devices::{Sink, hand_on};
use std::alloc::Allocator;

// Answers all complete messages.
pub(crate) fn answer_all<T: AnswersRounds, K: Sink, A: Allocator>(
    answers: &T,
    progress: &mut Progress<A>,
    sink: &mut K,
) -> Result<(), StreamFault>
    requires ready { T.ready answers.now }
    requires in_order { IsInOrder (T.nodes answers.now) progress.old }
    requires counts { (K.state sink.old).counts.failures < 2 ^ 63 }
    ensures in_order { OnOk result (IsInOrder (T.nodes answers.now) progress.new) }
    ensures ok { OnOk result (AdvancesToRest (T.answering answers.now) (serving_state progress.old)
        (serving_state progress.new) (K.state sink.old) (K.state sink.new)) }
    ensures err { IfErr result (StopsShort (T.answering answers.now) (serving_state progress.old)
        (K.state sink.old) (K.state sink.new)) }
{
    loop {
        // each end is a match arm, whose name the proof uses
        match answer_round(answers, progress, sink) {
            Ok(true) => {}
            Ok(false) => return Ok(()),
            Err(fault) => return Err(fault),
        }
    }
}

// Answers one round, and writes its replies to the sink. False if no message is complete.
fn answer_round<T: AnswersRounds, K: Sink, A: Allocator>(
    answers: &T,
    progress: &mut Progress<A>,
    sink: &mut K,
) -> Result<bool, StreamFault>
    requires ready { T.ready answers.now }
    requires in_order { IsInOrder (T.nodes answers.now) progress.old }
    requires counts { (K.state sink.old).counts.failures < 2 ^ 63 }
    ensures in_order { OnOk result (IsInOrder (T.nodes answers.now) progress.new) }
    ensures ok { IfOk result (Advances (T.answering answers.now) (serving_state progress.old)
        (serving_state progress.new) (K.state sink.old) (K.state sink.new)) }
    ensures err { IfErr result (StopsShort (T.answering answers.now) (serving_state progress.old)
        (K.state sink.old) (K.state sink.new)) }
{
    progress.replies.clear();
    let round = answers.answer_round(
        progress.buffer.rest(),
        progress.session,
        &mut progress.replies,
        progress.balances.as_mut_slice(),
    )?;
    if round.messages == 0 {
        return Ok(false);
    }
    let Ok(()) = hand_on(sink, progress.replies.as_slice()) else {
        return Err(StreamFault::Write);
    };
    progress.buffer.pass(round.used);
    progress.session = round.session;
    progress.at += round.used as u64;
    progress.messages += round.messages as u64;
    progress.written += progress.replies.len() as u128;
    Ok(true)
}
