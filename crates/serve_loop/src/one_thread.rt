//! Rounds on one thread.

ghost use Rattle.std.specs.Prelude.{◌≡◌, ◌≤◌, ◌^◌, ◌++◌, ℕ, List, length, IfOk};
ghost use Rattle.reply_model.specs.Balances.{AreWithin};
ghost use Rattle.serve_loop.specs.Rounds.{output, AppendsRound};

use crate::limits::{ENOUGH_REPLIES, MAX_ROUND_MESSAGES};
use crate::one_message::AnswersOne;
use crate::one_round::RoundEnd;
use fuse_wire::{Framed, Replies, frame};
use reply_model::Session;
use std::alloc::{AllocError, Allocator};

/// Answers the first complete messages of the stream's bytes one after another: all of them, but at
/// most 256, and none after the reply that reaches 262,144 bytes of replies.
///
/// Each message is borrowed from the stream and read once. `AllocError` only if memory is refused.
pub fn walk<T: AnswersOne, A: Allocator>(
    answers: &T,
    stream: &[u8],
    session: Session,
    replies: &mut Replies<A>,
    balances: &mut [i128],
) -> Result<RoundEnd, AllocError>
    requires within { AreWithin (2 ^ 122) balances.old }
    requires short { length stream.now ≤ 2 ^ 57 }
    ensures { IfOk result (λ round. AppendsRound (T.answering answers.now) session stream.now round
        (output replies.old.items balances.old) (output replies.new.items balances.new)) }
{
    let begun = replies.len();
    let mut round = RoundEnd {
        used: 0,
        messages: 0,
        session,
    };
    while round.messages < MAX_ROUND_MESSAGES && replies.len() - begun < ENOUGH_REPLIES {
        let rest = &stream[round.used..];
        match frame(rest) {
            Framed::Whole(len) => {
                round.session = answers.answer(
                    round.messages as u32,
                    round.session,
                    &rest[..len],
                    replies,
                    balances,
                )?;
                round.used += len;
                round.messages += 1;
            }
            Framed::More | Framed::Bad(_) => break,
        }
    }
    Ok(round)
}
