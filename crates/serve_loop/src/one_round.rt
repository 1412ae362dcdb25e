//! One round, whatever answers it.

ghost use Rattle.std.specs.Prelude.{◌≡◌, ◌≤◌, ◌^◌, ◌++◌, ℕ, List, length, IfOk};
ghost use Rattle.reply_model.specs.declared.session.Session.{Session};
ghost use Rattle.reply_model.specs.Balances.{AreWithin};
ghost use Rattle.serve_loop.specs.Rounds.{Answering, output, AppendsRound};

use fuse_wire::Replies;
use reply_model::Session;
use std::alloc::{AllocError, Allocator};

/// How far a round got.
#[derive(Clone, Copy)]
pub struct RoundEnd {
    /// How many bytes its messages have.
    pub used: usize,
    /// How many messages it answered.
    pub messages: usize,
    /// The session after them.
    pub session: Session,
}

/// Answers rounds.
pub trait AnswersRounds {
    ghost answering: { Self → Answering };

    ghost nodes: { Self → ℕ };

    /// The session that a stream begins in.
    fn first(&self) -> Session
        ensures { result ≡ (answering self.now).first };

    /// What a round requires: that its workers, if it calls any, do what they must.
    ghost ready: { Self → Type 0 };

    /// How many nodes have balances: the first ones, which are numbered from 1.
    fn nodes(&self) -> u64
        ensures { result ≡ nodes self.now };

    /// Answers some of the first messages of the stream's bytes in the session, and at least one,
    /// if one is complete. Appends their replies, and adds the lookups that they move to the
    /// balances; that of node n is at index n - 1. Moves of a node without a balance are not
    /// counted.
    ///
    /// If memory is refused, the replies and the balances may hold a part of the round.
    fn answer_round<A: Allocator>(
        &self,
        stream: &[u8],
        session: Session,
        replies: &mut Replies<A>,
        balances: &mut [i128],
    ) -> Result<RoundEnd, AllocError>
        requires ready { ready self.now }
        requires within { AreWithin (2 ^ 122) balances.old }
        requires short { length stream.now ≤ 2 ^ 57 }
        ensures { IfOk result (λ round. AppendsRound (answering self.now) session stream.now round
            (output replies.old.items balances.old) (output replies.new.items balances.new)) };
}
