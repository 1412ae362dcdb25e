//! One message, whatever answers it.

ghost use Rattle.std.specs.Prelude.{◌≡◌, ◌^◌, ◌++◌, ℕ, List, IfOk};
ghost use Rattle.fuse_wire.specs.Stream.{IsMessage};
ghost use Rattle.reply_model.specs.declared.session.Session.{Session};
ghost use Rattle.reply_model.specs.Balances.{AreWithin};
ghost use Rattle.serve_loop.specs.Rounds.{Answering, output, AppendsAnswer};

use fuse_wire::Replies;
use reply_model::Session;
use std::alloc::{AllocError, Allocator};

/// Answers messages one at a time.
pub trait AnswersOne {
    ghost answering: { Self → Answering };

    /// Answers the message that has this number in its round, counted from 0, and returns the
    /// session after it. Appends the reply, and adds the lookups that the message moves to the
    /// balances; that of node n is at index n - 1. Lookups of a node without a balance are not
    /// counted.
    ///
    /// If memory is refused, the replies and the balances may hold a part of the answer.
    fn answer<A: Allocator>(
        &self,
        number: u32,
        session: Session,
        message: &[u8],
        replies: &mut Replies<A>,
        balances: &mut [i128],
    ) -> Result<Session, AllocError>
        requires message { IsMessage message.now }
        requires within { AreWithin (2 ^ 123) balances.old }
        ensures { IfOk result (λ after. AppendsAnswer (answering self.now) session message.now after
            (output replies.old.items balances.old) (output replies.new.items balances.new)) };
}
