//! The rounds of a serving loop.

ghost use Rattle.std.specs.Prelude.{◌≡◌, ◌≤◌, ◌^◌, length, IfOk, IfSome};
ghost use Rattle.serve_loop.specs.declared.limits.TheConstants.{MAX_ROUND_MESSAGES};
ghost use Rattle.reply_model.specs.Balances.{AreWithin};
ghost use Rattle.serve_loop.specs.Rounds.{output, AppendsAnswer};
ghost use Rattle.reply_rounds.specs.Answers.{answering_from};
ghost use Rattle.fuse_answer.specs.Puts.{sourced_by};
ghost use Rattle.reply_pool.specs.Pools.{SpreadsRounds};

use devices::Contents;
use draw_board::Gate;
use fuse_answer::{Served, after, answer_and_move};
use fuse_wire::{Replies, Request};
use reply_model::Session;
use reply_rounds::{Gathered, LookupsAhead, Plan, pass_batch, worth_workers};
use serve_loop::{AnswersOne, AnswersRounds, RoundEnd, walk};
use std::alloc::{AllocError, Allocator};

/// Answers requests over a table and the files of its layers, by a plan. A gate is passed before
/// the first request of each batch.
///
/// A round that is worth workers is answered by them, as [`spread_out`](crate::spread_out) does it;
/// any other on the caller's thread.
#[derive(Drop)]
pub struct Pool<'a, A: Allocator, D, G: Gate, F> {
    served: Served<'a, A, D>,
    first: Session,
    plan: Plan,
    gate: &'a G,
    // Answers this many of the first messages of a stream, by workers.
    workers: F,
    // The number of first nodes for which balances are kept.
    counted: u64,
}

impl<'a, A: Allocator, D: Contents, G: Gate, F> Pool<'a, A, D, G, F> {
    /// Answers over this table and these files, by this plan, with these workers. Streams begin in
    /// the session `first`. Balances are kept for this many of the first nodes.
    pub fn new(
        served: Served<'a, A, D>,
        first: Session,
        plan: Plan,
        gate: &'a G,
        workers: F,
        counted: u64,
    ) -> Self
        ensures table { result.served.table.now ≡ served.entry.table.now }
        ensures files { result.served.files.now ≡ served.entry.files.now }
        ensures first { result.first ≡ first }
        ensures plan { result.plan ≡ plan }
        ensures workers { result.workers ≡ workers }
        ensures counted { result.counted ≡ counted }
    {
        Pool {
            served,
            first,
            plan,
            gate,
            workers,
            counted,
        }
    }

    // How many of the first messages of a stream workers must answer; none if the plan has one
    // worker, no session has begun, or the round is not worth it.
    fn worth(&self, stream: &[u8], session: Session) -> Option<usize>
        ensures { IfSome result (λ n. (1 ≤ n) × (n ≤ MAX_ROUND_MESSAGES)) }
    {
        let begun = matches!(
            session,
            Session::Ready { .. } | Session::LastingReady { .. }
        );
        if self.plan.workers() == 1 || !begun {
            return None;
        }
        worth_workers(self.served.table, stream)
    }
}

// Answers the messages of one round on the caller's thread, with what was read ahead for them.
#[derive(Drop)]
struct CallersThread<'r, A: Allocator, D, G: Gate> {
    served: Served<'r, A, D>,
    first: Session,
    plan: Plan,
    gate: &'r G,
    ahead: LookupsAhead,
}

// One message, as `walk` requires it.
impl<'r, A: Allocator, D: Contents, G: Gate> AnswersOne for CallersThread<'r, A, D, G> {
    ghost answering = { λ round. answering_from round.first (sourced_by D.source round.served) };

    fn answer<B: Allocator>(
        &self,
        number: u32,
        session: Session,
        message: &[u8],
        replies: &mut Replies<B>,
        balances: &mut [i128],
    ) -> Result<Session, AllocError> {
        pass_batch(self.gate, self.plan, number);
        let request = Request::read(message);
        let guess = self.ahead.guess(number);
        answer_and_move(self.served, session, &request, guess, replies, balances)?;
        Ok(after(session, &request))
    }
}

impl<
    'a,
    A: Allocator,
    D: Contents,
    G: Gate,
    P: Gathered,
    F: Fn(&[u8], Session, usize) -> Result<P, AllocError>,
> AnswersRounds for Pool<'a, A, D, G, F> {
    ghost answering = { λ pool. answering_from pool.first (sourced_by D.source pool.served) };

    ghost nodes = { λ pool. pool.counted };

    ghost ready = { λ pool. SpreadsRounds F.Fn pool.workers (λ p. P.whole p)
        (λ p session stream. P.answers p
        (answering_from pool.first (sourced_by D.source pool.served)) session stream) };

    fn first(&self) -> Session {
        self.first
    }

    fn nodes(&self) -> u64 {
        self.counted
    }

    fn answer_round<B: Allocator>(
        &self,
        stream: &[u8],
        session: Session,
        replies: &mut Replies<B>,
        balances: &mut [i128],
    ) -> Result<RoundEnd, AllocError> {
        if let Some(messages) = self.worth(stream, session) {
            let gathered = (self.workers)(stream, session, messages)?;
            return gathered.append(replies, balances);
        }
        let mut ahead = LookupsAhead::new();
        ahead.read(self.served.table, stream, balances);
        let answers = CallersThread {
            served: self.served,
            first: self.first,
            plan: self.plan,
            gate: self.gate,
            ahead,
        };
        walk(&answers, stream, session, replies, balances)
    }
}
