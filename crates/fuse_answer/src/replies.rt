//! The reply to one request.

ghost use Rattle.fuse_wire.specs.Reads.{asked_of, op_said};
ghost use Rattle.reply_model.specs.Moves.{moves};
ghost use Rattle.reply_model.specs.Replies.{is_silent};
ghost use Rattle.fuse_answer.specs.Answers.{Decides};
ghost use Rattle.std.specs.Prelude.{◌≡◌, ◌^◌};
ghost use Rattle.reply_model.specs.Balances.{AreWithin};
ghost use Rattle.fuse_answer.specs.Puts.{AddsMoves, PutsReply, sourced_by};

use crate::balances::add_answer_moves;
use crate::decide::decide;
use crate::outcome::Answer;
use crate::rows::put_rows_and_move;
use crate::served::Served;
use crate::write::write;
use devices::Contents;
use fuse_wire::{Errno, Op, Replies, Request, opcode, put_error};
use node_reader::Guess;
use reply_model::Session;
use std::alloc::{AllocError, Allocator};

// A request, the session before it, and a guess of the row that it finds.
#[derive(Clone, Copy)]
struct InSession<'r, 'b> {
    session: Session,
    request: &'r Request<'b>,
    guess: Guess,
}

/// Appends the reply to a request: nothing for FORGET, BATCH_FORGET and INTERRUPT, otherwise a
/// header with the data of the answer, or with the error that refuses the request. Data in a file
/// are read into the reply, which is EIO if they cannot be read in full.
///
/// `session` is the one before the request; [`after`](crate::after) returns the next. `AllocError`
/// only if there is no room for the reply and memory is refused; nothing changes then.
pub fn answer<A: Allocator, D: Contents, O: Allocator>(
    served: Served<'_, A, D>,
    session: Session,
    request: &Request<'_>,
    out: &mut Replies<O>,
) -> Result<(), AllocError>
    ensures { PutsReply (sourced_by D.source served.entry) session (asked_of request.now) result
        out.old out.new }
{
    let decided = decide(served.table, session, request, Guess::Unknown);
    tell(served, session, request, &decided, out)
}

/// Appends the reply to a request, as [`answer`] does, and adds the lookups that the request gives
/// and takes to the balances of the nodes; the balance of node n is at index n - 1. It looks the
/// request up once.
///
/// A right guess of the row that a LOOKUP finds ([`Table::guess`]) makes it faster; no guess
/// changes the result.
///
/// `AllocError` only if there is no room for the reply and memory is refused; the replies and the
/// balances are then unchanged.
#[inline(always)]
pub fn answer_and_move<A: Allocator, D: Contents, O: Allocator>(
    served: Served<'_, A, D>,
    session: Session,
    request: &Request<'_>,
    guess: Guess,
    out: &mut Replies<O>,
    balances: &mut [i128],
) -> Result<(), AllocError>
    requires { AreWithin (2 ^ 123) balances.old }
    ensures reply { PutsReply (sourced_by D.source served.entry) session (asked_of request.now)
        result out.old out.new }
    ensures moves { AddsMoves (moves served.entry.table.now session (asked_of request.now)) result
        balances.old balances.new }
{
    let asked = InSession {
        session,
        request,
        guess,
    };
    match request.op {
        Op::Lookup { .. } => settle(served, asked, out, balances),
        Op::Getattr => settle(served, asked, out, balances),
        Op::Open { .. } => settle(served, asked, out, balances),
        Op::Read { .. } => settle(served, asked, out, balances),
        Op::Flush => settle(served, asked, out, balances),
        Op::Release => settle(served, asked, out, balances),
        Op::Forget { .. } => settle(served, asked, out, balances),
        Op::Readdirplus { .. } => settle(served, asked, out, balances),
        _ => settle(served, asked, out, balances),
    }
}

// The same, inlined at each call: the most frequent requests get code of their own, without the
// branches for other requests. With one shared copy, a million GETATTRs took 114 ms of processor
// time instead of 51, and a million LOOKUPs 245 instead of 205.
#[inline(always)]
fn settle<A: Allocator, D: Contents, O: Allocator>(
    served: Served<'_, A, D>,
    asked: InSession<'_, '_>,
    out: &mut Replies<O>,
    balances: &mut [i128],
) -> Result<(), AllocError>
    requires { AreWithin (2 ^ 123) balances.old }
    ensures reply { PutsReply (sourced_by D.source served.entry) asked.entry.session
        (asked_of asked.entry.request.now) result out.old out.new }
    ensures moves { AddsMoves
        (moves served.entry.table.now asked.entry.session (asked_of asked.entry.request.now)) result
        balances.old balances.new }
{
    let InSession {
        session,
        request,
        guess,
    } = asked;
    let decided = decide(served.table, session, request, guess);
    // adds the rows to the balances as they are appended; a request without a reply has no rows,
    // which no clause here says
    if let Ok(Answer::Rows(rows)) = &decided {
        if !is_silent(&request.op) {
            return put_rows_and_move(served.table, request.unique, rows, out, balances);
        }
    }
    tell(served, session, request, &decided, out)?;
    if let Ok(answer) = decided {
        add_answer_moves(served.table, &answer, balances);
    }
    Ok(())
}

// Appends the reply that carries out this decision.
#[inline(always)]
fn tell<A: Allocator, D: Contents, O: Allocator>(
    served: Served<'_, A, D>,
    session: Session,
    request: &Request<'_>,
    decided: &Result<Answer<'_, A>, Errno>,
    out: &mut Replies<O>,
) -> Result<(), AllocError>
    requires { Decides served.table.now session (asked_of request.now) decided.now }
    ensures { PutsReply (sourced_by D.source served.entry) session (asked_of request.now) result
        out.old out.new }
{
    if is_silent(&request.op) {
        return Ok(());
    }
    match decided {
        Ok(answer) => write(served, request.unique, answer, out),
        Err(errno) => put_error(out, request.unique, *errno),
    }
}

// Whether a request has no reply, whatever the decision.
#[inline(always)]
fn is_silent(op: &Op<'_>) -> bool
    ensures { result ≡ is_silent (op_said op.now) }
{
    matches!(
        op,
        Op::Forget { .. }
            | Op::BatchForget { .. }
            | Op::Interrupt
            | Op::Malformed {
                opcode: opcode::FORGET | opcode::BATCH_FORGET
            }
    )
}
