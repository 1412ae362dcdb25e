//! The lookups that a request gives and takes, as a list.
//!
//! The traversal is that of `balances`, which adds in place and cannot fail. Here each move may be
//! refused memory: a traversal shared by both would bring that outcome, and its promise, into the
//! path of every reply.

ghost use Rattle.std.specs.Prelude.{◌≤◌, ◌<◌, ◌+◌, ◌^◌, ◌∷◌, [], length, unsigned_abs};
ghost use Rattle.fuse_wire.specs.Reads.{asked_of, items_of};
ghost use Rattle.fuse_answer.specs.Answers.{IsSized, answer_moves, taken_back};
ghost use Rattle.fuse_answer.specs.Listings.{IsRow, IsWhole, lines_answered, lines_given, row_given};
ghost use Rattle.fuse_answer.specs.Puts.{AreSmall, Puts, PutsMoves, Grows};

use crate::decide::decide;
use crate::listing::{Listing, fit};
use crate::outcome::Answer;
use crate::rows::line_at;
use fuse_wire::Request;
use fuse_wire::forget::{Forget, Forgets};
use node_reader::{Guess, Table};
use reply_model::{Move, Session};
use std::alloc::{AllocError, Allocator};

/// Appends the lookups that a request gives and takes, in order: one for the entry of a LOOKUP and
/// for each row of a READDIRPLUS except `.` and `..`, and those that FORGET and BATCH_FORGET take
/// back. Numbers that are not in use, and refused requests, change nothing.
///
/// `session` is the one before the request. `AllocError` only if the vector has no room for the
/// moves and cannot grow; it is then unchanged. No amount has more than 64 bits.
pub fn moves<A: Allocator, M: Allocator>(
    table: &Table<A>,
    session: Session,
    request: &Request<'_>,
    into: &mut Vec<Move, M>,
) -> Result<(), AllocError>
    ensures moves { PutsMoves table.now session (asked_of request.now) result into.old into.new }
    ensures small { AreSmall into.old.items → AreSmall into.new.items }
{
    let Ok(answer) = decide(table, session, request, Guess::Unknown) else {
        return Ok(());
    };
    let len = into.len();
    let grown = grow(table, &answer, into);
    if grown.is_err() {
        into.truncate(len);
    }
    grown
}

// Appends the lookups that an answer gives and takes, or some of them if memory is refused.
fn grow<A: Allocator, M: Allocator>(
    table: &Table<A>,
    answer: &Answer<'_, A>,
    into: &mut Vec<Move, M>,
) -> Result<(), AllocError>
    requires { IsSized table.now answer.now }
    ensures moves { Grows result into.old into.new (answer_moves table.now answer.now) }
    ensures small { AreSmall into.old.items → AreSmall into.new.items }
{
    match answer {
        Answer::Entry(attr) => put(into, attr.ino, 1),
        Answer::Rows(rows) if rows.with_entries => grow_rows(rows, into),
        Answer::Forgotten(forget) => put_taken(table, *forget, into),
        Answer::AllForgotten(items) => grow_taken(table, *items, into),
        _ => Ok(()),
    }
}

// Appends the lookups that the rows of a READDIRPLUS give.
fn grow_rows<A: Allocator, M: Allocator>(
    rows: &Listing<'_, A>,
    into: &mut Vec<Move, M>,
) -> Result<(), AllocError>
    requires { IsWhole rows.now }
    ensures moves { Grows result into.old into.new (lines_given (lines_answered rows.now)) }
    ensures small { AreSmall into.old.items → AreSmall into.new.items }
{
    let (until, _) = fit(rows);
    for index in rows.from..until {
        put_given(rows, index, into)?;
    }
    Ok(())
}

// Appends the lookup that a row gives to its node. The first two rows, `.` and `..`, give none.
fn put_given<A: Allocator, M: Allocator>(
    rows: &Listing<'_, A>,
    index: usize,
    into: &mut Vec<Move, M>,
) -> Result<(), AllocError>
    requires { IsRow rows.now index }
    ensures moves { Puts result into.old into.new (row_given rows.now index) }
    ensures small { AreSmall into.old.items → AreSmall into.new.items }
{
    let (number, _) = line_at(rows, index);
    let place = index as u64 + 1;
    if 2 < place {
        put(into, number, 1)
    } else {
        Ok(())
    }
}

// Appends the lookups taken back from a node, if the number is in use.
fn put_taken<A: Allocator, M: Allocator>(
    table: &Table<A>,
    forget: Forget,
    into: &mut Vec<Move, M>,
) -> Result<(), AllocError>
    ensures moves { Puts result into.old into.new (taken_back table.now (forget ∷ [])) }
    ensures small { AreSmall into.old.items → AreSmall into.new.items }
{
    if table.node(forget.node).is_some() {
        put(into, forget.node, -i128::from(forget.nlookup))
    } else {
        Ok(())
    }
}

// Appends the lookups that all items take back.
fn grow_taken<A: Allocator, M: Allocator>(
    table: &Table<A>,
    items: Forgets<'_>,
    into: &mut Vec<Move, M>,
) -> Result<(), AllocError>
    ensures moves { Grows result into.old into.new (taken_back table.now (items_of items.entry)) }
    ensures small { AreSmall into.old.items → AreSmall into.new.items }
{
    let mut rest = items;
    for _taken in 0..items.len() {
        let Some((forget, later)) = rest.split_first() else {
            return Ok(());
        };
        put_taken(table, forget, into)?;
        rest = later;
    }
    Ok(())
}

// Appends one move.
fn put<M: Allocator>(into: &mut Vec<Move, M>, node: u64, amount: i128) -> Result<(), AllocError>
    requires { unsigned_abs amount ≤ 2 ^ 64 }
    ensures moves { Puts result into.old into.new (record { node = node; amount = amount } ∷ []) }
    ensures small { AreSmall into.old.items → AreSmall into.new.items }
{
    into.push(Move { node, amount })?;
    Ok(())
}
