//! An answer, and the lookups that it moves: earlier bytes and moves are unchanged.

ghost use Rattle.std.specs.Prelude.{◌≡◌, true};

use super::jobs::{Job, jobs_of};
use super::tables::sample_table;
use fuse_answer::{Served, answer, moves};
use fuse_wire::Replies;
use node_table::Table;
use reply_model::Move;
use std::alloc::{Allocator, Global};
use std::thread::Threads;
use test_kit::memories::Memories;
use test_kit::refusing::Refusing;
use test_kit::script::lookups;

/// Bytes before an answer.
const FRONT: [u8; 5] = [1, 2, 3, 4, 5];

/// A move before others.
const FIRST: Move = Move { node: 7, amount: 9 };

/// Whether a call succeeded, and how much it appended.
pub type Left = (bool, usize);

/// The same, over the table of the sample image.
pub fn appended<R: Threads + Sync>(
    rt: &R,
    memories: &Memories,
    index: usize,
    moves: bool,
) -> Option<Left> {
    let table = sample_table(rt, &memories.plain)?;
    let left = appended_over(memories, &table, index, moves);
    drop(table);
    left
}

/// An answer after the front; none if the front is refused, or changed.
fn answered<A: Allocator>(alloc: A, table: &Table<A>, job: &Job<'_>) -> Option<Left>
    requires { table.now.whole ≡ true }
{
    let mut out = Replies::new(alloc);
    out.append(&FRONT).ok()?;
    let told = answer(Served::held(table), job.0, &job.1, &mut out).is_ok();
    let appended = out.len().checked_sub(FRONT.len())?;
    out.as_slice()
        .starts_with(&FRONT)
        .then_some((told, appended))
}

/// The lookups that a job moves, after the first move; none if that is refused, or changed.
fn moved<A: Allocator>(alloc: A, table: &Table<A>, job: &Job<'_>) -> Option<Left> {
    let mut out = Vec::new(alloc);
    out.push(FIRST).ok()?;
    let told = moves(table, job.0, &job.1, &mut out).is_ok();
    let appended = out.len().checked_sub(1)?;
    out.starts_with(&[FIRST]).then_some((told, appended))
}

/// The same for the request of the lookups with this index, over a table.
fn appended_over<'a>(
    memories: &'a Memories,
    table: &Table<&'a Refusing<Global>>,
    index: usize,
    moves: bool,
) -> Option<Left>
    requires { table.now.whole ≡ true }
{
    let stream = lookups(memories.global).ok()?;
    let jobs = jobs_of(memories.global, &stream).ok()?;
    let job = jobs.get(index)?;
    if moves {
        moved(&memories.refusing, table, job)
    } else {
        answered(&memories.refusing, table, job)
    }
}
