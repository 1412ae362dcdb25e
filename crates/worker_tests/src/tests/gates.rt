//! A batch is held until others have come, and workers are counted.

ghost use Rattle.std.specs.Prelude.{◌≡◌, true};

use super::jobs::{Job, jobs_of};
use super::tables::sample_table;
use super::threads::pieces_of;
use node_table::Table;
use reply_model::Session;
use reply_pool::{Plan, Served, round, spread_out};
use stack_core::Work;
use std::alloc::{AllocError, Global};
use std::test::Fail;
use std::thread::Threads;
use test_kit::gates::{Crowd, FEW, Holding, MANY, Noting};
use test_kit::memories::Memories;
use test_kit::script::script;

/// Whether a batch was given up in a round of this many jobs, over a table.
fn is_given_up_over<R: Threads + Sync>(
    rt: &R,
    alloc: Global,
    table: &Table<Global>,
    jobs: usize,
    plan: Plan,
    gate: &Holding,
) -> Option<bool>
    requires { table.now.whole ≡ true }
{
    let stream = script(alloc).ok()?;
    let requests = jobs_of(alloc, &stream).ok()?;
    is_given_up_in(rt, alloc, table, requests.get(..jobs)?, plan, gate)
}

/// The same for these jobs.
fn is_given_up_in<R: Threads + Sync>(
    rt: &R,
    alloc: Global,
    table: &Table<Global>,
    jobs: &[Job<'_>],
    plan: Plan,
    gate: &Holding,
) -> Option<bool>
    requires { table.now.whole ≡ true }
{
    if 256 < jobs.len() {
        return None;
    }
    let rounded = round(rt, alloc, Served::held(table), jobs, plan, gate).ok()?;
    (0 < rounded.bytes.len()).then_some(gate.is_given_up())
}

/// The same in batches of one by two workers, over the table of the sample image.
fn is_given_up<R: Threads + Sync>(
    rt: &R,
    alloc: Global,
    jobs: usize,
    gate: &Holding,
) -> Option<bool> {
    let plan = Plan::new(2, 1)?;
    let table = sample_table(rt, alloc)?;
    let given_up = is_given_up_over(rt, alloc, &table, jobs, plan, gate);
    drop(table);
    given_up
}

#[test]
fn the_first_batch_waits_for_the_second(rt: HostRuntime) {
    let gate = Holding::new(Work::Batch, 0b1, 0b10, MANY);
    assert_eq!(rt; is_given_up(&rt, rt.alloc(), 2, &gate), Some(false));
}

#[test]
fn one_worker_answers_all_other_batches(rt: HostRuntime) {
    let gate = Holding::new(Work::Batch, 0b1, 0b1110, MANY);
    assert_eq!(rt; is_given_up(&rt, rt.alloc(), 4, &gate), Some(false));
}

#[test]
fn no_third_worker_is_there(rt: HostRuntime) {
    let gate = Holding::new(Work::Batch, 0b11, 0b100, FEW);
    assert_eq!(rt; is_given_up(&rt, rt.alloc(), 3, &gate), Some(true));
}

/// A worker takes memory only for its answers, and passes the gate of its only batch before.
#[test]
fn a_batch_is_answered_behind_its_gate(rt: HostRuntime) {
    let memories = Memories::new(rt.alloc(), 0);
    let gate = Noting::new(&memories.refusing);
    let pieces = pieces_of(&rt, &memories, 3, &gate);
    assert!(rt; matches!(pieces, Some(Ok((1, 2)))));
    assert!(rt; gate.before() == 0 && 0 < memories.refusing.requests());
}

/// Answers 24 requests of a stream over a table, by a plan; false if memory is refused.
fn spreads<R: Threads + Sync>(
    rt: &R,
    alloc: Global,
    table: &Table<Global>,
    plan: Plan,
    gate: &Crowd,
) -> Result<bool, AllocError>
    requires { table.now.whole ≡ true }
{
    let mut stream = script(alloc)?;
    let again = script(alloc)?;
    stream.extend_from_slice(&again)?;
    drop(again);
    if 4096 < stream.len() {
        return Ok(false);
    }
    let served = Served::held(table);
    let spread = spread_out(rt, alloc, served, &stream, Session::Fresh, 24, plan, gate);
    Ok(spread.is_ok())
}

/// Of 24 requests of a stream, as many are under way at a time as the plan has workers.
#[test]
fn sixteen_workers_answer_a_stream(rt: HostRuntime) -> Result<(), Fail> {
    let global = rt.alloc();
    let plan = Plan::new(16, 1).ok_or("a plan")?;
    let table = sample_table(&rt, global).ok_or("a table")?;
    let gate = Crowd::new(Work::Batch, 16);
    let spread = spreads(&rt, global, &table, plan, &gate);
    drop(table);
    assert!(rt; spread? && gate.seen() == (24, 16));
    Ok(())
}
