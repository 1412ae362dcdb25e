//! Runs that workers answer, with each request for memory refused in turn.

ghost use Rattle.std.specs.Prelude.{◌≡◌, true};

use node_reader::Table;
use serve_core::Stop;
use serve_test_kit::runs::{by, long_table, ran, run_over};
use stack_core::FreePass;
use std::alloc::Global;
use std::test::Fail;
use std::thread::Threads;
use test_kit::long::{Long, stream};
use test_kit::memories::{Memories, refuse_in_turn};
use test_kit::refusing::Refusing;

/// Whether a run of a stream over a table reports that memory was refused, after some of the first
/// replies, and calls no device after it; or otherwise writes all replies.
fn is_told_over<'a, R: Threads + Sync>(
    rt: &R,
    memories: &'a Memories,
    table: &Table<&'a Refusing<Global>>,
    plan: (u32, u32),
    streams: (&[u8], &[u8]),
) -> bool
    requires { table.now.whole ≡ true }
{
    let (global, alloc) = (memories.global, &memories.refusing);
    let Some(seen) = run_over(rt, global, alloc, table, streams, by(plan), Some(alloc)) else {
        return false;
    };
    if alloc.refused() {
        seen.end == Err(Stop::Memory) && seen.put.is_some() && seen.late == 0
    } else {
        seen.end.is_ok() && seen.put == Some(streams.1.len())
    }
}

/// The same, over a table that is made for it.
fn is_told<R: Threads + Sync>(
    rt: &R,
    memories: &Memories,
    plan: (u32, u32),
    streams: (&[u8], &[u8]),
) -> bool {
    let Some(table) = long_table(rt, &memories.plain) else {
        return false;
    };
    let is_told = is_told_over(rt, memories, &table, plan, streams);
    drop(table);
    is_told
}

/// The replies that one worker gives to a stream.
fn replies_to<R: Threads + Sync>(rt: &R, global: Global, stream: &[u8]) -> Option<Vec<u8>> {
    let table = long_table(rt, global)?;
    let run = by((1, 16));
    let whole = ran(rt, global, global, &table, stream, run, None, &FreePass);
    drop(table);
    Some(whole?.put)
}

/// One worker needs memory for the balances, the replies and the buffer; several need more, for
/// jobs, pieces and a board.
#[test]
fn runs_by_workers_are_refused(rt: HostRuntime) -> Result<(), Fail> {
    let global = rt.alloc();
    let stream = stream(global, Long::All, 17)?;
    let replies = replies_to(&rt, global, &stream).ok_or("a run")?;
    let all = Long::All.reply().saturating_mul(17).saturating_add(80);
    assert!(rt; replies.len() as u64 == all);
    let streams = (stream.as_slice(), replies.as_slice());
    for (plan, least, most) in [((1, 1), 3, 3), ((2, 3), 16, 999), ((5, 1), 16, 999)] {
        let requests = refuse_in_turn(global, |memories| is_told(&rt, memories, plan, streams));
        assert!(rt;
            requests.is_ok_and(|it| least <= it && it <= most),
            "{plan:?}: {requests:?}"
        );
    }
    Ok(())
}
