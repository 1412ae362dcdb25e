//! Streams whose rounds are worth workers: for every plan they have the results of one worker.

ghost use Rattle.std.specs.Prelude.{◌≡◌, true};

use node_reader::Table;
use serve_test_kit::runs::{Finished, by, long_table, ran};
use stack_core::{FreePass, Gate, Work};
use std::alloc::Global;
use std::sync::atomic::{AtomicU64, Ordering};
use std::test::Fail;
use std::thread::Threads;
use test_kit::long::{Long, stream};

/// How many requests a stream has: enough for the first round, which has INIT and is answered by
/// one thread, and one round by workers.
const COUNT: u32 = 270;

/// Holds the first batch of the second round until its second batch has come, for at most 2^30
/// turns. It counts the rounds, and the second batches of all of them.
#[derive(Drop)]
struct Holding {
    rounds: AtomicU64,
    seconds: AtomicU64,
    given_up: AtomicU64,
}

impl Gate for Holding {
    fn pass(&self, work: Work, number: u32) {
        if work == Work::Batch && number == 1 {
            self.seconds.fetch_add(1, Ordering::SeqCst);
        } else if work == Work::Batch && number == 0 {
            let before = self.rounds.fetch_add(1, Ordering::SeqCst);
            if before == 1 {
                self.hold();
            }
        }
    }
}

impl Holding {
    fn new() -> Self {
        Self {
            rounds: AtomicU64::new(0),
            seconds: AtomicU64::new(0),
            given_up: AtomicU64::new(0),
        }
    }

    fn hold(&self) {
        for _ in 0..1u32 << 30 {
            if self.seconds.load(Ordering::SeqCst) == 2 {
                return;
            }
        }
        self.given_up.store(1, Ordering::SeqCst);
    }
}

/// Whether all replies to 270 requests arrived.
fn is_whole(ran: &Finished<Global>, long: Long) -> bool {
    let all = long.reply().saturating_mul(270).saturating_add(80);
    ran.end() == Ok((271, u128::from(all))) && ran.put.len() as u64 == all
}

/// Whether two runs have the same result.
fn is_same(one: &Finished<Global>, other: &Finished<Global>) -> bool {
    one.end() == other.end() && one.put == other.put && one.balances() == other.balances()
}

/// Whether a stream of 270 requests has the same result with one worker and with this plan, with
/// this many writes and flushes by either.
fn is_right<R: Threads + Sync, G: Gate + Sync>(
    rt: &R,
    global: Global,
    table: &Table<Global>,
    long: Long,
    plan: (u32, u32),
    writes: (u64, u64),
    gate: &G,
) -> Option<bool>
    requires { table.now.whole ≡ true }
{
    let stream = stream(global, long, COUNT).ok()?;
    let alone = ran(
        rt,
        global,
        global,
        table,
        &stream,
        by((1, 16)),
        None,
        &FreePass,
    )?;
    let many = ran(rt, global, global, table, &stream, by(plan), None, gate)?;
    let are_right = is_whole(&alone, long) && is_same(&many, &alone);
    Some(are_right && (alone.writes, many.writes) == writes)
}

/// The first kind of long reply that five workers do not write as one does.
fn wrong_kind<R: Threads + Sync>(rt: &R, global: Global, table: &Table<Global>) -> Option<Long>
    requires { table.now.whole ≡ true }
{
    for (long, writes) in [(Long::Read, (34, 34)), (Long::Readdirplus, (32, 32))] {
        if is_right(rt, global, table, long, (5, 3), writes, &FreePass) != Some(true) {
            return Some(long);
        }
    }
    None
}

/// Rounds end with the reply with which 262,144 bytes are reached, and have one write and one flush
/// each.
#[test]
fn long_replies_by_any_plan(rt: HostRuntime) -> Result<(), Fail> {
    let table = long_table(&rt, rt.alloc()).ok_or("a table")?;
    let wrong = wrong_kind(&rt, rt.alloc(), &table);
    drop(table);
    assert!(rt; wrong.is_none(), "{wrong:?}");
    Ok(())
}

/// The first plan whose workers do not write long lists as one does, or do not meet.
fn wrong_plan<R: Threads + Sync>(
    rt: &R,
    global: Global,
    table: &Table<Global>,
) -> Option<(u32, u32)>
    requires { table.now.whole ≡ true }
{
    for plan in [(2, 1), (2, 3), (5, 1), (5, 3), (4, 16)] {
        let gate = Holding::new();
        let is_right = is_right(rt, global, table, Long::Readdir, plan, (34, 6), &gate);
        let is_given_up = gate.given_up.load(Ordering::SeqCst) != 0;
        if is_right != Some(true) || is_given_up {
            return Some(plan);
        }
    }
    None
}

#[test]
fn long_lists_by_workers(rt: HostRuntime) -> Result<(), Fail> {
    let table = long_table(&rt, rt.alloc()).ok_or("a table")?;
    let wrong = wrong_plan(&rt, rt.alloc(), &table);
    drop(table);
    assert_eq!(rt; wrong, None);
    Ok(())
}
