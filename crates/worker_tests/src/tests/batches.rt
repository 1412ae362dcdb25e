//! Rounds of jobs by any plan: their replies, the sums of their moves, and the gates that they
//! pass.

ghost use Rattle.std.specs.Prelude.{◌≡◌, true};

use super::jobs::{Job, jobs_of};
use super::tables::sample_table;
use node_table::Table;
use reply_model::Move;
use reply_pool::{Plan, Rounded, Served, round};
use std::alloc::{AllocError, Allocator, Global};
use std::thread::Threads;
use test_kit::gates::Recording;
use test_kit::memories::Memories;
use test_kit::refusing::Refusing;
use test_kit::script::{lookups, script, script_replies};

const PLANS: [(u32, u32); 6] = [(1, 1), (2, 1), (5, 1), (1, 3), (2, 3), (5, 3)];

#[derive(Clone, Copy, PartialEq, Eq)]
pub enum Jobs {
    None,
    Script,
    Lookups,
}

/// The same, over the table of the sample image.
pub fn round_of<R: Threads + Sync>(
    rt: &R,
    memories: &Memories,
    jobs: Jobs,
    plan: (u32, u32),
) -> Option<Result<(bool, (u64, u64, u64)), AllocError>> {
    let plan = Plan::new(plan.0, plan.1)?;
    let table = sample_table(rt, &memories.plain)?;
    let rounded = round_over(rt, memories, &table, jobs, plan);
    drop(table);
    rounded
}

fn stream_of(alloc: Global, jobs: Jobs) -> Result<Vec<u8>, AllocError> {
    match jobs {
        Jobs::None => Ok(Vec::new(alloc)),
        Jobs::Script => script(alloc),
        Jobs::Lookups => lookups(alloc),
    }
}

/// The lookups that the script of lookups gives and takes: the first FORGET takes more from node 6
/// than it was given, and the second is too short to take any.
fn sums() -> [Move; 5] {
    [(1, 1), (2, 1), (3, 2), (5, 1), (6, -4)].map(|(node, amount)| Move { node, amount })
}

/// Whether a round has the replies to these jobs, and the sums of their moves. Only the length of
/// lookups is compared.
fn is_right<A: Allocator>(rounded: &Rounded<A>, jobs: Jobs, replies: &[u8]) -> bool {
    let bytes = rounded.bytes.as_slice();
    let moves = rounded.moves.as_slice();
    match jobs {
        Jobs::None => bytes.is_empty() && moves.is_empty(),
        Jobs::Script => bytes == replies && moves.is_empty(),
        Jobs::Lookups => bytes.len() == 1648 && moves == sums().as_slice(),
    }
}

/// Whether a round of jobs over a table has the right result, and the work that passes its gate.
fn round_over<'a, R: Threads + Sync>(
    rt: &R,
    memories: &'a Memories,
    table: &Table<&'a Refusing<Global>>,
    jobs: Jobs,
    plan: Plan,
) -> Option<Result<(bool, (u64, u64, u64)), AllocError>>
    requires { table.now.whole ≡ true }
{
    let stream = stream_of(memories.global, jobs).ok()?;
    let replies = script_replies(memories.global).ok()?;
    let requests = jobs_of(memories.global, &stream).ok()?;
    Some(round_to(rt, memories, table, (jobs, &requests, &replies), plan))
}

/// The same for these requests, with the script's replies.
fn round_to<'a, R: Threads + Sync>(
    rt: &R,
    memories: &'a Memories,
    table: &Table<&'a Refusing<Global>>,
    asked: (Jobs, &[Job<'_>], &[u8]),
    plan: Plan,
) -> Result<(bool, (u64, u64, u64)), AllocError>
    requires { table.now.whole ≡ true }
{
    let (jobs, requests, replies) = asked;
    let gate = Recording::new();
    let few = requests.len().min(256);
    let alloc = &memories.refusing;
    let served = Served::held(table);
    let rounded = round(rt, alloc, served, &requests[..few], plan, &gate)?;
    Ok((is_right(&rounded, jobs, replies), gate.seen()))
}

#[test]
fn rounds_by_any_plan(rt: HostRuntime) {
    for jobs in [Jobs::None, Jobs::Script, Jobs::Lookups] {
        for plan in PLANS {
            let batches = match (jobs, plan.1) {
                (Jobs::None, _) => 0,
                (Jobs::Script, 1) => 0x1111_1111_1111,
                (Jobs::Lookups, 1) => 0x11_1111_1111,
                _ => 0x1111,
            };
            let came_to = round_of(&rt, &Memories::new(rt.alloc(), 0), jobs, plan);
            let is_right = came_to == Some(Ok((true, (0, 0, batches))));
            assert!(rt; is_right, "{batches:x} by {}", plan.0);
        }
    }
}
