//! How often a list of work is cut in two.

ghost use Rattle.std.specs.Prelude.{◌≡◌, ◌≤◌, ◌<◌, ◌-◌, ◌^◌};
ghost use Rattle.draw_board.specs.declared.limits.TheConstants.{MAX_FORKS};

use crate::limits::MAX_FORKS;
use std::thread::{Threads, available_parallelism};

/// How often a list is cut into halves that are worked on at the same time: often enough to give
/// each processor a part, at least once, and at most four times. Starting a thread takes about as
/// long as the work on a small layer, so more parts than processors only cost time and memory.
pub fn forks<R: Threads>(rt: &R) -> u32
    ensures { (1 ≤ result) × (result ≤ MAX_FORKS) }
{
    match available_parallelism(rt) {
        Ok(count) => forks_for(count.get()),
        Err(_) => 1,
    }
}

/// The same for a list of this many items. For one or two the processors are not counted.
pub fn forks_of<R: Threads>(rt: &R, items: usize) -> u32
    ensures range { (1 ≤ result) × (result ≤ MAX_FORKS) }
    ensures two { items ≤ 2 → result ≡ 1 }
{
    if items <= 2 { 1 } else { forks(rt) }
}

// How often a list is cut for this many processors: each gets a part, unless that is too often, and
// once less would not be enough.
fn forks_for(processors: usize) -> u32
    ensures range { (1 ≤ result) × (result ≤ MAX_FORKS) }
    ensures enough { result < MAX_FORKS → processors ≤ 2 ^ result }
    ensures least { 1 < result → 2 ^ (result - 1) < processors }
{
    match processors {
        0..=2 => 1,
        3..=4 => 2,
        5..=8 => 3,
        _ => MAX_FORKS,
    }
}
