//! How requests are shared out.

ghost use Rattle.std.specs.Prelude.{◌≡◌, ◌≤◌};
ghost use Rattle.draw_board.specs.declared.limits.TheConstants.{MAX_BATCH, MAX_WORKERS};

use draw_board::limits::{MAX_BATCH, MAX_WORKERS};
use draw_board::{Gate, Work};

/// How many workers answer, and how many requests a batch has.
#[derive(Clone, Copy)]
pub struct Plan {
    workers: u32,
    batch: u32,
    ghost some_workers: { 1 ≤ workers },
    ghost few_workers: { workers ≤ MAX_WORKERS },
    ghost some_jobs: { 1 ≤ batch },
    ghost few_jobs: { batch ≤ MAX_BATCH },
}

impl Plan {
    ghost use Rattle.reply_rounds.specs.Plans.{IsPlan};

    /// A plan of 1 to 64 workers and of batches of 1 to 256 requests; `None` for any other numbers.
    pub fn new(workers: u32, batch: u32) -> Option<Plan>
        ensures { IsPlan workers batch result }
    {
        if workers < 1 || MAX_WORKERS < workers || batch < 1 || MAX_BATCH < batch {
            return None;
        }
        Some(Plan { workers, batch })
    }

    /// How many workers answer at most, from 1 to 64.
    pub fn workers(&self) -> u32
        ensures value { result ≡ self.now.workers }
        ensures some { 1 ≤ result }
        ensures few { result ≤ MAX_WORKERS }
    {
        self.workers
    }

    /// How many requests a batch has, from 1 to 256; the last of a round may have fewer.
    pub fn batch(&self) -> u32
        ensures value { result ≡ self.now.batch }
        ensures some { 1 ≤ result }
        ensures few { result ≤ MAX_BATCH }
    {
        self.batch
    }
}

/// Passes the gate if a batch begins with the request with this number.
pub fn pass_batch<G: Gate>(gate: &G, plan: Plan, number: u32) {
    let batch = plan.batch();
    if number % batch == 0 {
        gate.pass(Work::Batch, number / batch);
    }
}
