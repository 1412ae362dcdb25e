//! Gates at which tests hold work, or count it.
//!
//! A gate is shared by the threads that pass it, so no contract can say what its counts are. The
//! tests look at them after all threads have ended.

use crate::refusing::Refusing;
use draw_board::{Gate, Work, forks};
use std::alloc::Global;
use std::sync::atomic::{AtomicU64, Ordering};
use std::thread::Threads;

/// Turns of a gate: more than any schedule takes, if there is another worker.
pub const MANY: u32 = 1 << 30;

/// Turns of a gate that will be given up.
pub const FEW: u32 = 1 << 20;

/// Counts how often each piece of work is begun: the piece with number k in digit k of a
/// hexadecimal number, those of 15 and more in the last one.
#[derive(Drop)]
pub struct Recording {
    checks: AtomicU64,
    trees: AtomicU64,
    batches: AtomicU64,
}

impl Gate for Recording {
    fn pass(&self, work: Work, number: u32) {
        let counter = match work {
            Work::Check => &self.checks,
            Work::Tree => &self.trees,
            Work::Batch => &self.batches,
        };
        counter.fetch_add(1 << (4 * number.min(15)), Ordering::SeqCst);
    }
}

impl Recording {
    /// No work has begun yet.
    pub fn new() -> Self {
        Self {
            checks: AtomicU64::new(0),
            trees: AtomicU64::new(0),
            batches: AtomicU64::new(0),
        }
    }

    /// The checks, the trees and the batches that were begun.
    pub fn seen(&self) -> (u64, u64, u64) {
        (
            self.checks.load(Ordering::SeqCst),
            self.trees.load(Ordering::SeqCst),
            self.batches.load(Ordering::SeqCst),
        )
    }
}

/// Holds some pieces of one kind of work until others have come, for at most this many turns. Piece
/// k has bit k; those from 64 on pass.
#[derive(Drop)]
pub struct Holding {
    work: Work,
    held: u64,
    awaited: u64,
    turns: u32,
    came: AtomicU64,
    given_up: AtomicU64,
}

impl Gate for Holding {
    fn pass(&self, work: Work, number: u32) {
        if work == self.work && number < 64 {
            let own = 1 << number;
            self.came.fetch_or(own, Ordering::SeqCst);
            if self.held & own != 0 {
                self.hold();
            }
        }
    }
}

impl Holding {
    /// Holds the pieces `held` of this work until all of `awaited` have come.
    pub fn new(work: Work, held: u64, awaited: u64, turns: u32) -> Self {
        Self {
            work,
            held,
            awaited,
            turns,
            came: AtomicU64::new(0),
            given_up: AtomicU64::new(0),
        }
    }

    /// Whether a piece was released before all that it awaited had come.
    pub fn is_given_up(&self) -> bool {
        self.given_up.load(Ordering::SeqCst) == 1
    }

    fn hold(&self) {
        for _ in 0..self.turns {
            if self.came.load(Ordering::SeqCst) & self.awaited == self.awaited {
                return;
            }
        }
        self.given_up.store(1, Ordering::SeqCst);
    }
}

/// How many parts of a long list of layers are processed at the same time.
pub fn parts_of_layers<R: Threads>(rt: &R) -> u64 {
    1 << forks(rt)
}

/// Counts the pieces of one kind of work that are under way: each is held until this many are, for
/// at most 2^30 turns, and then until one more is, for 2^18.
#[derive(Drop)]
pub struct Crowd {
    work: Work,
    parts: u64,
    inside: AtomicU64,
    most: AtomicU64,
    begun: AtomicU64,
}

impl Gate for Crowd {
    fn pass(&self, work: Work, _number: u32) {
        if work == self.work {
            self.begun.fetch_add(1, Ordering::SeqCst);
            let inside = self.inside.fetch_add(1, Ordering::SeqCst).saturating_add(1);
            self.most.fetch_max(inside, Ordering::SeqCst);
            self.hold(self.parts, MANY);
            self.hold(self.parts.saturating_add(1), 1 << 18);
            self.inside.fetch_sub(1, Ordering::SeqCst);
        }
    }
}

impl Crowd {
    /// No piece of this work is under way yet. This many parts should be at one time.
    pub fn new(work: Work, parts: u64) -> Self {
        Self {
            work,
            parts,
            inside: AtomicU64::new(0),
            most: AtomicU64::new(0),
            begun: AtomicU64::new(0),
        }
    }

    /// How many pieces were begun, and the most that were under way at one time.
    pub fn seen(&self) -> (u64, u64) {
        (
            self.begun.load(Ordering::SeqCst),
            self.most.load(Ordering::SeqCst),
        )
    }

    fn hold(&self, parts: u64, turns: u32) {
        for _ in 0..turns {
            if parts <= self.most.load(Ordering::SeqCst) {
                return;
            }
        }
    }
}

/// Notes how many requests for memory came before the last piece of work was begun.
#[derive(Drop)]
pub struct Noting<'a> {
    memory: &'a Refusing<Global>,
    before: AtomicU64,
}

impl Gate for Noting<'_> {
    fn pass(&self, _work: Work, _number: u32) {
        self.before.store(self.memory.requests(), Ordering::SeqCst);
    }
}

impl<'a> Noting<'a> {
    /// No work has begun yet.
    pub fn new(memory: &'a Refusing<Global>) -> Self {
        Self {
            memory,
            before: AtomicU64::new(u64::MAX),
        }
    }

    /// How many there were; the largest number if no work began.
    pub fn before(&self) -> u64 {
        self.before.load(Ordering::SeqCst)
    }
}
