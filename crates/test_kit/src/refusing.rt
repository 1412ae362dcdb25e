//! An allocator for tests that refuses one request for memory and counts all of them.
//!
//! Proved: each block that is handed out is from the inner allocator, `new` keeps its arguments,
//! requests are numbered from 1, and no count wraps. The count is in a word that threads share,
//! whose value no contract can state. That only the request with the given number is refused is
//! therefore tested, not proved.
//!
//! It relies on the inner allocator's contract and on std's atomic words. The proofs by hand are
//! those of `allocate` and `deallocate`, since they pass on the ownership of memory.
ghost use Rattle.std.specs.Prelude.{◌≡◌, ◌≤◌, IfSome, IsTrue, IsFalse, ◌↔◌};

use std::alloc::{AllocError, Allocator, Global};
use std::sync::atomic::{AtomicU64, Ordering};

/// An allocator that passes each request for memory on to an inner one, except for one, which it
/// refuses.
///
/// A block that grows or shrinks is a request for a new block: if it is refused, the old one is
/// unchanged. A `&Refusing<A>` is an allocator that is copied, and threads share it if they may
/// share `A`.
///
/// `memories::refuse_in_turn` makes a call with each of its requests refused in turn.
#[derive(Drop)]
pub struct Refusing<A> {
    inner: A,
    tally: Tally,
}

impl<A> Refusing<A> {
    /// Refuses the request with the number `refuse_at`, counted from 1 over all threads; 0 refuses
    /// none. All others reach `inner`.
    pub fn new(inner: A, refuse_at: u64) -> Self
        ensures inner { result.inner ≡ inner }
        ensures refuse_at { result.tally.refuse_at ≡ refuse_at }
    {
        Self {
            inner,
            tally: Tally::new(refuse_at),
        }
    }

    /// How many requests were made so far, including the refused one and those that failed in
    /// `inner`. The count stays at `u64::MAX` once it is there, and requests after that have no
    /// number and are never refused.
    pub fn requests(&self) -> u64 {
        self.tally.count()
    }

    /// Whether the request to be refused has been made.
    pub fn refused(&self) -> bool
        ensures never_at_zero { self.now.tally.refuse_at ≡ 0 → IsFalse result }
    {
        self.tally.is_past(self.requests())
    }
}

// Each request is made with `allocate`: the trait's `grow` and `shrink` allocate a new block with
// it.
unsafe impl<A: Allocator> Allocator for Refusing<A> {
    ghost dealloc_token = { λ refusing ty ptr. A.dealloc_token refusing.inner ty ptr };

    fn allocate(&self, size: usize, align: usize) -> Result<*mut u8, AllocError> {
        if self.tally.refuses_next() {
            return Err(AllocError);
        }
        self.inner.allocate(size, align)
    }

    unsafe fn deallocate(&self, ptr: *mut u8, size: usize, align: usize) {
        self.inner.deallocate(ptr, size, align);
    }
}

// The number of the request to refuse, and how many were made.
#[derive(Drop)]
struct Tally {
    refuse_at: u64,
    requests: AtomicU64,
}

impl Tally {
    fn new(refuse_at: u64) -> Self
        ensures { result.refuse_at ≡ refuse_at }
    {
        Self {
            refuse_at,
            requests: AtomicU64::new(0),
        }
    }

    fn count(&self) -> u64 {
        self.requests.load(Ordering::SeqCst)
    }

    // Counts a request and returns its number; none if the count is full.
    fn number_next(&self) -> Option<u64>
        ensures from_one { IfSome result (λ number. 1 ≤ number) }
    {
        let before = self
            .requests
            .fetch_update(Ordering::SeqCst, Ordering::SeqCst, |count| {
                count.checked_add(1)
            });
        match before {
            Ok(count) => Some(count + 1),
            Err(_) => None,
        }
    }

    // Counts a request, and returns whether it is the one to refuse.
    fn refuses_next(&self) -> bool
        ensures never_at_zero { self.now.refuse_at ≡ 0 → IsFalse result }
    {
        match self.number_next() {
            Some(number) => self.is_refused(number),
            None => false,
        }
    }

    fn is_refused(&self, number: u64) -> bool
        ensures { IsTrue result ↔ (number ≡ self.now.refuse_at) }
    {
        number == self.refuse_at
    }

    // Whether the request to refuse is among the first `count`.
    fn is_past(&self, count: u64) -> bool
        ensures { IsTrue result ↔ (1 ≤ self.now.refuse_at) × (self.now.refuse_at ≤ count) }
    {
        self.refuse_at != 0 && self.refuse_at <= count
    }
}
