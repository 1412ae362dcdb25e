//! The result of a served stream.

use std::alloc::Allocator;

/// The result of a stream that was served to its end.
#[derive(Drop)]
pub struct Done<A: Allocator> {
    /// How many messages there were.
    pub messages: u64,
    /// How many bytes of replies were written.
    pub written: u128,
    /// How many lookups the client still holds of each node that is counted; that of node n is at
    /// index n - 1. It may be below 0.
    pub balances: Vec<i128, A>,
}
