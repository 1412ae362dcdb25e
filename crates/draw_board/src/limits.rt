//! The limits by which work is shared out, each under the one name that code, clauses and
//! definitions use.

/// The most workers of a plan.
pub const MAX_WORKERS: u32 = 64;

/// The most requests of a batch.
pub const MAX_BATCH: u32 = 256;

/// How often at most a list is cut into halves that are worked on at the same time: 16 parts.
pub const MAX_FORKS: u32 = 4;
