//! The limits of what is pulled from a source, each defined once: code reads the constants, and
//! definitions, clauses and proofs name the same ones. Both are this project's.

/// The most bytes of one pull from a source: 64 KiB.
pub const PULL_SIZE: usize = 65_536;

/// The most pulls of one stream, whose bytes are then counted in 64 bits, and of one file that is
/// read in full.
pub const MAX_TURNS: u64 = 1 << 40;
