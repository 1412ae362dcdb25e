//! The limits of a round, each defined once: code, definitions, clauses and proofs name the same
//! constants. Both are this project's.

/// The most messages that one round answers.
pub const MAX_ROUND_MESSAGES: usize = 256;

/// This many bytes of replies end a round on one thread, which then has fewer than these and one
/// more reply: 256 KiB.
pub const ENOUGH_REPLIES: usize = 262_144;
