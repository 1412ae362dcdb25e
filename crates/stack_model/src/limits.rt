//! The limit of a stack: code, clauses and definitions use this one name.

/// The most layers of a stack. This project's.
pub const MAX_LAYERS: usize = 128;
