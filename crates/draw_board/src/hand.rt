//! The right to draw.

use crate::view::View;
use atomic_table::Seat;

/// The right to draw from one board, for one thread at a time: its draws so far, in proofs alone,
/// and the number of misses left.
#[derive(Drop)]
pub struct Hand {
    pub(crate) seat: Seat<(), View>,
    pub(crate) misses: u32,
}

/// A hand was to give no misses, or has too few to give this many and keep one.
#[derive(Clone, Copy, Debug, PartialEq, Eq)]
pub struct Few;
