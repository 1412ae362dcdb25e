//! Guesses about rows.

/// Where the row of a directory's child may be among all rows, found by reading ahead. No answer
/// depends on a guess: a right one saves steps.
#[derive(Clone, Copy)]
pub enum Guess {
    /// Nothing is known.
    Unknown,
    /// No row was noted for the name, so no other guess finds it.
    Nowhere,
    /// At this place.
    At(usize),
}
