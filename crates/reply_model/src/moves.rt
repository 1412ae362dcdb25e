//! Lookups, which a client holds until it forgets them.

/// The change that a request makes to the number of lookups of a node that the client holds.
#[derive(Clone, Copy, PartialEq, Eq)]
pub struct Move {
    /// The node's number.
    pub node: u64,
    /// How many lookups it gives; below 0 if it takes some back.
    pub amount: i128,
}
