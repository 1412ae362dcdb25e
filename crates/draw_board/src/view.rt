//! What a hand knows, as data in proofs alone.

ghost use Rattle.std.specs.Prelude.{ℕ, List};

use std::marker::Model;

/// What a hand knows. No value of it is ever made.
pub(crate) struct View {
    /// The positions that it drew, ascending.
    pub ghost positions: { List ℕ },
    /// The misses that it has left.
    pub ghost left: { ℕ },
    /// The misses that it has left, and those that it has spent.
    pub ghost share: { ℕ },
    /// It knows that each position below this one was drawn.
    pub ghost seen: { ℕ },
    /// The board's total, since the facts of a step cannot read the board's own.
    pub ghost total: { ℕ },
    /// The board's misses.
    pub ghost misses: { ℕ },
    /// How many misses the next split moves.
    pub ghost asked: { ℕ },
}

impl Model for View {
    ghost use Rattle.std.specs.Borrow.{ftrue};

    ghost also_owns = { λ _. ftrue };
}
