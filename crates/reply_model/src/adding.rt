//! Lookups that are given and taken.

ghost use Rattle.std.specs.Prelude.{◌≤◌, ◌^◌, ◌∷◌, [], unsigned_abs};
ghost use Rattle.reply_model.specs.Balances.{AreWithin, IsMoved, weight};

use crate::Move;

/// Adds an amount to a node's balance. The number 0, or one without a balance, changes nothing.
///
/// It requires that neither a balance nor the amount is further from 0 than 2^125.
pub fn add_move(balances: &mut [i128], node: u64, amount: i128)
    requires within { AreWithin (2 ^ 125) balances.old }
    requires small { unsigned_abs amount ≤ 2 ^ 125 }
    ensures { IsMoved (record { node = node; amount = amount } ∷ []) balances.old balances.new }
{
    if node == 0 {
        return;
    }
    let place = (node - 1) as usize;
    if place < balances.len() {
        balances[place] += amount;
    }
}

/// Adds moves one after another.
///
/// It requires that no balance is further from 0 than 2^123, and that the moves have no more than
/// 2^112 lookups in all.
pub fn add_moves(balances: &mut [i128], moves: &[Move])
    requires within { AreWithin (2 ^ 123) balances.old }
    requires light { weight moves.now ≤ 2 ^ 112 }
    ensures { IsMoved moves.now balances.old balances.new }
{
    for m in moves {
        add_move(balances, m.node, m.amount);
    }
}
