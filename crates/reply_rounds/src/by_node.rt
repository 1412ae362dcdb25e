//! Moves, summed by node.
//!
//! The moves are sorted by node, which makes those of one node adjacent, and summed from the front.
//! The steps depend on the number of moves (times its logarithm), not on that of nodes.

ghost use Rattle.std.specs.Prelude.{◌≡◌, ◌<◌, ◌+◌, ◌^◌, ◌+ℤ◌, ◌≤◌, unsigned_abs, IfOk, OnOk};
ghost use Rattle.std.specs.List.Sorted.{IsNonDecreasingBy};
ghost use Rattle.reply_model.specs.Balances.{weight};
ghost use Rattle.reply_rounds.specs.Sums.{AreSums, PutsSum};

use reply_model::Move;
use std::alloc::{AllocError, Allocator};

/// The sums of moves by node, in ascending order: each node once with its sum, and none whose sum
/// is 0. `AllocError` only if memory is refused.
pub fn sums<A: Allocator + Copy>(
    alloc: A,
    mut moves: Vec<Move, A>,
) -> Result<Vec<Move, A>, AllocError>
    requires { weight moves.items < 2 ^ 127 }
    ensures sums { IfOk result (λ sums. AreSums moves.items sums.items) }
    ensures light { IfOk result (λ sums. weight sums.items ≤ weight moves.items) }
{
    moves.sort_unstable_by_key(|m| m.node);
    sum_sorted(alloc, &moves)
}

// The sums of moves in ascending order of nodes.
fn sum_sorted<A: Allocator>(alloc: A, moves: &[Move]) -> Result<Vec<Move, A>, AllocError>
    requires sorted { IsNonDecreasingBy (λ m. m.node) moves.now }
    requires light { weight moves.now < 2 ^ 127 }
    ensures sums { IfOk result (λ sums. AreSums moves.now sums.items) }
    ensures light { IfOk result (λ sums. weight sums.items ≤ weight moves.now) }
{
    let mut sums = Vec::new(alloc);
    let mut sum = Move { node: 0, amount: 0 };
    for m in moves {
        if m.node != sum.node {
            put(&mut sums, sum)?;
            sum = Move {
                node: m.node,
                amount: 0,
            };
        }
        sum.amount = plus(sum.amount, m.amount);
    }
    put(&mut sums, sum)?;
    Ok(sums)
}

// Appends a sum, unless it is 0.
fn put<A: Allocator>(sums: &mut Vec<Move, A>, sum: Move) -> Result<(), AllocError>
    ensures { OnOk result (PutsSum sums.old.items sums.new.items sum) }
{
    if sum.amount != 0 {
        sums.push(sum)?;
    }
    Ok(())
}

// The sum of two amounts.
fn plus(a: i128, b: i128) -> i128
    requires { unsigned_abs a + unsigned_abs b < 2 ^ 127 }
    ensures { result ≡ a +ℤ b }
{
    a + b
}
