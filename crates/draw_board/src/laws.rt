//! What holds of the counter that a board is, and of the numbers among positions, by the
//! definitions alone.

ghost use Rattle.std.specs.Prelude.{◌≡◌, ◌+◌, ◌≤◌, ◌++◌, ◌∷◌, [], ℕ, List};
ghost use Rattle.std.specs.List.{range_with_len};
ghost use Rattle.draw_board.specs.Counter.{drawn_at, history};
ghost use Rattle.draw_board.specs.Positions.{Unites, numbers, times};

/// A counter begins with no draw, and after n draws the next one is at position n.
#[tactic(auto, using(crate::proofs::Numbers::one_more))]
pub fn draws_in_order()
    ensures none { (total : ℕ) → history total 0 ≡ [] }
    ensures next { (total n : ℕ) →
        history total (n + 1) ≡ history total n ++ drawn_at total n ∷ [] }
{}

/// After as many draws as there are numbers, each number was drawn, once.
#[tactic(auto, using(crate::proofs::Numbers::all_numbers))]
pub fn numbers_once()
    ensures { (total n : ℕ) → total ≤ n →
        numbers total (range_with_len 0 n) ≡ range_with_len 0 total }
{}

/// The numbers of two hands are those of the hand that they become.
pub fn numbers_of_both()
    ensures { (total number : ℕ) (mine others all : List ℕ) → Unites mine others all →
        times number (numbers total all)
        ≡ times number (numbers total mine) + times number (numbers total others) }
{}
