//! The rule of the word, and the steps that keep it. `specs/Views.antt` says what each of them is.

use crate::view::View;
use atomic_table::{Join, Play, Split, TableRule};

// The rule that holds between any two steps. It depends on the board's total and misses.
pub(crate) struct Drawing;

impl TableRule<(), View, (u32, u32)> for Drawing {
    ghost use Rattle.draw_board.specs.Views.{IsSoundBoard, first_view};

    ghost holds = { IsSoundBoard };

    ghost first = { first_view };
}

// A draw: the word goes up by one.
pub(crate) struct Draw;

impl Play<(), View> for Draw {
    ghost use Rattle.draw_board.specs.Views.{drew};

    ghost then = { drew };
}

// An announcement. How a view is cut may depend on the view alone, so the number of misses that a
// split moves goes into the view first.
pub(crate) struct Announce;

impl Play<(), View> for Announce {
    ghost use Rattle.draw_board.specs.Views.{announced};

    ghost then = { announced };
}

// A look: a step that changes nothing, and gives what the rule says about the hand's view.
pub(crate) struct Look;

impl Play<(), View> for Look {
    ghost use Rattle.draw_board.specs.Views.{looked};

    ghost then = { looked };
}

// A split: the announced misses go to a new view.
pub(crate) struct Part;

impl Split<View> for Part {
    ghost use Rattle.draw_board.specs.Views.{giver_view, given_view};

    ghost left = { giver_view };

    ghost right = { given_view };
}

// A rejoin: one view with what both views have.
pub(crate) struct Rejoin;

impl Join<View> for Rejoin {
    ghost use Rattle.draw_board.specs.Views.{joined_view, spent_view};

    ghost both = { joined_view };

    ghost spent = { spent_view };
}
