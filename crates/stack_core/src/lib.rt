//! A list of layers, stacked: the tree of the full list.
//!
//! [`stack`], or [`stack_views`] for borrowed images, cuts the list in two, makes the trees of both
//! halves in two calls at the same time, and lays the upper on the lower. This continues down to
//! single layers, but after four cuts one call does the rest of its part alone: a thread for each
//! of many layers would cost more time and memory than it saves. If a worker cannot be started, the
//! caller does its work. The [`Gate`] is passed before each layer's tree is made. [`shown`] finds
//! the entry that a path shows. The crate uses `layer_tree` for trees, `draw_board` and
//! `std::thread::join` for workers.
#![tactic(auto)]

mod stacking;

pub use draw_board::{FreePass, Gate, Work};
pub use stacking::{shown, stack, stack_views};
