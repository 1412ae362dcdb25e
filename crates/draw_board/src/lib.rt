//! Numbers that threads draw from one shared word, each number once, and the gate that a worker
//! passes as it begins a piece of work.
//!
//! A [`Board`] has the numbers below a total. Threads share it by reference, and each draws through
//! a [`Hand`] of its own until nothing is left. It is promised that no number is drawn twice, and
//! none is left out. Which hand draws which number, and that a thread makes progress, is not.
//! `specs/Hands.antt` says what a call changes, `specs/Views.antt` the rule that holds between any
//! two steps, [`laws`] what follows for callers. A draw costs one `fetch_add`; no call takes a lock
//! or waits for another thread, and only [`Board::start`] takes memory.
//!
//! Checks, trees and batches of requests are shared out among threads. Each worker passes a
//! [`Gate`] with the kind and the number of the piece that it begins, so a test can hold one piece
//! until another has begun. [`FreePass`] holds nothing. [`forks`] says how often a list of layers
//! is cut into halves, from the number of processors. The crate uses only `atomic_table`.
#![tactic(auto)]

mod board;
pub mod fork_examples;
mod gate;
mod halving;
mod hand;
pub mod laws;
pub mod limits;
mod steps;
mod view;

pub use board::Board;
pub use gate::{FreePass, Gate, Work};
pub use halving::{forks, forks_of};
pub use hand::{Few, Hand};
