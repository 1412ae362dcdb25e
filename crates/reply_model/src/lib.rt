//! What a FUSE server answers over a stack of layers: definitions, laws and worked examples. The
//! only code is the types of a session and of a move, and the sums of moves.
//!
//! `specs/` says which requests are refused and with which error, what the others are answered,
//! which lookups they give and take, and what the replies to an entire stream are, over the shown
//! paths of a stack (`stack_model`) and the structures of linux/fuse.h (`fuse_wire`).
//!
//! Balances count the lookups of each node that a client holds; that of node n is at index n - 1.
//! [`add_move`] adds one move to them, [`add_moves`] several. `specs/Balances` says what many moves
//! add up to, and has the bound that keeps each sum within 128 bits: a request moves at most 2^64
//! for each of its bytes.
#![tactic(auto)]

mod adding;
pub mod examples;
pub mod laws;
pub mod moves;
pub mod session;

pub use adding::{add_move, add_moves};
pub use moves::Move;
pub use session::{Agreement, Session};
