//! Requests answered over a table, in batches.
//!
//! [`Pool`] answers the rounds of a serving loop: on the caller's thread, message after message,
//! after reading ahead what its LOOKUPs will read, or by workers if replies are long (`spread`);
//! `reply_rounds` decides which. [`round`] answers requests that were read before, by a [`Plan`]:
//! workers draw batches from one `draw_board::Board`, and the pieces are put in order
//! (`reply_rounds`). [`work`] is one such worker, which callers' own threads may run.
//!
//! For every plan the results are the replies that `reply_model` defines, and the sums of its
//! moves, of which there is one list ([`laws`]). A pool appends to the loop's own buffer and adds
//! to its balances, so a message takes no memory of its own.
#![tactic(auto)]

mod jobs;
pub mod laws;
mod pool;
mod spread;
mod worker;
mod workers;

pub use fuse_answer::Served;
pub use pool::Pool;
pub use reply_rounds::{Gathered, Piece, Plan, RoundPieces, Rounded};
pub use spread::spread_out;
pub use worker::work;
pub use workers::round;
