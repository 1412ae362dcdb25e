//! A round: the decisions before it is answered, its batches, and the pieces put together.
//!
//! [`Plan`] says how many workers answer at most, and how many requests a batch has.
//! [`worth_workers`] says how many of the first messages of a stream workers should answer, from
//! the expected length of their replies. [`LookupsAhead`] reads ahead what the LOOKUPs of a round
//! will read. No reply depends on any of these: they decide which thread answers, and how soon.
//!
//! A job is a request, with the session before it. Batch k holds the jobs from k times the size on
//! ([`batch`]). The answer to a batch is a [`Piece`], and pieces come in any order. They are sorted
//! by number and joined to one [`Rounded`] with its moves summed ([`in_order`], [`sums`]), or
//! appended to a loop's bytes and balances ([`RoundPieces`]).
//!
//! The definitions say what requests are answered and what they move (`reply_model`). The crate
//! does not know what answers a request, so it is proved beside `fuse_answer`.
#![tactic(auto)]

mod ahead;
mod batches;
mod by_node;
mod gathered;
mod load;
mod pieces;
mod plan;

pub use ahead::LookupsAhead;
pub use batches::{batch, count_batches};
pub use by_node::sums;
pub use gathered::{Gathered, RoundPieces};
pub use load::worth_workers;
pub use pieces::{Piece, Rounded, in_order};
pub use plan::{Plan, pass_batch};
