//! One reply: the answer to a request, and the lookups that it gives and takes.
//!
//! [`answer`] appends the reply to a request, [`moves`] lists the lookups that it gives and takes,
//! [`answer_and_move`] does both with one look-up, and [`after`] returns the session after the
//! request. All follow `reply`, `moves` and `session_after` of `reply_model` exactly, for a table's
//! layers and the paths that they show.
//!
//! `decide` takes no memory: it finds the error that refuses a request, or its answer (`outcome`).
//! `write` and `balances` carry out a decision and make none; [`moves`] decides again, and lists
//! (`move_list`).
//!
//! A reply takes as many steps as it has bytes. Looking up a name takes more, by the logarithm of
//! its directory's size. A reply grows its vector at most once, by the size of the answer; if that
//! growth is refused, the vector is unchanged.
#![tactic(auto)]

mod balances;
mod decide;
mod listing;
mod lookup;
mod move_list;
mod names;
mod node;
mod outcome;
mod replies;
mod rows;
mod served;
mod sessions;
mod write;
mod xattrs;

pub use move_list::moves;
pub use replies::{answer, answer_and_move};
pub use reply_model::{Move, Session};
pub use served::Served;
pub use sessions::after;
