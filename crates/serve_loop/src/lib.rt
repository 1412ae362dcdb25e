//! The serving loop: a stream of FUSE requests from a source to a sink, whatever answers them.
//!
//! [`run_until`] answers the complete messages in its buffer, in rounds ([`AnswersRounds`], or
//! [`AnswersOne`] message by message), and pushes and flushes each round's replies before the next
//! round. If no complete message is left it makes one pull. So a client that waits for a reply
//! before its next request is served. [`Until`] says whether a stream is served to its end or until
//! its session has begun. `IsRun` in `specs/Serving` gives the promise at each end; [`laws`] derive
//! from it what each end means, and [`StreamFault`] names those at which the stream was not served
//! to its end.
//!
//! The loop knows how messages are framed and that a session continues from request to request, but
//! no image and no node. It takes memory at once for the balances, one number of 128 bits a node,
//! and about 1.25 MiB for a round's replies, which grow only if workers' pieces need more; and as
//! messages come for a buffer, at most one message and two pulls, about 1.13 MiB.
#![tactic(auto)]

mod buffer;
pub mod done;
pub mod examples;
pub mod laws;
pub mod limits;
mod one_message;
mod one_round;
mod one_thread;
pub mod opening;
mod progress;
mod rounds_on;
mod running;
pub mod stream_fault;

pub use done::Done;
pub use one_message::AnswersOne;
pub use one_round::{AnswersRounds, RoundEnd};
pub use one_thread::walk;
pub use opening::{Begun, Opening, Until};
pub use running::run_until;
pub use stream_fault::StreamFault;
