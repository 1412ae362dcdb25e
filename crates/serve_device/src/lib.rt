//! An open `/dev/fuse`: its two devices, and several readers of it over one table.
//!
//! [`MessageTap`] is a source over a reader that returns one complete message per read, and needs
//! room for it; [`ReplySpout`] is a sink over a writer that takes one complete reply per write.
//! They keep the promises of a source and a sink over any reader and writer of std, whatever sizes
//! the reads and the pulls have and however often a read is interrupted. Both detect that the
//! kernel has ended the connection, as after an unmount: the call fails, and the device then says
//! that it is gone, which it never says without a failure. A reply that no request waits for any
//! more is dropped.
//!
//! [`NotedReader`] and [`NotedWriter`] count calls and keep the result of the last one, so
//! contracts say that a push writes once, that a pull reads, and that only ENODEV ends a mount. No
//! contract can say that these two make the calls that they note; tests check it.
//!
//! Each reader has a [`Seat`]: a tap and a spout over the one descriptor. [`Seat::serve_all`]
//! begins with the reader of the first seat, which serves until INIT is answered. The others begin
//! in the session that it leaves: each in a thread of its own, by a `Serving::run` of its own over
//! the same table and files. The kernel gives each message to one read; no contract says so.
//! Readers share only what they borrow, and wait for one another only at the end. Each seat then
//! holds the result of its reader, and [`end_of_all`] returns the [`End`] that is reported for all
//! of them. [`laws`] say what that means.
#![tactic(auto)]

mod answer;
pub mod ends;
pub mod examples;
pub mod laws;
mod noted_reader;
mod noted_writer;
mod readers;
pub mod reply_examples;
mod seat;
mod sink;
mod source;
mod trouble;
pub mod unmount_laws;

pub use answer::Answer;
pub use ends::End;
pub use noted_reader::NotedReader;
pub use noted_writer::NotedWriter;
pub use readers::end_of_all;
pub use seat::{Seat, seats_over};
pub use sink::ReplySpout;
pub use source::MessageTap;
