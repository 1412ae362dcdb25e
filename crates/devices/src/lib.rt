//! Where bytes come from and go to: streams that count their calls, and bytes by their place.
//!
//! - A [`Source`] gives bytes, a [`Sink`] takes bytes. Both show contracts their bytes, if these
//!   are known, and count their calls, ends and failures. A promise can thus say that a failure was
//!   the device's (`specs/Counting`, one function a call; a count stays at 2^64 - 1).
//! - [`Tap`] is a source over any reader of std, [`Spout`] a sink over any writer; [`hand_on`]
//!   pushes all of some bytes to a sink, and then flushes it.
//! - [`Clients`] give one client after another, and count them and their failures; [`Listening`]
//!   is those of a listener of std.
//! - [`limits`] has the maximum size of a pull, and the maximum number of pulls.
//! - [`Contents`] is what the bytes of an image are read from, a part at a time and by several at
//!   once: [`InMemory`] never fails, [`InFile`] reads a file. [`fill`] reads until a room is full,
//!   however short each read is.
//!
//! A contract sees bytes if they are known (`specs/Sources`). It sees none of a file, so nothing is
//! assumed about a file that changes. Of a file that is read under an fs-verity digest, it sees
//! which bytes the digest vouches for (`specs/Tree`, `File`, `Vouched`). These are the named ones
//! unless a read gives, instead of a block, another with the same digest (`specs/Read`). No call
//! takes memory beyond what the reader or writer takes. The crate uses std alone.
#![tactic(auto)]

mod algorithm;
mod clients;
mod contents;
pub mod counts;
pub mod examples;
pub mod failed;
mod filling;
mod in_file;
mod in_memory;
pub mod laws;
pub mod limits;
mod push;
mod sink;
mod source;

pub use algorithm::Algorithm;
pub use clients::{Clients, Listening};
pub use contents::{Contents, Unread};
pub use counts::{Accepts, LastPull, Pulls, Pushes};
pub use failed::Failed;
pub use filling::fill;
pub use in_file::InFile;
pub use in_memory::InMemory;
pub use push::hand_on;
pub use sink::{Sink, Spout};
pub use source::{Source, Tap};
