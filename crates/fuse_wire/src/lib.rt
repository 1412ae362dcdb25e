//! Messages of the FUSE kernel protocol, version 7.31 (linux/fuse.h), as bytes, in little-endian.
//!
//! [`frame`] cuts a stream into messages, and [`Request::read`] reads what a message asks for, for
//! every opcode. [`put_head`] and its like append one complete reply each to [`Replies`]. The reply
//! to READDIR is written row by row: [`put_data_head`], then [`put_dirent`] or [`put_direntplus`],
//! and its length last, with [`set_data_head`].
//!
//! Definitions in `specs/` restate the protocol; [`laws`] says that a stream is cut in one way,
//! [`examples`] what each opcode asks for. Framing and reading take no memory, and a few steps for
//! each byte; names are borrowed. A function that appends asks for memory at most once, to grow the
//! replies, and leaves them unchanged if that is refused; with enough room nothing fails. Only
//! [`put_read`] reads: the data of a reply, from an image's bytes. The crate uses `stack_model`,
//! `devices`, `byteorder`, `memchr`.
#![tactic(auto)]

mod body;
pub mod errno;
pub mod examples;
pub mod flags;
pub mod forget;
pub mod framing;
pub mod laws;
pub mod limits;
pub mod opcode;
mod put;
mod read;
mod replies;
pub mod reply;
pub mod request;
mod structure;
mod structures;

pub use errno::Errno;
pub use forget::{Forget, Forgets};
pub use framing::{Framed, frame};
pub use put::{
    SHORT_ROW_SIZE, dirent_size, put_attr, put_data, put_data_head, put_dirent, put_direntplus,
    put_entry, put_error, put_head, put_init, put_negative_entry, put_open, put_short_direntplus,
    put_statfs, put_xattr_size, set_data_head,
};
pub use read::put_read;
pub use replies::Replies;
pub use reply::{Dirent, InitOut};
pub use request::{Op, Request, glance};
pub use stack_model::Attr;
