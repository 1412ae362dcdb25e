//! The lines of a listing: each shown path of a stack with its node's number and attributes.
//!
//! [`write_list`] writes them to a sink for a table of nodes, in the order of the paths, as `2
//! 040755 2 0 1 /a`. It descends from the root by the rows of directories and keeps the text of the
//! current path, so each name is escaped once, and a line's path is one copy. The room for a piece
//! of lines and for the longest path is taken first, so the memory does not grow with the lines.
//! That these are all visible paths, each once, follows from the layers: nothing is visible below
//! what is not a directory, and a directory has one path (`laws`). The crate uses `node_reader`,
//! and `devices` for its sink.
#![tactic(auto)]

pub mod examples;
mod fields;
pub mod laws;
mod path_text;
mod room;
mod walk;

pub use walk::{ListFault, write_list};
