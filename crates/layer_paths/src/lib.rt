//! Trees by path: what a run of layers shows at each path, and what it removes from the layers
//! below.
//!
//! A [`Branch`] is a name with a value and branches below it, in the order of their names.
//! Contracts see it as rows: the value at each path, in the order of paths (`specs/Rows`). A
//! [`Name`] of at most 22 bytes is kept inline, a longer one beside its branch. Names are found by
//! binary search; no recursion is deeper than the tree.
//!
//! [`cover`] lays a tree on another one, [`merge`] the branches of a directory on those of another.
//! Each path then has the values of both, one laid on the other ([`Lay`]), or that of the one tree
//! that has it (`specs/Laying`). What only one tree has is moved without being read.
//!
//! A [`Tree`] has two parts: entries and marks, each at a path. An [`Entry`] has the place of what
//! the path shows, and what the header there says about its file. An entry that is not a directory
//! cuts its path from the layers below, and so do marks: those of whiteouts, and of files on which
//! a directory was laid. One relation defines what a tree is, for any run of adjacent layers
//! (`IsTreeOf` in `specs/Trees`). An entry takes 72 bytes with its name, and a mark no more; a
//! longer name takes memory of its own.
//!
//! `layer_tree` makes trees. Crates that read them do not use that crate, so they are proved beside
//! it.
#![tactic(auto)]

mod branch;
pub mod entries;
mod laying;
mod moving;
mod name;
mod tree;
mod values;

pub use branch::{Branch, child, place};
pub use entries::{Cuts, Entry, Mark, Place};
pub use laying::{cover, merge};
pub use moving::{drop_first, pass_first, pass_with, take_children};
pub use name::Name;
pub use tree::{Child, Tree, is_marker};
pub use values::Lay;
