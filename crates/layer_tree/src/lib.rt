//! Layers as trees: the tree of one layer, and trees laid on one another.
//!
//! [`Tree::of`](OfLayer::of) makes the tree of one layer, [`tree_of`] that of a layer whose image
//! is borrowed, and [`lay`] that of two adjacent runs of layers from their trees. `layer_paths`
//! defines what a tree shows and cuts, and how it is read.
//!
//! `reading` makes the tree of one layer, from the members of directories in the order of their
//! names (`members`), whose headers and names it reads ahead (`ahead`). `laying` lays one tree on
//! another; `clashes` finds where one has a file and the other more than a leaf, and `apart` finds
//! out that there is no such path. The crate uses `layer_paths` for trees, `romfs_reader` for
//! images and `stack_model` for what stacks show.
#![tactic(auto)]

mod ahead;
mod apart;
mod clashes;
pub mod laws;
mod laying;
mod members;
mod reading;

pub use layer_paths::{Branch, Child, Entry, Mark, Place, Tree};
pub use laying::lay;
pub use reading::{OfLayer, tree_of};
