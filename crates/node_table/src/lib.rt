//! Tables, made from the trees of stacks.
//!
//! [`Table::of`](OfTree::of) makes the table of a stack from its tree. [`table_of_layers`] makes
//! one whose nodes have rows of attributes, or another owner than root; its images may also stay in
//! their files. `node_reader` defines what a table contains and how it is read.
//!
//! A table is made in two walks over the tree: one counts the branches, and one finds, for each
//! branch, its parent and its size with everything below it. Places with several paths are found by
//! a sort, and all are numbered by their first path; from then on a branch's number is found by its
//! place: n log n steps in the paths. The crate uses `node_reader` for tables, `layer_paths` for
//! the tree of a stack, `romfs_reader` for its images, `layer_names` for look-ups, and `rayon`.
#![tactic(auto)]

mod building;
mod completing;
mod firsts;
mod making;
mod numbering;
mod walk;

pub use making::{OfTree, table_of_layers};
pub use node_reader::{Attr, Attributes, Kind, Node, Owner, Place, Row, Rows, Table};
