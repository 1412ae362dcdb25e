//! What a stack of layers shows: definitions and laws. The only code is the types of a node's
//! attributes.
//!
//! `specs/` restates the OCI image specification's layer chapter (whiteouts, opaque whiteouts,
//! which layer's entry is visible) over lists of accepted images, and numbers what is visible:
//! paths, nodes, attributes, rows. A layer is the list of an image's accessible bytes; layers are
//! numbered from 0, the lowest.
//!
//! [`Attr`] is what stat(2) reports about a node, one type for the table that gives it and the
//! reply that holds it; [`Owner`] is the user and group of a node.
#![tactic(auto)]

mod attr;
pub mod examples;
pub mod laws;
pub mod limits;
mod owner;
pub mod owner_examples;

pub use attr::Attr;
pub use owner::Owner;
