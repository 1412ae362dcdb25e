//! The nodes of a stack of layers by number, as they are read: kinds and places, attributes, rows
//! and data.
//!
//! A [`Table`] represents a stack: its layers, and the listing of their visible paths. Each reader
//! follows the definitions of `stack_model`, as `specs/Readers.antt` combines them, for every
//! number up to 2^64 - 1, and takes no memory. The invariant of a table says what its parts must
//! say about the listing (`specs/Held.antt`). Rows of attributes come as `romfs_rows` reads them;
//! kept are the owners and times of nodes, 20 bytes each (`specs/Stamps.antt`), and the rows
//! themselves for clauses alone. Extended attributes stay as `romfs_rows` keeps them, and a node
//! has the position of its row (`specs/Xattrs.antt`).
//!
//! `node_table` makes tables. It is another crate, so what answers from a table is proved beside
//! its making, not after it. The crate uses `layer_paths` for places, `romfs_reader` for images,
//! `romfs_rows` for rows of attributes and `layer_names` for look-ups.
#![tactic(auto)]

mod attributes;
mod directory;
mod guess;
mod layer;
mod lookup;
mod next_rows;
mod node;
mod row;
mod stamp;
mod stamped_rows;
mod table;
mod xattrs;

pub use attributes::Attributes;
pub use directory::{Directories, Directory};
pub use guess::Guess;
pub use layer_names::hashed;
pub use layer_paths::Place;
pub use node::Node;
pub use romfs_reader::{Image, ImageView, Kind, Part};
pub use romfs_rows::{FileXattrs, RowLists, Rows, is_acl_name};
pub use row::Row;
pub use stack_model::{Attr, Owner};
pub use table::Table;
