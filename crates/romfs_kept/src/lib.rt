//! What is kept of an image that stays in its file.
//!
//! - [`gather`] reads what the rules, the tree and the table of an image look at: its first bytes,
//!   the headers that it leads to, their names and the targets of symbolic links. It judges
//!   nothing. [`gather_with_trailer`] also reads the attribute trailer, which follows the image.
//! - [`Kept`], of `romfs_held`, holds what was read. A clause sees a list of bytes, with zeros
//!   where nothing was kept.
//! - [`laws`] says that such a list is sound if the image is, and otherwise breaks the rule that
//!   the image breaks: why an image is refused depends on these bytes alone.
//!
//! `specs/` defines what is read (`Footprint`) and what was gathered (`Gathered`); the other
//! definitions belong to the layers between: blocks as they are read (`Pieces`), reads (`Reads`),
//! the walk (`Walk`), the trailer (`Tails`). If the source shows bytes, in memory or under a
//! digest, a contract says that what is kept has these bytes wherever the rules look. A file alone
//! shows none: what was kept is then all that is known of it. The crate uses `devices`,
//! `romfs_held`, and `romfs_sets` for the headers that were reached.
#![tactic(auto)]

mod fault;
mod gathering;
mod grain;
pub mod laws;
mod packing;
mod pieces;
mod reader;
mod trailer;
mod visit;
mod window;

pub use fault::GatherFault;
pub use gathering::gather;
pub use grain::Grain;
pub use romfs_held::Kept;
pub use trailer::gather_with_trailer;
