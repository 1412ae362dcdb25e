//! What is read from romfs images that keep all rules. `romfs_image` checks whether bytes do.
//!
//! [`Image`] owns an image: all its bytes, or what is kept of one that stays in its file. It lends
//! an [`ImageView`], which returns headers, and for these the members of a directory, the ends of
//! hard links, names, and the places of data. Data are returned if the image is held in full.
//! [`Ends`] finds where many hard links end, and passes none of them twice. Of all readers only it
//! and [`views_of`], which makes a list of lent images, take memory. The definitions of
//! `romfs_format` and of `specs/` say what the calls promise: what the readers return (`Readers`,
//! step by step `Walks`, and `Ends`), and what is known of a sound image (`Images`). [`laws`] says
//! that each path of such an image has one header and at most 512 names, and that there are
//! finitely many.
#![tactic(auto)]

pub mod ends;
mod image;
pub mod laws;
pub mod members;
mod parts;
mod view;

pub use ends::Ends;
pub use image::Image;
pub use members::Members;
pub use parts::Part;
pub use romfs_format::{Head, Kind};
pub use view::{ImageView, views_of};
