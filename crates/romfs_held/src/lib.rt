//! An image as it is held: all its bytes in memory, or what is kept of an image that stays in its
//! file.
//!
//! - [`Kept`] owns what is kept: some blocks of 16 bytes, in memory in proportion to these.
//! - [`HeldImage`] owns either, all bytes or what is kept.
//! - [`Held`] lends either, a slice or what is kept. A clause sees a list of bytes, with zeros
//!   where nothing is kept.
//! - [`read`] reads fields of what is held, with the clauses of `romfs_format::read` for slices. A
//!   reader that uses it is proved once for both.
//!
//! `specs/` says which list of bytes blocks represent (`Blocks`), and which is lent (`Held`) and
//! owned (`Images`). Crates above this one decide which blocks are kept. It uses `romfs_format`.
#![tactic(auto)]

pub mod blocks;
mod held;
mod image;
mod kept;
mod numbers;
pub mod read;

pub use blocks::{BLOCK_SIZE, NamedHead};
pub use held::Held;
pub use image::HeldImage;
pub use kept::Kept;
