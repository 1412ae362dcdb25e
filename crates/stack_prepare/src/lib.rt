//! The images of a stack, prepared: checked, stacked, and made into a table of their nodes.
//!
//! [`prepare`] takes 1 to 128 images, the lowest layer first, each held in full or as what is kept
//! of it ([`HeldImage`]). It checks them by the rules of a profile, some at the same time
//! (`checking`), stacks them (`stack_core`) and makes their table (`node_table`), with an owner for
//! files without a row of attributes. [`whole_images`] makes such images from lists of all bytes.
//! What [`prepare`] promises is stated in terms of the bytes that are held.
//!
//! It returns the table of the images' stack, or a [`Refusal`]: a wrong number of them, the lowest
//! that breaks a rule, whichever was found first, or lack of memory; [`laws`] say that there is one
//! such reason. `specs/Layers` says which images are accepted and why others are refused, and
//! `specs/Preparing` of which stack a table is made. An image costs what its check costs
//! ([`check_held`](romfs_image::check_held)), and a part of several images a started thread. The
//! crate knows no device, no file, no stream and no request: a caller that has the table may serve
//! it, or list it.
#![tactic(auto)]

mod bounds;
mod checking;
pub mod laws;
mod preparing;
pub mod refusal;

pub use bounds::SharedAllocator;
pub use draw_board::{FreePass, Gate, Work};
pub use node_table::{Owner, Table};
pub use preparing::{prepare, whole_images};
pub use refusal::Refusal;
pub use romfs_format::Profile;
pub use romfs_held::{HeldImage, Kept};
