//! romfs images: whether bytes are one, what is read from it, and images made for tests.
//!
//! [`Image::check`](Check::check) keeps the accessible bytes of an image that breaks no rule;
//! otherwise it reports the rule that is broken first, and where. It answers for every list of
//! bytes. [`Image::check_as`](Check::check_as) takes every profile. [`check_held`] checks an image
//! as it is held, all its bytes or what is kept of one that stays in its file, and returns the rows
//! of its attribute trailer and their lists too; [`laws`] says that what is kept is judged as the
//! image is. [`Image`] returns headers, names and data, as `romfs_reader` has them.
//!
//! The definitions of `romfs_format` and of `specs/` say what a check promises: which bytes it
//! accepts (`Checks`), and why it refuses others (`Refusals`, in words `Texts`). The crate joins
//! `romfs_rules` and `romfs_reader`, which do not know each other, so what uses images is proved
//! beside the rules.
//!
//! [`sample`] makes images for tests and examples. Nothing is promised about what it writes.
#![tactic(auto)]

mod check;
pub mod laws;
pub mod refusal;
pub mod sample;

pub use check::{Check, check_held};
pub use refusal::CheckFault;
pub use romfs_format::{AttributeRow, Head, ImageFault, Kind, Profile, Rule};
pub use romfs_held::{HeldImage, Kept};
pub use romfs_reader::{Ends, Image, ImageView, Members, Part, views_of};
pub use romfs_rows::{RowLists, Rows};
