//! The format of romfs images (Documentation/filesystems/romfs.rst in Linux): what it is, and the
//! reading of single fields.
//!
//! `specs/` restates the document: the fields of headers (`Fields`, `Heads`), which headers are in
//! which directory (`Chains`), what they lead to (`Links`), the rules of an image and the one fault
//! of an image that breaks some (`Rules`, as text `Texts`). An image may be followed by an
//! attribute trailer with the owners, modes and times of its files (`Trailer`), and after its rows
//! a part with lists (`Part`) of extended attributes (`Extended`, `Acls`); some profiles read it
//! (`Profiles`). [`limits`] has all sizes and limits, [`acl`] the numbers of access control lists,
//! and [`examples`] the number of each, and worked trailers. [`read`] reads words, names and
//! headers if they lie within the image; no call takes memory. [`laws`] says that an image has at
//! most one fault.
//!
//! The crate uses `byteorder` for words and `memchr` for the ends of names.
#![tactic(auto)]

pub mod acl;
pub mod attribute_row;
pub mod examples;
pub mod head;
pub mod laws;
pub mod limits;
pub mod read;
pub mod rule;

pub use attribute_row::AttributeRow;
pub use head::{End, Head, Kind};
pub use rule::{ImageFault, Profile, Rule};
