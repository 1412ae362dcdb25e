//! Attribute trailers: owners, modes and times of an image's files, in a table after its full size
//! (`Trailer`, of `romfs_format`).
//!
//! [`trailer_fault`] says whether the trailer of a held image, in full or in part, is broken: it
//! passes over the bytes a few times and takes memory only for the lists of a second part. [`Rows`]
//! keeps the rows of a good one, in 28 bytes each, and finds the row of a header by binary search
//! or by position. [`Lists`] lends the bytes of lists of extended attributes if their tables are in
//! order, finds the value of an attribute by binary search ([`Lists::value_of`]), and compares an
//! access control list with a mode ([`Lists::agrees`]); [`are_lists`] says whether bytes are lists
//! that files may have. [`RowLists`] keeps the lists of a good trailer, each once, and lends each
//! row's as [`FileXattrs`]. Their contracts use the definitions of `romfs_format` (`Part`,
//! `Extended`, `Acls`); `specs/` has those in between (`Faults`, `Order`, `Runs`, `Listed`).
#![tactic(auto)]

mod acl;
mod agreement;
mod attribute;
mod check;
mod file_xattrs;
mod kept_row;
mod list_check;
mod lists;
mod part;
mod read;
mod row_lists;
mod rows;
mod value_search;

pub use attribute::is_acl_name;
pub use check::trailer_fault;
pub use file_xattrs::FileXattrs;
pub use list_check::are_lists;
pub use lists::Lists;
pub use row_lists::RowLists;
pub use rows::Rows;
