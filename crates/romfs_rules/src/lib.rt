//! Which rule of romfs an image breaks.
//!
//! [`first_fault`] answers for every list of bytes, however hostile: directories whose chains
//! merge, loop or lead anywhere, links to links, names that occur twice. It reads a held image, in
//! full or in part (`romfs_held`). Most images keep every rule, and one walk down from the root
//! shows it (`plain`, `plain_header`). For all others it collects sets of headers (`chains`,
//! `same_names`, `twice`, `targets`, `ends`), as a bit for every 16 bytes of the image or as a
//! rising list (`romfs_sets`); then it scans the reached headers once, upward (`judge`), for the
//! first rule that each breaks (`header`); then it checks the depth (`depth`), and finally the
//! attribute trailer (`romfs_rows`). Each walk is a loop, and each visits a header a constant
//! number of times. What [`first_fault`] promises is `IsFaultOf`, of `romfs_format`.
//!
//! Images are read by `romfs_held`, so the result is the same for an image held in full and for
//! what is kept of one that stays in its file.
#![tactic(auto)]

mod chains;
mod depth;
mod ends;
mod fault;
mod header;
mod judge;
mod lead;
mod link;
mod member;
mod names;
mod outside;
mod plain;
mod plain_header;
mod same_names;
mod slot;
mod targets;
mod twice;
mod volume;

pub use fault::first_fault;
