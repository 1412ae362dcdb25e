//! Images that are read under an fs-verity digest (Documentation/filesystems/fsverity.rst in
//! Linux): each block that is read is hashed, and its digest is looked up in the tree of digests of
//! its file. SHA-256 or SHA-512, blocks of 4,096 bytes, no salt.
//!
//! - [`Files`] are a file, the file of its tree, and the digest that they should have.
//!   [`NamedFiles`] is the interface of such files. [`Sealed`] reads them after [`Sealed::open`]
//!   has checked the upper levels of the tree against the digest; [`SealFault`] says why that
//!   failed.
//! - [`BlockHash`] is a hash of blocks, [`Algorithm`] names fs-verity's two, and [`Digest`] is what
//!   they return. [`descriptor_of`] makes the descriptor of a file, whose digest is the file's.
//! - The definitions are in `devices`: `Tree` has the tree over whole blocks, `File` the descriptor
//!   and the digest of a file; [`examples`] computes digests that `fsverity digest` printed.
//!   `Vouched` has what a digest says about blocks that were read, by the hash blocks on the way to
//!   it; [`tree_laws`] has what follows.
//! - [`SealedImage`] is an opened file as its callers see it, by its seal alone. With [`Recent`] as
//!   its hash a file is read in small parts without hashing a block for each.
//!
//! What is read is right, unless a read gives, instead of a block of the file or of its tree,
//! another block with that block's digest (`Read` of `devices`). Nothing is assumed about the hash
//! alone. [`laws`] says that this premise holds for bytes in memory, and what a digest says about a
//! file that was read in full, without it.
#![tactic(auto)]

mod descriptor;
mod digest;
pub mod examples;
mod files;
mod filling;
mod hash;
mod image;
pub mod laws;
mod opening;
mod recent;
mod sealed;
pub mod tree_laws;

pub use descriptor::descriptor_of;
pub use devices::Algorithm;
pub use digest::Digest;
pub use files::{Files, NamedFiles};
pub use hash::BlockHash;
pub use image::SealedImage;
pub use opening::SealFault;
pub use recent::Recent;
pub use sealed::Sealed;
