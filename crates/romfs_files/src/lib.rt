//! Images in files: read in full, or opened, in which case only what the rules check is read.
//!
//! [`load`] loads the files of a list of paths, in one of three ways ([`Loading`]), and returns a
//! [`LoadedImage`] for each:
//!
//! - whole. A file is read once, from its beginning to its end, in at most 2^40 pulls of a
//!   [`devices::Tap`], 64 KiB a pull; memory is taken once for each file that reports its length.
//! - open. If a file can be read at a place, only headers, names and targets are read
//!   (`romfs_kept`), in memory in proportion to these, and the file stays open; others are read in
//!   full. Such an image has both what is kept, and what its data are read from: the file or the
//!   bytes ([`ImageData`]).
//! - gathered. The same is read, and no file stays open.
//!
//! An image whose fs-verity digest is known is read under it, with the file of its tree
//! (`romfs_seal`), whose name is the image's with `.verity` added ([`load_sealed`]).
//!
//! Up to four parts of a long list are read at the same time. The lowest image that cannot be read
//! is reported, unless memory runs out; no clause says that it is the lowest.
//!
//! The private modules: `images` divides a list among threads; `opening` loads one file by its
//! kind; `whole` reads all of one; `loaded` and `image_data` have the results. No clause knows a
//! path, or what a read at a place gives, so the tests open real files. Bytes in memory are those
//! of some file, if these are known, and what is kept beside them was gathered from them. Under a
//! digest, what is kept is the named file's, unless a read gives, instead of a block, another with
//! the same digest.
#![tactic(auto)]

mod image_data;
mod images;
mod loaded;
mod opening;
mod sealing;
mod whole;

pub use image_data::ImageData;
pub use images::{FilesFault, load};
pub use loaded::{LoadedImage, Loading, Trailers};
pub use opening::{FileKind, load_as};
pub use romfs_kept::GatherFault;
pub use sealing::load_sealed;
