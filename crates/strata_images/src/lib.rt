//! The images of a line: read, checked, stacked, and what the program prints about them.
//!
//! [`open_all`] reads the images of a line that serves, [`gather_all`] those of one that checks or
//! lists. Images stay in their files: what the rules check is read at startup, all else on demand.
//! With `--whole`, and for a small stack that no mount shows, all their bytes are read at startup,
//! and held. [`prepare`] makes one table of them, with the files that it reads from; `specs/Images`
//! defines it. [`check`] and [`list`] are the two commands that do not serve; they note images with
//! a trailer that the line does not ask for (`trailers`). [`ImagesFault`] has a line and an exit
//! status for everything that can go wrong with images.
//!
//! The crate uses `strata_words` for the line, `romfs_files` for the files of images,
//! `stack_prepare`, which checks images and stacks them, and `node_list`, which writes the paths
//! that a stack shows. Nothing here serves: `strata` does, and is mostly proved beside this crate.
#![tactic(auto)]

mod checking;
mod faults;
mod images;
pub mod laws;
mod lines;
mod listing;
mod preparing;
mod profile;
mod trailers;

pub use checking::check;
pub use faults::ImagesFault;
pub use images::{LineImages, gather_all, open_all};
pub use lines::{put_lines, write_bytes};
pub use listing::list;
pub use preparing::prepare;
pub use profile::profile_of;
