//! Why the images of a line are not used, or not reported: a line and an exit status for each
//! fault.

ghost use Rattle.std.specs.Prelude.{◌≡◌};
ghost use Rattle.strata_images.specs.Faults.{status_of};
ghost use Rattle.strata_images.specs.Texts.{fault_text};

use devices::Failed;
use node_list::ListFault;
use romfs_files::FilesFault;
use romfs_image::ImageFault;
use stack_prepare::Refusal;
use std::alloc::{AllocError, AllocFailed};
use std::fmt;

/// Why the images of a line are not used, or not reported. Its `Display` is the line for standard
/// error.
#[derive(Clone, Copy, Debug, PartialEq, Eq)]
pub enum ImagesFault {
    /// The file of this image, counted from 0, cannot be read in full.
    Unread { image: u64 },
    /// The file of this image, counted from 0, or that of its tree does not match its digest.
    Unsealed { image: u64 },
    /// The trailer of this image, counted from 0, which stays in its file, ends at 4 GiB or beyond.
    Far { image: u64 },
    /// This image, counted from 0, breaks a rule.
    Broken { image: u64, fault: ImageFault },
    /// There are this many images: none, or more than 128.
    Layers { count: u64 },
    /// The output failed.
    Write,
    /// Memory ran out.
    Memory,
}

impl ImagesFault {
    /// The exit status of the program for it.
    pub fn status(self) -> u8
        ensures { result ≡ status_of self }
    {
        match self {
            ImagesFault::Unread { .. } | ImagesFault::Write => 1,
            ImagesFault::Unsealed { .. }
            | ImagesFault::Far { .. }
            | ImagesFault::Broken { .. }
            | ImagesFault::Layers { .. } => 3,
            ImagesFault::Memory => 5,
        }
    }
}

impl fmt::Display for ImagesFault {
    ghost use Rattle.std.specs.Prelude.{Some};

    ghost output = { λ fault. Some (fault_text fault) };

    fn fmt<W: fmt::Write>(&self, f: &mut fmt::Formatter<W>) -> fmt::Result {
        match *self {
            ImagesFault::Unread { image } => write!(f, "image {image}: cannot be read"),
            ImagesFault::Unsealed { image } => write!(f, "image {image}: not as sealed"),
            ImagesFault::Far { image } => write!(f, "image {image}: trailer ends beyond 4 GiB"),
            ImagesFault::Broken { image, fault } => {
                write!(f, "layer {image} at {:08x}: {}", fault.place, fault.rule)
            }
            ImagesFault::Layers { count } => write!(f, "layers: {count}, allowed 1 to 128"),
            ImagesFault::Write => write!(f, "write fault"),
            ImagesFault::Memory => write!(f, "out of memory"),
        }
    }
}

impl From<FilesFault> for ImagesFault {
    ghost use Rattle.strata_images.specs.Faults.{files_told_of};

    ghost from_gives = { λ files fault. fault ≡ files_told_of files };

    fn from(fault: FilesFault) -> ImagesFault {
        match fault {
            FilesFault::Unread { image } => ImagesFault::Unread { image },
            FilesFault::Unsealed { image } => ImagesFault::Unsealed { image },
            FilesFault::Far { image } => ImagesFault::Far { image },
            FilesFault::Memory => ImagesFault::Memory,
        }
    }
}

impl From<Refusal> for ImagesFault {
    ghost use Rattle.strata_images.specs.Images.{refusal_told_of};

    ghost from_gives = { λ refusal fault. fault ≡ refusal_told_of refusal };

    fn from(refusal: Refusal) -> ImagesFault {
        match refusal {
            Refusal::Layer { layer, fault } => ImagesFault::Broken {
                image: u64::from(layer),
                fault,
            },
            Refusal::Layers { count } => ImagesFault::Layers { count },
            Refusal::Memory => ImagesFault::Memory,
        }
    }
}

impl From<ListFault> for ImagesFault {
    ghost use Rattle.strata_images.specs.Faults.{list_told_of};

    ghost from_gives = { λ list fault. fault ≡ list_told_of list };

    fn from(fault: ListFault) -> ImagesFault {
        match fault {
            ListFault::Write => ImagesFault::Write,
            ListFault::Memory => ImagesFault::Memory,
        }
    }
}

impl From<Failed> for ImagesFault {
    ghost use Rattle.strata_images.specs.declared.faults.ImagesFault.TheVariants.{Write};

    ghost from_gives = { λ _ fault. fault ≡ Write };

    fn from(_failed: Failed) -> ImagesFault {
        ImagesFault::Write
    }
}

impl From<AllocError> for ImagesFault {
    ghost use Rattle.strata_images.specs.declared.faults.ImagesFault.TheVariants.{Memory};

    ghost from_gives = { λ _ fault. fault ≡ Memory };

    fn from(_error: AllocError) -> ImagesFault {
        ImagesFault::Memory
    }
}

impl<T: Drop> From<AllocFailed<T>> for ImagesFault {
    ghost use Rattle.strata_images.specs.declared.faults.ImagesFault.TheVariants.{Memory};

    ghost from_gives = { λ _ fault. fault ≡ Memory };

    fn from(_error: AllocFailed<T>) -> ImagesFault {
        ImagesFault::Memory
    }
}
