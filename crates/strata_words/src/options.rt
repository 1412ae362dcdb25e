//! The command line, as read.

ghost use Rattle.std.specs.Prelude.{◌≡◌};
ghost use Rattle.strata_words.specs.declared.options.LineFault.TheVariants.{Memory};
ghost use Rattle.strata_words.specs.declared.options.NoLine.TheVariants.{Fault};

use romfs_seal::Digest;
use stack_model::Owner;
use std::alloc::{AllocError, AllocFailed};

/// The most sessions that one command serves at a socket.
pub const MAX_SESSIONS: u32 = 65_535;

/// The most readers of one open `/dev/fuse`.
pub const MAX_READERS: u32 = 64;

/// What the program should do.
#[derive(Clone, Copy, PartialEq, Eq)]
pub enum Verb {
    /// Answer a stream of requests over the images.
    Serve,
    /// Answer the clients of a socket, one after another.
    Socket,
    /// Check the images.
    Check,
    /// List the visible paths of the stacked images.
    List,
}

/// A command line, as read. Options that the command lacks, or that were left out, are `None` or
/// have their default.
#[derive(Drop)]
pub struct Line<'a> {
    pub verb: Verb,
    /// Images are also checked against the strict profile.
    pub strict: bool,
    /// The attribute trailers of images are read, checked and shown.
    pub attributes: bool,
    /// Images are accepted as by a mount: at most 128, and their trailers are read and checked.
    pub as_mounted: bool,
    /// Images are read in full into memory, not left in their files.
    pub whole: bool,
    /// Small images stay in their files, too, unless `whole` is set.
    pub in_files: bool,
    /// Standard input and output are one open `/dev/fuse`. No file replaces one of them or takes
    /// the balances.
    pub device: bool,
    /// The number of readers of an open `/dev/fuse`, 1 to 64. The default is 1. Other streams
    /// always have one reader.
    pub readers: u32,
    /// The client learns that the tree never changes, and caches everything.
    pub lasting: bool,
    /// The most workers, 1 to 64. The default is 4.
    pub workers: u32,
    /// The most requests in a worker's batch, 1 to 256. The default is 16.
    pub batch: u32,
    /// The file that requests are read from instead of standard input.
    pub requests: Option<&'a str>,
    /// The file that replies are written to instead of standard output.
    pub replies: Option<&'a str>,
    /// The file that the lookup balances of nodes are written to.
    pub balances: Option<&'a str>,
    /// The path of the socket. The verb `Socket` always has one.
    pub listen: Option<&'a str>,
    /// The number of sessions, served one after another, 1 to 65,535. The default is 1.
    pub sessions: u32,
    /// The owner of files that no trailer describes. The default is user and group 0.
    pub owner: Owner,
    /// The files of the images, one or more, lowest layer first.
    pub images: Vec<&'a str>,
    /// The fs-verity digest of each image, in their order; `None` for an image without one.
    pub digests: Vec<Option<Digest>>,
}

/// Why there is no `Line`.
#[derive(Drop)]
pub enum NoLine {
    /// The arguments ask for the version of the program.
    Version,
    /// The arguments have a fault, or memory ran out.
    Fault(LineFault),
}

/// What is wrong with the arguments.
#[derive(Drop)]
pub enum LineFault {
    /// The arguments are no command of the program, have a malformed number or digest, a number out
    /// of range, or more or fewer digests than images, or ask for help. The text is for the user.
    Usage { text: String },
    /// Memory ran out.
    Memory,
}

impl From<AllocError> for NoLine {
    ghost from_gives = { λ _ no_line. no_line ≡ Fault Memory };

    fn from(_error: AllocError) -> NoLine {
        NoLine::Fault(LineFault::Memory)
    }
}

impl From<AllocError> for LineFault {
    ghost from_gives = { λ _ fault. fault ≡ Memory };

    fn from(_error: AllocError) -> LineFault {
        LineFault::Memory
    }
}

impl<T: Drop> From<AllocFailed<T>> for LineFault {
    ghost from_gives = { λ _ fault. fault ≡ Memory };

    fn from(_error: AllocFailed<T>) -> LineFault {
        LineFault::Memory
    }
}
