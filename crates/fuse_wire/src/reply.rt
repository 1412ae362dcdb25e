//! What replies contain.

/// A row of a directory (linux/fuse.h, `struct fuse_dirent`).
#[derive(Clone, Copy)]
pub struct Dirent<'a> {
    /// The node's number.
    pub ino: u64,
    /// The row's place in its directory, from 1 on; a later request continues from there.
    pub off: u64,
    /// The mode of the node, shifted right by 12.
    pub file_type: u32,
    /// The row's name, of at most [`MAX_NAME_SIZE`](crate::limits::MAX_NAME_SIZE) bytes.
    pub name: &'a [u8],
}

/// The answer to an INIT that is not refused (linux/fuse.h, `struct fuse_init_out`).
#[derive(Clone, Copy)]
pub enum InitOut {
    /// Only the version, for a client of a later major version.
    Version,
    /// The session's terms, from the client's request.
    Terms {
        /// Whether the session tells the client that nothing in the tree ever changes. Then the
        /// session may also have [`NO_OPEN_SUPPORT`](crate::flags::NO_OPEN_SUPPORT),
        /// [`CACHE_SYMLINKS`](crate::flags::CACHE_SYMLINKS) and
        /// [`NO_OPENDIR_SUPPORT`](crate::flags::NO_OPENDIR_SUPPORT), and requests of 256 pages
        /// instead of 32.
        lasting: bool,
        /// Whether the tree has access control lists; then the session may have
        /// [`POSIX_ACL`](crate::flags::POSIX_ACL).
        acls: bool,
        /// The client's minor version: below 23 it knows only the first 24 bytes.
        minor: u32,
        /// The most bytes that the client reads ahead.
        max_readahead: u32,
        /// The client's flags.
        flags: u32,
    },
}
