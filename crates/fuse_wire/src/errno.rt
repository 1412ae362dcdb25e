//! Error numbers.

ghost use Rattle.std.specs.Prelude.{◌≡◌};
ghost use Rattle.fuse_wire.specs.Structures.{errno_number};

/// The errors of replies; the error field holds the negated number (Linux's asm-generic/errno.h).
#[derive(Clone, Copy, Debug, PartialEq, Eq)]
pub enum Errno {
    /// No such entry, 2.
    ENOENT = 2,
    /// The session does not allow it, 5.
    EIO = 5,
    /// Not a directory, 20.
    ENOTDIR = 20,
    /// A directory, 21.
    EISDIR = 21,
    /// An invalid request, 22.
    EINVAL = 22,
    /// The tree is read-only, 30.
    EROFS = 30,
    /// A size that is too small for the answer, 34.
    ERANGE = 34,
    /// A name of more than 255 bytes, 36.
    ENAMETOOLONG = 36,
    /// A request that is not served, 38.
    ENOSYS = 38,
    /// No such extended attribute, 61.
    ENODATA = 61,
    /// An unsupported protocol version, 71.
    EPROTO = 71,
    /// An extended attribute that is not served, 95.
    EOPNOTSUPP = 95,
    /// A node number that is not in use, 116.
    ESTALE = 116,
}

impl Errno {
    /// The number that Linux gives to the error.
    pub fn number(self) -> u32
        ensures { result ≡ errno_number self }
    {
        self as u32
    }
}
