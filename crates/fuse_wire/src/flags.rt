//! Flags (linux/fuse.h, under the same names with the prefix `FUSE_`, or `FOPEN_` if the name says
//! so).

ghost use Rattle.std.specs.Prelude.{◌≡◌};
ghost use Rattle.fuse_wire.specs.Structures.{has_export, has_no_open, has_no_opendir, has_acl};

/// Of INIT: the client reads ahead without waiting.
pub const ASYNC_READ: u32 = 0x0000_0001;

/// Of INIT: LOOKUP of `.` and `..` is answered, which network file servers need.
pub const EXPORT_SUPPORT: u32 = 0x0000_0010;

/// Of INIT: READDIRPLUS is answered.
pub const DO_READDIRPLUS: u32 = 0x0000_2000;

/// Of INIT: the client chooses between READDIR and READDIRPLUS.
pub const READDIRPLUS_AUTO: u32 = 0x0000_4000;

/// Of INIT: the client need not send OPEN; it sends no more after one is answered with `ENOSYS`.
pub const NO_OPEN_SUPPORT: u32 = 0x0002_0000;

/// Of INIT: the client may send LOOKUP and READDIR of one directory in parallel.
pub const PARALLEL_DIROPS: u32 = 0x0004_0000;

/// Of INIT: the client enforces the access control lists of files, which it reads with GETXATTR.
pub const POSIX_ACL: u32 = 0x0010_0000;

/// Of INIT: the reply's field `max_pages` is valid.
pub const MAX_PAGES: u32 = 0x0040_0000;

/// Of INIT: the client caches the targets of symbolic links.
pub const CACHE_SYMLINKS: u32 = 0x0080_0000;

/// Of INIT: the client need not send OPENDIR; it sends no more after one is answered with `ENOSYS`.
pub const NO_OPENDIR_SUPPORT: u32 = 0x0100_0000;

/// Of the reply to OPEN and OPENDIR: what the client has cached of the file or directory stays
/// valid.
pub const FOPEN_KEEP_CACHE: u32 = 0x0000_0002;

/// Of the reply to OPENDIR: the client may cache the rows of the directory.
pub const FOPEN_CACHE_DIR: u32 = 0x0000_0008;

/// Whether the flags of an INIT have [`EXPORT_SUPPORT`].
#[tactic(auto, using(crate::proofs::FlagBits::export_bit))]
pub fn has_export(flags: u32) -> bool
    ensures { result ≡ has_export flags }
{
    flags & EXPORT_SUPPORT != 0
}

/// Whether the flags of an INIT have [`NO_OPEN_SUPPORT`].
#[tactic(auto, using(crate::proofs::FlagBits::no_open_bit))]
pub fn has_no_open(flags: u32) -> bool
    ensures { result ≡ has_no_open flags }
{
    flags & NO_OPEN_SUPPORT != 0
}

/// Whether the flags of an INIT have [`NO_OPENDIR_SUPPORT`].
#[tactic(auto, using(crate::proofs::FlagBits::no_opendir_bit))]
pub fn has_no_opendir(flags: u32) -> bool
    ensures { result ≡ has_no_opendir flags }
{
    flags & NO_OPENDIR_SUPPORT != 0
}

/// Whether the flags of an INIT have [`POSIX_ACL`].
#[tactic(auto, using(crate::proofs::FlagBits::acl_bit))]
pub fn has_acl(flags: u32) -> bool
    ensures { result ≡ has_acl flags }
{
    flags & POSIX_ACL != 0
}
