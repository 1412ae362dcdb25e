//! The limits and sizes of an image, each under the one name that code and definitions use.

/// The size of a header without its name, of the volume as of a file, in bytes.
pub const HEAD_SIZE: usize = 16;

/// The bytes among which a name ends, with its zero byte.
pub const NAME_FIELD_SIZE: usize = 256;

/// The bytes that the checksum of the volume covers: this many, or all if there are fewer.
pub const SUMMED_SIZE: usize = 512;

/// The most bytes of the target of a symbolic link (`PATH_MAX` of linux/limits.h, without a zero
/// byte).
pub const MAX_TARGET_SIZE: u32 = 4_095;

/// The greatest major number of a device (Linux keeps 12 bits of it).
pub const MAX_MAJOR: u32 = 4_095;

/// The most names of a path.
pub const MAX_NAMES: u16 = 512;

/// The size of an attribute trailer before its rows, in bytes.
pub const TRAILER_HEAD_SIZE: usize = 16;

/// The size of a row of an attribute trailer, in bytes.
pub const ROW_SIZE: usize = 32;

/// The greatest mode of a row, without the bits of the file's kind: 12 bits (linux/stat.h).
pub const MAX_MODE: u32 = 4_095;

/// How many nanoseconds a second has. A row has fewer.
pub const SECOND: u32 = 1_000_000_000;

/// The size of the head, before the words of the part with extended attributes, in bytes.
pub const PART_HEAD_SIZE: usize = 16;

/// The most bytes of the name of an extended attribute (`XATTR_NAME_MAX` of linux/limits.h).
pub const MAX_XATTR_NAME_SIZE: usize = 255;

/// The most bytes of its value (`XATTR_SIZE_MAX`).
pub const MAX_XATTR_SIZE: usize = 65_536;

/// The most bytes of all names of a file together, each with a zero byte (`XATTR_LIST_MAX`).
pub const MAX_XATTR_LIST_SIZE: usize = 65_536;

/// The most bytes of an access control list: Linux's FUSE requests no more.
pub const MAX_ACL_SIZE: usize = 4_096;
