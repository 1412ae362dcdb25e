//! The numbers of an access control list as an extended attribute holds it
//! (linux/posix_acl_xattr.h, linux/posix_acl.h).

/// The version that it begins with.
pub const VERSION: u32 = 2;

/// The tag of the entry for the file's owner.
pub const USER_OBJ: u32 = 1;

/// The tag of an entry for a named user.
pub const USER: u32 = 2;

/// The tag of the entry for the file's group.
pub const GROUP_OBJ: u32 = 4;

/// The tag of an entry for a named group.
pub const GROUP: u32 = 8;

/// The tag of the entry that limits those for named users and for groups.
pub const MASK: u32 = 16;

/// The tag of the entry for all others.
pub const OTHER: u32 = 32;

/// The id of an entry that names no user or group.
pub const UNDEFINED_ID: u32 = 0xffff_ffff;
