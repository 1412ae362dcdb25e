//! The attributes of a node.

/// The attributes of a node, as defined by stat(2) and linux/fuse.h (`struct fuse_attr`).
#[derive(Clone, Copy)]
pub struct Attr {
    /// The node's number.
    pub ino: u64,
    /// In bytes.
    pub size: u64,
    /// In blocks of 512 bytes, rounded up.
    pub blocks: u64,
    /// When the node was last changed, in seconds since 1970; before that in two's complement.
    pub seconds: u64,
    /// The nanoseconds of that time after its seconds, below 10^9.
    pub nanoseconds: u32,
    /// Type and permissions.
    pub mode: u32,
    /// How many paths show the node; for a directory 2 plus the number of directories in it.
    pub nlink: u32,
    /// The number of the user that the node belongs to.
    pub uid: u32,
    /// The number of its group.
    pub gid: u32,
    /// The numbers of a device, as the kernel's new_encode_dev encodes them; 0 for other kinds.
    pub rdev: u32,
}
