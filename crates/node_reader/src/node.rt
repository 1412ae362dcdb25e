//! What a table keeps about a node.

use layer_paths::Place;
use romfs_reader::{Kind, Part};

/// A node: the file at one place of the stack, under any number of paths.
#[derive(Clone, Copy)]
pub struct Node {
    /// Its kind, which is never a hard link.
    pub kind: Kind,
    /// Whether its header says that it is executable.
    pub exec: bool,
    pub place: Place,
    /// The place of its data in the image of its layer.
    pub part: Part,
    /// Type and permissions, from the header; 0 until the node is completed.
    pub mode: u16,
    pub nlink: u32,
    /// The numbers of a device; until the node is completed, its header's spec.info.
    pub rdev: u32,
    /// The position of a directory among all directories; meaningless for other kinds.
    pub directory: usize,
}

/// The attributes of a node without its number and its `Stamp`, in 16 bytes. A cache line holds
/// those of four nodes, so requests for attributes in any order hit the cache more often than with
/// whole nodes. The mode is the row's, if there is one.
#[derive(Clone, Copy)]
pub(crate) struct Brief {
    pub(crate) size: u32,
    pub(crate) nlink: u32,
    pub(crate) rdev: u32,
    pub(crate) mode: u16,
}
