//! The owner of a node.

/// A user and a group, by their numbers, as in stat(2). Every number is valid, including 2^32 - 1.
#[derive(Clone, Copy)]
pub struct Owner {
    /// The user's number.
    pub uid: u32,
    /// The group's number.
    pub gid: u32,
}

impl Owner {
    /// The superuser and its group.
    pub const ROOT: Owner = Owner { uid: 0, gid: 0 };
}
