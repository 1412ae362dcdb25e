//! What an image says about a file besides its header.

/// A row of an attribute trailer: owner, mode and time of the file whose header is at a place.
#[derive(Clone, Copy)]
pub struct AttributeRow {
    /// The place of the header, from the image's first byte on.
    pub place: u32,
    /// The low 12 bits of the mode: setuid, setgid, the sticky bit, and who may read, write and
    /// execute.
    pub mode: u32,
    pub uid: u32,
    pub gid: u32,
    /// When the file last changed, in seconds since 1970, as two's complement.
    pub seconds: u64,
    /// The nanoseconds after that second.
    pub nanoseconds: u32,
}
