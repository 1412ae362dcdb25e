//! File headers.

/// The kind of a file header (romfs.rst: the low three bits of its first word).
#[derive(Clone, Copy, PartialEq, Eq)]
pub enum Kind {
    HardLink,
    Directory,
    Regular,
    SymLink,
    Block,
    Character,
    Socket,
    Fifo,
}

/// A file header of an image. Offsets and sizes are in bytes.
#[derive(Clone, Copy, PartialEq, Eq)]
pub struct Head {
    /// The place of the header, from the image's first byte on.
    pub offset: u32,
    /// The header after it in its directory; 0 if there is none.
    pub next: u32,
    pub kind: Kind,
    /// Whether the file is executable.
    pub exec: bool,
    /// spec.info, unchanged: a hard link's destination, a directory's first header, a device's
    /// numbers.
    pub spec: u32,
    /// The size of its data.
    pub size: u32,
    /// The start of its name.
    pub name_at: u32,
    /// The length of its name, without the zero byte; 0 if the name has no end.
    pub name_len: u32,
}

/// Where a chain of hard links ends.
#[derive(Clone, Copy, PartialEq, Eq)]
pub enum End {
    /// At a directory.
    AtDirectory,
    /// At a header of any other kind, or outside the image.
    AtOther,
    /// It never leaves hard links.
    Nowhere,
}
