//! Values of paths: an entry with its place, or a mark.

ghost use Rattle.std.specs.Prelude.{◌≡◌};
ghost use Rattle.stack_model.specs.Attributes.{is_directory};

use crate::Lay;
use romfs_format::Kind;

/// The place of an entry: a layer, counted from 0, the lowest, and the offset of a header in the
/// layer's image, after hard links.
#[derive(Clone, Copy, PartialEq, Eq, Drop)]
pub struct Place {
    pub layer: u16,
    pub header: u32,
}

/// What a path shows: its place, and what the header there says about its file, so the header is
/// not read again.
#[derive(Clone, Copy, PartialEq, Eq, Drop)]
pub struct Entry {
    /// The kind of the header; never a hard link.
    pub kind: Kind,
    /// Whether the file is executable.
    pub exec: bool,
    pub place: Place,
    /// spec.info, unchanged: the numbers of a device.
    pub spec: u32,
    /// The size of its data, in bytes.
    pub size: u32,
    /// The length of the header's own name, which precedes its data.
    pub name_len: u32,
}

/// What layers remove from those below them (OCI image specification, layer chapter, "Whiteouts").
#[derive(Clone, Copy, Drop)]
pub struct Mark {
    /// The path itself and everything below it.
    pub cut: bool,
    /// Everything below the path.
    pub opaque: bool,
}

/// What removes its path, or what is below it.
pub trait Cuts: Copy + Drop {
    ghost use Rattle.layer_paths.specs.declared.entries.Mark.{Mark};

    ghost removed: { Self → Mark };

    /// What it removes.
    fn mark(self) -> Mark
        ensures { result ≡ removed self };
}

impl Cuts for Mark {
    ghost removed = { λ m. m };

    fn mark(self) -> Mark {
        self
    }
}

impl Cuts for Entry {
    ghost use Rattle.layer_paths.specs.Marks.{mark_of};

    ghost removed = { mark_of };

    fn mark(self) -> Mark {
        Mark {
            cut: !is_directory(self.kind),
            opaque: false,
        }
    }
}

/// The upper entry replaces the lower one.
impl Lay for Entry {
    ghost use Rattle.layer_paths.specs.Marks.{upper};

    ghost laid = { upper };

    fn lay(_low: Entry, high: Entry) -> Entry {
        high
    }
}

/// Marks are united.
impl Lay for Mark {
    ghost use Rattle.layer_paths.specs.Marks.{united};

    ghost laid = { united };

    fn lay(low: Mark, high: Mark) -> Mark {
        Mark {
            cut: low.cut || high.cut,
            opaque: low.opaque || high.opaque,
        }
    }
}

// Whether the kind is a directory's.
fn is_directory(kind: Kind) -> bool
    ensures { result ≡ is_directory kind }
{
    kind == Kind::Directory
}
