//! Headers and their slots.

ghost use Rattle.std.specs.Prelude.{◌≡◌, ◌<◌, ◌/◌, ◌⊎◌, ◌↔◌, ◌^◌, false, length, replicate, IfOk, IsTrue};
ghost use Rattle.romfs_format.specs.Fields.{IsInside};
ghost use Rattle.romfs_format.specs.Links.{IsHardLink};
ghost use Rattle.romfs_rules.specs.Marks.{IsMarked, IsFresh};

use crate::volume::Volume;
use romfs_format::head::Kind;
use romfs_format::limits::HEAD_SIZE;
use romfs_format::read::kind_of;
use romfs_held::read::word;
use romfs_sets::SlotSet;
use std::alloc::{AllocError, Allocator};

/// No marks, with room for one at each slot of an image.
pub(crate) fn no_marks<A: Allocator>(alloc: A, volume: &Volume) -> Result<SlotSet<A>, AllocError>
    ensures { IfOk result (λ marks. marks ≡ replicate (length volume.now.bytes.now / 16) false) }
{
    SlotSet::new(alloc, volume.bytes.len() / 16)
}

/// Whether a header lies in the image.
pub(crate) fn is_inside(volume: &Volume, at: usize) -> bool
    requires at { at < 2 ^ 32 }
    ensures { IsTrue result ↔ IsInside volume.now.bytes.now at }
{
    volume.root <= at && at + HEAD_SIZE <= volume.bytes.len()
}

/// Whether a header lies in the image, and has no mark.
pub(crate) fn is_fresh<A: Allocator>(volume: &Volume, at: usize, marks: &SlotSet<A>) -> bool
    requires at { at < 2 ^ 32 }
    requires sized { length marks.now ≡ length volume.now.bytes.now / 16 }
    ensures fresh { IsTrue result → IsFresh volume.now.bytes.now marks.now at }
    ensures stale { result ≡ false → (¬ IsInside volume.now.bytes.now at) ⊎ IsMarked marks.now at }
{
    is_inside(volume, at) && !marks.contains(at / 16)
}

/// Whether a header lies in the image and is a hard link.
pub(crate) fn is_hard_link(volume: &Volume, at: usize) -> bool
    requires at { at < 2 ^ 32 }
    ensures { IsTrue result ↔ IsHardLink volume.now.bytes.now at }
{
    is_inside(volume, at) && kind_of(word(volume.bytes, at)) == Kind::HardLink
}
