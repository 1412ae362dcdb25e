//! Where a header leads.

ghost use Rattle.std.specs.Prelude.{◌≡◌, ◌<◌};
ghost use Rattle.romfs_format.specs.Fields.{IsInside, next as next_at};
ghost use Rattle.romfs_format.specs.Chains.{IsFirst, IsNext};
ghost use Rattle.romfs_format.specs.Links.{IsHardLink, destination};
ghost use Rattle.romfs_rules.specs.Leads.{IsTheOne, IsFirstBelow};

use crate::member::opens;
use crate::volume::Volume;
use romfs_format::head::Kind;
use romfs_format::read::{cleared, kind_of};
use romfs_held::read::word;

/// The header after a header in its chain.
#[inline(always)]
pub(crate) fn next_of(volume: &Volume, at: usize) -> Option<u32>
    requires inside { IsInside volume.now.bytes.now at }
    ensures { IsTheOne (IsNext volume.now.bytes.now at) result }
{
    next_by(volume, at, cleared(word(volume.bytes, at)))
}

/// The same, by the place that its first word has.
#[tactic(auto, using(crate::proofs::Leads::next_none, crate::proofs::Leads::next_some))]
#[inline(always)]
pub(crate) fn next_by(volume: &Volume, at: usize, next: u32) -> Option<u32>
    requires inside { IsInside volume.now.bytes.now at }
    requires next { next ≡ next_at volume.now.bytes.now at }
    ensures { IsTheOne (IsNext volume.now.bytes.now at) result }
{
    // only the clauses name the image
    let _ = volume;
    if next == 0 { None } else { Some(next) }
}

/// The first header of a directory.
#[tactic(auto, using(crate::proofs::Leads::firsts))]
#[inline(always)]
pub(crate) fn first_of(volume: &Volume, at: usize) -> Option<u32>
    requires inside { IsInside volume.now.bytes.now at }
    ensures { IsTheOne (IsFirst volume.now.bytes.now at) result }
{
    let first = cleared(word(volume.bytes, at + 4));
    if first == 0 {
        return None;
    }
    if first as usize == at && at != volume.root {
        None
    } else {
        Some(first)
    }
}

/// The first header of a header that opens as a directory, unless it is the root's.
#[tactic(auto, using(crate::proofs::Leads::downs))]
#[inline(always)]
pub(crate) fn first_below(volume: &Volume, at: usize) -> Option<u32>
    requires inside { IsInside volume.now.bytes.now at }
    ensures { IsTheOne (IsFirstBelow volume.now.bytes.now at) result }
{
    if at == volume.root || !opens(volume, at) {
        return None;
    }
    first_of(volume, at)
}

/// The destination of a hard link.
#[tactic(auto, using(crate::proofs::Leads::hard_some, crate::proofs::Leads::hard_none))]
pub(crate) fn destination_of(volume: &Volume, at: usize) -> Option<u32>
    requires inside { IsInside volume.now.bytes.now at }
    ensures { IsTheOne (λ g. IsHardLink volume.now.bytes.now at
        × (g ≡ destination volume.now.bytes.now at)) result }
{
    if kind_of(word(volume.bytes, at)) == Kind::HardLink {
        Some(cleared(word(volume.bytes, at + 4)))
    } else {
        None
    }
}
