//! The headers on the destination chains of hard links.
//!
//! Such chains may meet or loop. A hard link with a mark has its destination marked too, as far as
//! that lies in the image, so a walk stops at a mark, and each header is marked once.

ghost use Rattle.std.specs.Prelude.{◌≡◌, ◌<◌, ◌/◌, ◌^◌, length, IfOk};
ghost use Rattle.romfs_rules.specs.InChains.{AreChains};
ghost use Rattle.romfs_rules.specs.Targets.{AreTargets, IsClosed, FollowsLink};

use crate::chains::Chains;
use crate::member::is_some_member;
use crate::slot::{is_fresh, is_hard_link, no_marks};
use crate::volume::Volume;
use romfs_format::read::cleared;
use romfs_held::read::word;
use romfs_sets::SlotSet;
use std::alloc::{AllocError, Allocator};

/// Marks the headers on the destination chains of members that are hard links.
pub(crate) fn mark_targets<A: Allocator + Copy>(
    alloc: A,
    volume: &Volume,
    chains: &Chains<A>,
) -> Result<SlotSet<A>, AllocError>
    requires chains { AreChains volume.now.bytes.now chains.now }
    ensures { IfOk result (AreTargets volume.now.bytes.now) }
{
    let mut marks = no_marks(alloc, volume)?;
    let mut from = 0;
    while let Some(slot) = chains.headers.next_from(from) {
        let at = slot * 16;
        if is_hard_link(volume, at) && is_some_member(volume, at, chains) {
            mark_destinations(volume, at, &mut marks);
        }
        from = slot + 1;
    }
    Ok(marks)
}

// Marks the headers on the destination chain of a header, up to one that has a mark.
fn mark_destinations<A: Allocator>(volume: &Volume, from: usize, marks: &mut SlotSet<A>)
    requires from { from < 2 ^ 32 }
    requires sized { length marks.old ≡ length volume.now.bytes.now / 16 }
    requires closed { IsClosed volume.now.bytes.now marks.old }
    ensures follows { FollowsLink volume.now.bytes.now from marks.old marks.new }
    ensures closed { IsClosed volume.now.bytes.now marks.new }
{
    let mut at = from;
    while is_hard_link(volume, at) {
        at = cleared(word(volume.bytes, at + 4)) as usize;
        if !is_fresh(volume, at, marks) {
            return;
        }
        marks.insert(at / 16);
    }
}
