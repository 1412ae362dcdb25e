//! The headers that two links name.
//!
//! Two sets are enough: a header that a link names goes into the first, and into the second if the
//! first held it. The links of the root's header and of each in a chain are read once.

ghost use Rattle.std.specs.Prelude.{◌≡◌, ◌+◌, ◌*◌, ◌<◌, ◌/◌, length, IfOk};
ghost use Rattle.romfs_format.specs.Rules.{IsLinkedTwice};
ghost use Rattle.romfs_rules.specs.Marks.{HasSlot, AreMarks};
ghost use Rattle.romfs_rules.specs.InChains.{AreChains};
ghost use Rattle.romfs_rules.specs.Twice.{AreTwice, Counts, CountsBoth};

use crate::chains::Chains;
use crate::link::{first_link, next_link};
use crate::slot::{is_inside, no_marks};
use crate::volume::Volume;
use romfs_sets::{SlotSet, places_of};
use std::alloc::{AllocError, Allocator};

/// The headers that two links name, rising.
pub(crate) fn find_twice<A: Allocator + Copy>(
    alloc: A,
    volume: &Volume,
    chains: &Chains<A>,
) -> Result<Vec<u32, A>, AllocError>
    requires chains { AreChains volume.now.bytes.now chains.now }
    ensures { IfOk result (λ found. AreTwice volume.now.bytes.now found.items) }
{
    let twice = mark_twice(alloc, volume, chains)?;
    places_of(alloc, &twice)
}

// Marks the headers that two links name.
fn mark_twice<A: Allocator + Copy>(
    alloc: A,
    volume: &Volume,
    chains: &Chains<A>,
) -> Result<SlotSet<A>, AllocError>
    requires chains { AreChains volume.now.bytes.now chains.now }
    ensures { IfOk result (λ marks.
        AreMarks volume.now.bytes.now (IsLinkedTwice volume.now.bytes.now) marks) }
{
    let mut once = no_marks(alloc, volume)?;
    let mut twice = no_marks(alloc, volume)?;
    count_links(volume, volume.root, chains, &mut once, &mut twice);
    let mut from = volume.root / 16 + 1;
    while let Some(slot) = chains.headers.next_from(from) {
        count_links(volume, slot * 16, chains, &mut once, &mut twice);
        from = slot + 1;
    }
    Ok(twice)
}

// Counts the links of a header's fields.
#[inline(always)]
fn count_links<A: Allocator>(
    volume: &Volume,
    at: usize,
    chains: &Chains<A>,
    once: &mut SlotSet<A>,
    twice: &mut SlotSet<A>,
)
    requires slot { HasSlot volume.now.bytes.now at }
    requires chains { AreChains volume.now.bytes.now chains.now }
    requires once { length once.old ≡ length volume.now.bytes.now / 16 }
    requires twice { length twice.old ≡ length volume.now.bytes.now / 16 }
    ensures { CountsBoth volume.now.bytes.now at once.old twice.old once.new twice.new }
{
    let next = next_link(volume, at, chains);
    count_link(volume, next, once, twice);
    let first = first_link(volume, at, chains);
    count_link(volume, first, once, twice);
}

// Counts a link to a header, if it lies in the image.
#[inline(always)]
fn count_link<A: Allocator>(
    volume: &Volume,
    to: Option<u32>,
    once: &mut SlotSet<A>,
    twice: &mut SlotSet<A>,
)
    requires once { length once.old ≡ length volume.now.bytes.now / 16 }
    requires twice { length twice.old ≡ length volume.now.bytes.now / 16 }
    ensures { Counts volume.now.bytes.now to once.old twice.old once.new twice.new }
{
    let Some(to) = to else {
        return;
    };
    let at = to as usize;
    if !is_inside(volume, at) {
        return;
    }
    if once.contains(at / 16) {
        twice.insert(at / 16);
    } else {
        once.insert(at / 16);
    }
}
