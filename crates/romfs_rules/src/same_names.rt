//! Members of a directory that have the name of another.
//!
//! Chains may merge and loop, so a header may be in the chains of many directories, and to compare
//! the names of each chain on its own would be quadratic. But each header leads on to one, in any
//! chain. The headers are therefore numbered, equal names are one class (`romfs_sets`), and
//! `romfs_sets` notes the numbers with a lower one of their class on their way or before them. If
//! no two names are equal, there is nothing to climb.

ghost use Rattle.std.specs.Prelude.{◌+◌, ◌/◌, ◌^◌, ◌<◌, ◌≤◌, ℕ, IfOk, length, get_or};
ghost use Rattle.romfs_rules.specs.Marks.{HasRootElsewhere};
ghost use Rattle.romfs_rules.specs.InChains.{AreChains};
ghost use Rattle.romfs_rules.specs.Names.{AreClassesOf};
ghost use Rattle.romfs_rules.specs.SameNames.{IsLinked, AreNumbered, IsNextNumber, AreNextNumbers, AreChosen, HaveSameNames};
ghost use Rattle.romfs_sets.specs.Listed.{AreCollected};

use crate::chains::Chains;
use crate::names::name_classes_of;
use crate::slot::is_inside;
use crate::volume::Volume;
use romfs_format::read::cleared;
use romfs_held::read::word;
use romfs_sets::{SlotNumbers, note_repeats, places_of};
use std::alloc::{AllocError, Allocator};

/// The members that have the name of another member of their directory at a lower place, in the
/// order of their places.
pub(crate) fn find_same_names<A: Allocator + Copy>(
    alloc: A,
    volume: &Volume,
    chains: &Chains<A>,
) -> Result<Vec<u32, A>, AllocError>
    requires chains { AreChains volume.now.bytes.now chains.now }
    requires alone { ¬ HasRootElsewhere volume.now.bytes.now }
    ensures { IfOk result (λ found. HaveSameNames volume.now.bytes.now found.items) }
{
    let heads = places_of(alloc, &chains.headers)?;
    match name_classes_of(alloc, volume, &heads)? {
        None => Ok(Vec::new(alloc)),
        Some(class) => same_names_by(alloc, volume, chains, &heads, class),
    }
}

// Those of these headers that have the name of another member of their directory at a lower place,
// by their classes.
fn same_names_by<A: Allocator + Copy>(
    alloc: A,
    volume: &Volume,
    chains: &Chains<A>,
    heads: &[u32],
    class: Vec<u32, A>,
) -> Result<Vec<u32, A>, AllocError>
    requires chains { AreChains volume.now.bytes.now chains.now }
    requires alone { ¬ HasRootElsewhere volume.now.bytes.now }
    requires heads { AreCollected chains.now.headers (length chains.now.headers) heads.now }
    requires class { AreClassesOf volume.now.bytes.now heads.now class.items }
    ensures { IfOk result (λ found. HaveSameNames volume.now.bytes.now found.items) }
{
    let numbers = SlotNumbers::of(alloc, &chains.headers)?;
    let next = next_numbers(alloc, volume, heads, &numbers)?;
    drop(numbers);
    let noted = note_repeats(alloc, next, class)?;
    chosen(alloc, heads, &noted)
}

// The number of the header after each, and one more, for none, that leads to itself.
fn next_numbers<A: Allocator + Copy>(
    alloc: A,
    volume: &Volume,
    heads: &[u32],
    numbers: &SlotNumbers<A>,
) -> Result<Vec<u32, A>, AllocError>
    requires few { length heads.now < 2 ^ 32 }
    requires numbered { AreNumbered volume.now.bytes.now heads.now numbers.now }
    ensures { IfOk result (λ next. AreNextNumbers volume.now.bytes.now heads.now next.items) }
{
    let mut next = Vec::with_capacity(alloc, heads.len() + 1)?;
    for at in heads {
        next.push(next_number(volume, heads, numbers, *at as usize))?;
    }
    next.push(heads.len() as u32)?;
    Ok(next)
}

// The number of the header after one, or the count of headers if there is none inside the image.
fn next_number<A: Allocator>(
    volume: &Volume,
    heads: &[u32],
    numbers: &SlotNumbers<A>,
    at: usize,
) -> u32
    requires few { length heads.now < 2 ^ 32 }
    requires numbered { AreNumbered volume.now.bytes.now heads.now numbers.now }
    requires at { IsLinked volume.now.bytes.now at }
    ensures { IsNextNumber volume.now.bytes.now heads.now at result }
{
    let after = cleared(word(volume.bytes, at)) as usize;
    if after != 0 && is_inside(volume, after) {
        numbers.number(after / 16)
    } else {
        heads.len() as u32
    }
}

// Those of the headers that are noted.
fn chosen<A: Allocator>(alloc: A, heads: &[u32], noted: &[bool]) -> Result<Vec<u32, A>, AllocError>
    requires sized { length heads.now ≤ length noted.now }
    requires rising { (i j : ℕ) → i < j → j < length heads.now →
        get_or heads.now i 0 < get_or heads.now j 0 }
    ensures { IfOk result (λ found. AreChosen heads.now noted.now (length heads.now) found.items) }
{
    let mut found = Vec::new(alloc);
    for (number, head) in heads.iter().enumerate() {
        if noted[number] {
            found.push(*head)?;
        }
    }
    Ok(found)
}
