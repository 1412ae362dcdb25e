//! The first rule that an image breaks.

ghost use Rattle.std.specs.Prelude.{◌≡◌, false, IfOk, IsTrue};
ghost use Rattle.romfs_format.specs.Fields.{root as root_of};
ghost use Rattle.romfs_format.specs.Profiles.{asks_sums};
ghost use Rattle.romfs_rules.specs.InChains.{AreChains};
ghost use Rattle.romfs_rules.specs.SameNames.{HaveSameNamesIfAlone};
ghost use Rattle.romfs_rules.specs.Twice.{AreTwice};
ghost use Rattle.romfs_rules.specs.Judge.{IsHeaderFault, IsFaultBehindVolume, IsFaultToDepth};
ghost use Rattle.romfs_rules.specs.Plain.{KeepsPlainly};
ghost use Rattle.romfs_format.specs.Rules.{IsFaultOf};

use crate::chains::{Chains, find_chains};
use crate::depth::find_deep;
use crate::ends::find_ends;
use crate::judge::{Sets, fault_of};
use crate::outside::find_outside;
use crate::plain::is_plain_image;
use crate::same_names::find_same_names;
use crate::targets::mark_targets;
use crate::twice::find_twice;
use crate::volume::{Volume, image_of, volume_fault};
use romfs_format::{ImageFault, Profile};
use romfs_held::Held;
use romfs_held::read::{root_of, word};
use romfs_rows::trailer_fault;
use std::alloc::{AllocError, Allocator};

/// The fault of some bytes as an image, under a profile; none if they break none of its rules.
///
/// That is the first broken rule of the volume header; otherwise, of all broken rules of file
/// headers, the one at the least place, and the first there; otherwise a path of too many names, at
/// the least such header; otherwise, under a profile with attributes, a broken trailer, at its
/// start. Fails only if memory was refused.
///
/// It takes n log n steps in headers and one pass over the bytes of any image, or over those that
/// are kept of it. Beside them it takes at most a byte for each 40 of the image and 96 for each
/// header that is reached, and then the bytes of a trailer's second part; it keeps nothing.
pub fn first_fault<A: Allocator + Copy>(
    alloc: A,
    image: &Held<'_>,
    profile: Profile,
) -> Result<Option<ImageFault>, AllocError>
    ensures { IfOk result (IsFaultOf profile image.now) }
{
    let fault = fault_to_depth(alloc, image, profile)?;
    fault_with_attributes(alloc, image, profile, fault)
}

// The fault of an image, apart from its attributes.
fn fault_to_depth<A: Allocator + Copy>(
    alloc: A,
    image: &Held<'_>,
    profile: Profile,
) -> Result<Option<ImageFault>, AllocError>
    ensures { IfOk result (IsFaultToDepth profile image.now) }
{
    match volume_fault(image) {
        Some(fault) => Ok(Some(fault)),
        None => {
            let accessible = image_of(image, word(image, 8) as usize);
            let volume = Volume {
                bytes: &accessible,
                root: root_of(&accessible) as usize,
            };
            fault_in(alloc, &volume, profile)
        }
    }
}

// The fault of an image, if that before its attributes is known.
#[tactic(auto, using(crate::proofs::Verdict::long_enough))]
fn fault_with_attributes<A: Allocator>(
    alloc: A,
    image: &Held<'_>,
    profile: Profile,
    fault: Option<ImageFault>,
) -> Result<Option<ImageFault>, AllocError>
    requires before { IsFaultToDepth profile image.now fault }
    ensures { IfOk result (IsFaultOf profile image.now) }
{
    if fault.is_some() || !profile.reads_attributes() {
        return Ok(fault);
    }
    let found = trailer_fault(alloc, image)?;
    Ok(found)
}

// The fault of an image that keeps the rules of the volume header, from its accessible bytes, apart
// from its attributes; none if it breaks no other rule. Most images are plainly sound, and then no
// set is made.
fn fault_in<A: Allocator + Copy>(
    alloc: A,
    volume: &Volume,
    profile: Profile,
) -> Result<Option<ImageFault>, AllocError>
    ensures { IfOk result (IsFaultBehindVolume profile volume.now.bytes.now) }
{
    if is_plain_by(alloc, volume, profile)? {
        Ok(fault_of(None, None))
    } else {
        fault_by_sets(alloc, volume, profile)
    }
}

// Whether one walk finds that an image keeps all rules of headers. It does not check their sums, so
// never under a strict profile.
fn is_plain_by<A: Allocator + Copy>(
    alloc: A,
    volume: &Volume,
    profile: Profile,
) -> Result<bool, AllocError>
    ensures { IfOk result (λ plain. IsTrue plain →
        (asks_sums profile ≡ false) × KeepsPlainly volume.now.bytes.now) }
{
    if profile.asks_sums() {
        Ok(false)
    } else {
        is_plain_image(alloc, volume)
    }
}

// The result of [`fault_in`], from sets of the image's headers.
fn fault_by_sets<A: Allocator + Copy>(
    alloc: A,
    volume: &Volume,
    profile: Profile,
) -> Result<Option<ImageFault>, AllocError>
    ensures { IfOk result (IsFaultBehindVolume profile volume.now.bytes.now) }
{
    let header = find_header_fault(alloc, volume, profile)?;
    let deep = match header {
        Some(_) => None,
        None => find_deep(alloc, volume)?,
    };
    Ok(fault_of(header, deep))
}

// The first breach of a rule of file headers, by all sets of headers, which are made here.
fn find_header_fault<A: Allocator + Copy>(
    alloc: A,
    volume: &Volume,
    profile: Profile,
) -> Result<Option<ImageFault>, AllocError>
    ensures { IfOk result (IsHeaderFault profile volume.now.bytes.now) }
{
    let chains = find_chains(alloc, volume)?;
    let same_names = same_names_below(alloc, volume, &chains)?;
    let twice = find_twice(alloc, volume, &chains)?;
    find_header_fault_by_chains(alloc, volume, profile, &chains, &same_names, &twice)
}

// The headers whose name another member of their directory has at a lower place; none if the root
// is in another chain than its own, since then no fault of a name is the first.
fn same_names_below<A: Allocator + Copy>(
    alloc: A,
    volume: &Volume,
    chains: &Chains<A>,
) -> Result<Vec<u32, A>, AllocError>
    requires chains { AreChains volume.now.bytes.now chains.now }
    ensures { IfOk result (λ found. HaveSameNamesIfAlone volume.now.bytes.now found.items) }
{
    if chains.root_elsewhere {
        Ok(Vec::new(alloc))
    } else {
        find_same_names(alloc, volume, chains)
    }
}

// The first breach of a rule of file headers, from these sets of chains and from those of hard
// links, which are made here.
fn find_header_fault_by_chains<A: Allocator + Copy>(
    alloc: A,
    volume: &Volume,
    profile: Profile,
    chains: &Chains<A>,
    same_names: &[u32],
    twice: &[u32],
) -> Result<Option<ImageFault>, AllocError>
    requires chains { AreChains volume.now.bytes.now chains.now }
    requires same_names { HaveSameNamesIfAlone volume.now.bytes.now same_names.now }
    requires twice { AreTwice volume.now.bytes.now twice.now }
    ensures { IfOk result (IsHeaderFault profile volume.now.bytes.now) }
{
    let targets = mark_targets(alloc, volume, chains)?;
    let ends = find_ends(alloc, volume, &targets)?;
    let sets = Sets {
        volume,
        chains,
        targets: &targets,
        twice,
        same_names,
        ends: &ends,
        outside: find_outside(volume, chains, &targets),
    };
    Ok(sets.header_fault(profile))
}
