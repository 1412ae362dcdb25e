//! The ends of an image's hard links. They may lead to one another in chains that many share, so
//! each walk along a chain leaves its number at the headers that it passes, and a walk that comes
//! to another's number ends as that one did:
//!
//! ```text
//! 3 -> 3 -> 1 -> 1 -> file      the third walk stops at the first 1, and ends at a file
//! ```
//!
//! A walk that comes to its own number is in a loop, and ends nowhere. Each header is passed once.

ghost use Rattle.std.specs.Prelude.{◌≡◌, ℕ, List, ◌+◌, ◌*◌, ◌++◌, [], ◌∷◌, ◌<◌, ◌↔◌, ◌^◌, ◌/◌, length, get_or, replicate, true, false, IsTrue, IfOk};
ghost use Rattle.romfs_format.specs.Fields.{cleared};
ghost use Rattle.romfs_format.specs.Chains.{IsSomeMember};
ghost use Rattle.romfs_format.specs.Links.{IsHardLink, IsDirectory, IsTarget, EndsAs};
ghost use Rattle.romfs_rules.specs.Targets.{AreTargets};
ghost use Rattle.romfs_rules.specs.Ends.{HasEnds, AreWalkedEnds, KnowsEnd, Passes, IsUnpassed};

use crate::slot::{is_hard_link, is_inside};
use crate::volume::Volume;
use romfs_format::head::{End, Kind};
use romfs_format::read::{cleared, kind_of};
use romfs_held::read::word;
use romfs_sets::{SlotSet, SlotWords};
use std::alloc::{AllocError, Allocator};

/// The ends of the chains of the hard links that members' hard links lead over.
#[derive(Drop)]
pub(crate) struct WalkedEnds<'s, A: Allocator> {
    /// The number of the walk that passed each, from 1; 0 if none did.
    pub(crate) walks: SlotWords<'s, A>,
    /// The end of each walk.
    pub(crate) ends: Vec<End, A>,
}

impl<'s, A: Allocator> WalkedEnds<'s, A> {
    /// The end of the chain of a member that is a hard link.
    pub(crate) fn of_member(&self, volume: &Volume, at: usize) -> End
        requires ends { AreWalkedEnds volume.now.bytes.now self.now.walks self.now.ends.items }
        requires member { IsSomeMember volume.now.bytes.now at }
        requires hard { IsHardLink volume.now.bytes.now at }
        ensures { EndsAs volume.now.bytes.now at result }
    {
        let to = cleared(word(volume.bytes, at + 4)) as usize;
        if is_hard_link(volume, to) {
            self.at(to)
        } else {
            end_at(volume, to)
        }
    }

    // The end of the chain of one of these hard links.
    fn at(&self, at: usize) -> End
        requires { (a : List ℕ) × KnowsEnd a self.now.walks self.now.ends.items at }
        ensures { (a : List ℕ) → KnowsEnd a self.now.walks self.now.ends.items at
            → EndsAs a at result }
    {
        let walk = self.walks.at(at / 16);
        self.ends[walk as usize - 1]
    }

    // Follows each hard link of the set that no walk has passed.
    fn follow_all(&mut self, volume: &Volume, targets: &SlotSet<A>) -> Result<(), AllocError>
        requires targets { AreTargets volume.now.bytes.now targets.now }
        requires same { self.old.walks.slots ≡ targets.now }
        requires unpassed { self.old.walks.by_slot ≡ replicate (length targets.now) 0 }
        requires empty { self.old.ends.items ≡ [] }
        ensures { IfOk result
            (λ _. AreWalkedEnds volume.now.bytes.now self.new.walks self.new.ends.items) }
    {
        let mut from = 0;
        while let Some(slot) = targets.next_from(from) {
            from = slot + 1;
            if !is_left(volume, slot, &self.walks) {
                continue;
            }
            let end = end_of(volume, slot * 16, &mut self.walks, &self.ends);
            self.ends.push(end)?;
        }
        Ok(())
    }
}

/// Follows each hard link that members' hard links lead over to its end.
pub(crate) fn find_ends<'s, A: Allocator + Copy>(
    alloc: A,
    volume: &Volume,
    targets: &'s SlotSet<A>,
) -> Result<WalkedEnds<'s, A>, AllocError>
    requires targets { AreTargets volume.now.bytes.now targets.now }
    ensures { IfOk result (λ found.
        AreWalkedEnds volume.now.bytes.now found.walks found.ends.items) }
{
    let mut found = WalkedEnds {
        walks: SlotWords::new(alloc, targets)?,
        ends: Vec::new(alloc),
    };
    found.follow_all(volume, targets)?;
    Ok(found)
}

// Whether a slot holds a hard link that no walk passed.
fn is_left<A: Allocator>(volume: &Volume, slot: usize, walks: &SlotWords<A>) -> bool
    requires slot { slot < length volume.now.bytes.now / 16 }
    requires there { get_or walks.now.slots slot false ≡ true }
    ensures { IsTrue result ↔ IsUnpassed volume.now.bytes.now walks.now.by_slot slot }
{
    walks.at(slot) == 0 && is_hard_link(volume, slot * 16)
}

// The end of the chain of a hard link. Marks each hard link on the way with the number of this
// walk, up to one that an earlier walk passed.
fn end_of<A: Allocator>(volume: &Volume, from: usize, walks: &mut SlotWords<A>, ends: &[End]) -> End
    requires aligned { cleared from ≡ from }
    requires hard { IsHardLink volume.now.bytes.now from }
    requires target { IsTarget volume.now.bytes.now from }
    requires targets { AreTargets volume.now.bytes.now walks.old.slots }
    requires sized { length walks.old.by_slot ≡ length volume.now.bytes.now / 16 }
    requires few { length ends.now + 1 < 2 ^ 32 }
    requires known { HasEnds volume.now.bytes.now walks.old.by_slot ends.now }
    ensures end { EndsAs volume.now.bytes.now from result }
    ensures known { HasEnds volume.now.bytes.now walks.new.by_slot (ends.now ++ result ∷ []) }
    ensures passes { Passes from walks.old.by_slot walks.new.by_slot }
    ensures same { walks.new.slots ≡ walks.old.slots }
{
    let mine = ends.len() as u32 + 1;
    let mut at = from;
    while is_hard_link(volume, at) {
        let walk = walks.at(at / 16);
        if walk == mine {
            return End::Nowhere;
        }
        if walk != 0 {
            return ends[walk as usize - 1];
        }
        walks.put(at / 16, mine);
        at = cleared(word(volume.bytes, at + 4)) as usize;
    }
    end_at(volume, at)
}

// The end of a chain at a header that is not a hard link.
fn end_at(volume: &Volume, at: usize) -> End
    requires at { at < 2 ^ 32 }
    requires last { ¬ IsHardLink volume.now.bytes.now at }
    ensures { EndsAs volume.now.bytes.now at result }
{
    if is_directory(volume, at) {
        End::AtDirectory
    } else {
        End::AtOther
    }
}

// Whether a header lies in the image and is a directory.
fn is_directory(volume: &Volume, at: usize) -> bool
    requires at { at < 2 ^ 32 }
    ensures { IsTrue result ↔ IsDirectory volume.now.bytes.now at }
{
    is_inside(volume, at) && kind_of(word(volume.bytes, at)) == Kind::Directory
}
