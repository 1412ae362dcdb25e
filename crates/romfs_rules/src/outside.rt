//! Headers that are reached, and lie outside the image.
//!
//! Only the least on each side can be the first fault, so two numbers are kept and no set. Each
//! reached header but the root's is named by one inside, so one scan over the headers inside is
//! enough.

ghost use Rattle.std.specs.Prelude.{◌≡◌, ◌*◌, ◌/◌, ◌<◌, ◌⊎◌, ◌↔◌, IsTrue};
ghost use Rattle.romfs_format.specs.Chains.{IsSomeMember};
ghost use Rattle.romfs_format.specs.Links.{IsTarget};
ghost use Rattle.romfs_rules.specs.Targets.{AreTargets};
ghost use Rattle.romfs_rules.specs.Marks.{HasSlot};
ghost use Rattle.romfs_rules.specs.InChains.{AreChains};
ghost use Rattle.romfs_rules.specs.Leads.{IsTheOne};
ghost use Rattle.romfs_rules.specs.Outside.{IsLeastBelow, IsLeastPastEnd, Names, NamesBySpec, NamesDestination, lesser, NotesOnBoth};

use crate::chains::Chains;
use crate::lead::destination_of;
use crate::link::{first_link, next_link};
use crate::member::is_some_member;
use crate::slot::{is_hard_link, is_inside};
use crate::volume::Volume;
use romfs_format::limits::HEAD_SIZE;
use romfs_format::read::cleared;
use romfs_held::read::word;
use romfs_sets::SlotSet;
use std::alloc::Allocator;
use std::marker::Model;

/// The least places outside the image at which headers are reached.
#[derive(Clone, Copy)]
pub(crate) struct Outside {
    /// The least below the root's header.
    pub below: Option<u32>,
    /// The least of those from the root's header on.
    pub above: Option<u32>,
}

/// Finds the least headers outside the image that are reached, on either side.
pub(crate) fn find_outside<A: Allocator>(
    volume: &Volume,
    chains: &Chains<A>,
    targets: &SlotSet<A>,
) -> Outside
    requires chains { AreChains volume.now.bytes.now chains.now }
    requires targets { AreTargets volume.now.bytes.now targets.now }
    ensures below { IsLeastBelow volume.now.bytes.now result.below }
    ensures above { IsLeastPastEnd volume.now.bytes.now result.above }
{
    let known = Known {
        volume,
        chains,
        targets,
    };
    let none = Outside {
        below: None,
        above: None,
    };
    let mut found = known.note_named(none, volume.root);
    let mut from = volume.root / 16 + 1;
    while let Some(slot) = chains.headers.next_of_either(targets, from) {
        found = known.note_named(found, slot * 16);
        from = slot + 1;
    }
    found
}

// What gives the destinations of headers. A clause sees the image.
#[derive(Drop)]
struct Known<'k, A: Allocator> {
    volume: &'k Volume<'k>,
    /// The headers in chains.
    chains: &'k Chains<A>,
    /// Those that the hard links of members lead over.
    targets: &'k SlotSet<A>,
}

impl<'k, A: Allocator> Model for Known<'k, A> {
    ghost use Rattle.std.specs.Prelude.{ℕ, List};
    ghost use Rattle.romfs_rules.specs.InChains.{AreChains};
    ghost use Rattle.romfs_rules.specs.Targets.{AreTargets};

    ghost Value = { List ℕ };

    ghost view = { λ held. held.volume.now.bytes.now };

    ghost invariant = { λ held. AreChains held.volume.now.bytes.now held.chains.now
        × AreTargets held.volume.now.bytes.now held.targets.now };
}

impl<'k, A: Allocator> Known<'k, A> {
    // What is found when the headers that a header leads to are added.
    #[inline(always)]
    fn note_named(&self, found: Outside, at: usize) -> Outside
        requires { HasSlot self.now at }
        ensures { NotesOnBoth self.now (Names self.now at) found result }
    {
        let next = next_link(self.volume, at, self.chains);
        let with_next = note(found, self.volume, next);
        self.note_spec(with_next, at)
    }

    // What is found when the headers that a header's spec.info leads to are added. Most lie in the
    // image, and then whether it leads there is not checked.
    #[inline(always)]
    fn note_spec(&self, found: Outside, at: usize) -> Outside
        requires { HasSlot self.now at }
        ensures { NotesOnBoth self.now (NamesBySpec self.now at) found result }
    {
        let named = cleared(word(self.volume.bytes, at + 4)) as usize;
        if is_inside(self.volume, named) {
            return found;
        }
        let first = first_link(self.volume, at, self.chains);
        let destination = self.destination(at);
        let with_first = note(found, self.volume, first);
        note(with_first, self.volume, destination)
    }

    // The destination of a hard link that is a member, or that a member's hard link leads over.
    #[inline(always)]
    fn destination(&self, at: usize) -> Option<u32>
        requires { HasSlot self.now at }
        ensures { IsTheOne (NamesDestination self.now at) result }
    {
        if !is_hard_link(self.volume, at) {
            return None;
        }
        if self.is_asked(at) {
            destination_of(self.volume, at)
        } else {
            None
        }
    }

    // Whether a header is a member, or a member's hard link leads over it.
    #[inline(always)]
    fn is_asked(&self, at: usize) -> bool
        requires { HasSlot self.now at }
        ensures { IsTrue result ↔ (IsSomeMember self.now at ⊎ IsTarget self.now at) }
    {
        self.targets.contains(at / 16) || is_some_member(self.volume, at, self.chains)
    }
}

// What is found when a header is added, if there is one.
#[tactic(auto, using(crate::proofs::Reach::notes))]
#[inline(always)]
fn note(found: Outside, volume: &Volume, word: Option<u32>) -> Outside
    ensures { NotesOnBoth volume.now.bytes.now (λ h. word ≡ Some h) found result }
{
    let Some(word) = word else {
        return found;
    };
    let at = word as usize;
    if at < volume.root {
        Outside {
            below: Some(lesser(found.below, word)),
            above: found.above,
        }
    } else if volume.bytes.len() < at + HEAD_SIZE {
        Outside {
            below: found.below,
            above: Some(lesser(found.above, word)),
        }
    } else {
        found
    }
}

// The lesser of a word and the one found before.
fn lesser(found: Option<u32>, word: u32) -> u32
    ensures { result ≡ lesser found word }
{
    match found {
        Some(least) if least <= word => least,
        _ => word,
    }
}
