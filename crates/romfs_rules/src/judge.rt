//! The first rule of file headers that an image breaks, from sets of its headers.
//!
//! The reached headers are scanned once, upward. Each is made a `Header`, for which all sets are
//! queried; the scan ends at the first that breaks a rule.

ghost use Rattle.std.specs.Prelude.{◌≡◌, ℕ, List, ◌*◌, ◌<◌, ◌↔◌, ◌/◌, length, IsTrue, MatchOption};
ghost use Rattle.romfs_format.specs.declared.rule.Profile.TheVariants.{Usual};
ghost use Rattle.romfs_format.specs.Fields.{image};
ghost use Rattle.romfs_format.specs.Chains.{IsSomeMember};
ghost use Rattle.romfs_format.specs.Rules.{IsVolume, IsUsed, BreaksHeader};
ghost use Rattle.romfs_rules.specs.Marks.{HasSlot};
ghost use Rattle.romfs_rules.specs.Headers.{IsAsked, IsEndOfMember};
ghost use Rattle.romfs_rules.specs.Judge.{KeepsBelow, IsFirstInside, IsHeaderFault, IsDeepFault};
ghost use Rattle.romfs_rules.specs.Judge.{IsFaultToDepth};

use crate::chains::Chains;
use crate::ends::WalkedEnds;
use crate::header::Header;
use crate::member::is_member_by;
use crate::outside::Outside;
use crate::slot::is_hard_link;
use crate::volume::Volume;
use romfs_format::head::End;
use romfs_format::limits::HEAD_SIZE;
use romfs_format::rule::{ImageFault, Profile, Rule};
use romfs_held::read::text_at;
use romfs_sets::{SlotSet, is_listed};
use std::alloc::Allocator;
use std::marker::Model;

/// The sets of headers that the rules are judged by. A clause sees the image.
#[derive(Drop)]
pub(crate) struct Sets<'s, A: Allocator> {
    pub(crate) volume: &'s Volume<'s>,
    /// The headers in chains.
    pub(crate) chains: &'s Chains<A>,
    /// Those that the hard links of members lead over.
    pub(crate) targets: &'s SlotSet<A>,
    /// Those that two links name, rising.
    pub(crate) twice: &'s [u32],
    /// Those whose name a member of the same directory has at a lower place, rising. It may be
    /// empty if the root's header is in the chain of another directory.
    pub(crate) same_names: &'s [u32],
    /// The ends of members' hard links.
    pub(crate) ends: &'s WalkedEnds<'s, A>,
    /// The least of those that lie outside the image.
    pub(crate) outside: Outside,
}

impl<'s, A: Allocator> Model for Sets<'s, A> {
    ghost use Rattle.std.specs.Prelude.{ℕ, List};

    ghost Value = { List ℕ };

    ghost use Rattle.romfs_rules.specs.Sets.{AreSets};

    ghost view = { λ held. held.volume.now.bytes.now };

    ghost invariant = { λ held. AreSets held.volume.now.bytes.now held };
}

impl<'s, A: Allocator> Sets<'s, A> {
    /// The first breach of a rule of file headers.
    pub(crate) fn header_fault(&self, profile: Profile) -> Option<ImageFault>
        ensures { IsHeaderFault profile self.now result }
    {
        if let Some(place) = self.outside.below {
            return Some(ImageFault {
                rule: Rule::Outside,
                place,
            });
        }
        if let Some(fault) = self.fault_inside(profile) {
            return Some(fault);
        }
        match self.outside.above {
            Some(place) => Some(ImageFault {
                rule: Rule::Outside,
                place,
            }),
            None => None,
        }
    }

    // The first header inside the image that breaks a rule of file headers, and the first rule that
    // it breaks.
    fn fault_inside(&self, profile: Profile) -> Option<ImageFault>
        ensures { MatchOption result (KeepsBelow profile self.now (length self.now))
            (λ f. IsFirstInside profile self.now f.rule f.place) }
    {
        if let Some(fault) = self.header(self.volume.root).fault(profile) {
            return Some(fault);
        }
        let mut from = self.volume.root / 16 + 1;
        while let Some(slot) = self.chains.headers.next_of_either(self.targets, from) {
            if let Some(fault) = self.header(slot * 16).fault(profile) {
                return Some(fault);
            }
            from = slot + 1;
        }
        None
    }

    // A header that the scan comes to.
    fn header(&self, at: usize) -> Header<'_>
        requires { IsAsked self.now at }
        ensures image { result.image ≡ self.now }
        ensures at { result.at ≡ at }
    {
        let name = text_at(self.volume.bytes, at + HEAD_SIZE);
        let member = is_member_by(self.volume, at, name, self.chains);
        Header {
            volume: self.volume,
            at,
            name,
            member,
            used: self.is_used(at, member),
            twice: self.is_twice(at),
            same_name: is_listed(self.same_names, at),
            end: self.end_of(at, member),
        }
    }

    // Whether a header is a member, or a member's hard links lead over it.
    fn is_used(&self, at: usize, member: bool) -> bool
        requires slot { HasSlot self.now at }
        requires member { IsTrue member ↔ IsSomeMember self.now at }
        ensures { IsTrue result ↔ IsUsed self.now at }
    {
        member || self.targets.contains(at / 16)
    }

    // Whether two links name a header, or another directory's chain holds the root's.
    fn is_twice(&self, at: usize) -> bool
        requires { HasSlot self.now at }
        ensures { IsTrue result ↔ BreaksHeader Usual self.now Rule.LinkedTwice at }
    {
        is_listed(self.twice, at) || at == self.volume.root && self.chains.root_elsewhere
    }

    // The end of a header's hard links, if it is a member and a hard link.
    fn end_of(&self, at: usize, member: bool) -> Option<End>
        requires slot { HasSlot self.now at }
        requires member { IsTrue member ↔ IsSomeMember self.now at }
        ensures { IsEndOfMember self.now at result }
    {
        if is_hard_link(self.volume, at) && member {
            Some(self.ends.of_member(self.volume, at))
        } else {
            None
        }
    }
}

/// The fault of an image that keeps the rules of the volume header, apart from its attributes: its
/// first breach of a rule of file headers, or else its least header that is too deep.
pub(crate) fn fault_of(header: Option<ImageFault>, deep: Option<u32>) -> Option<ImageFault>
    ensures { (profile : Profile) (b : List ℕ) → IsVolume b → IsHeaderFault profile (image b) header
        → IsDeepFault (image b) header deep → IsFaultToDepth profile b result }
{
    match header {
        Some(fault) => Some(fault),
        None => match deep {
            Some(place) => Some(ImageFault {
                rule: Rule::TooDeep,
                place,
            }),
            None => None,
        },
    }
}
