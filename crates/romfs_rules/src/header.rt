//! A header that is reached, and the first rule of file headers that it breaks.
//!
//! What rules need besides a header's bytes (whether it is a member, whether two links name it,
//! where its hard links end) is looked up once, when the header is made (`Sets::header`). Then no
//! rule reads a set.

ghost use Rattle.std.specs.Prelude.{◌≡◌, ◌+◌, ◌<◌, ◌≤◌, ◌↔◌, length, IsTrue, MatchOption};
ghost use Rattle.romfs_format.specs.declared.limits.TheConstants.{HEAD_SIZE};
ghost use Rattle.romfs_format.specs.declared.rule.Profile.TheVariants.{Usual};
ghost use Rattle.romfs_format.specs.Fields.{IsInside, data_at};
ghost use Rattle.romfs_format.specs.Chains.{IsSomeMember};
ghost use Rattle.romfs_format.specs.Links.{IsHardLink, EndsAs};
ghost use Rattle.romfs_format.specs.Rules.{IsUsed, HasData, IsDevice, IsBadName, EndsOutside, HasLongTarget, HasLargeMajor};
ghost use Rattle.romfs_format.specs.Rules.{HasBadSum, BreaksHeader, rule_number};
ghost use Rattle.romfs_rules.specs.Judge.{KeepsBefore, KeepsHeaderRules, IsFirstRule, IsFirstRuleBelow, IsFirstAt};

use crate::volume::Volume;
use romfs_format::head::{End, Kind};
use romfs_format::limits::{HEAD_SIZE, MAX_MAJOR, MAX_TARGET_SIZE};
use romfs_format::read::{kind_of, padded};
use romfs_format::rule::{ImageFault, Profile, Rule};
use romfs_held::read::{sum, text_at, word};
use std::marker::Model;

/// A reached header inside an image. A clause sees the image and the header's place.
#[derive(Drop)]
pub(crate) struct Header<'h> {
    pub(crate) volume: &'h Volume<'h>,
    pub(crate) at: usize,
    /// Its name, if it is ended.
    pub(crate) name: Option<&'h [u8]>,
    /// Whether it is a member of some directory.
    pub(crate) member: bool,
    /// Whether it is a member, or a member's hard links lead over it.
    pub(crate) used: bool,
    /// Whether two links name it, or another directory's chain holds it as the root's.
    pub(crate) twice: bool,
    /// Whether a member of the same directory has its name at a lower place; any value if `twice`
    /// is true.
    pub(crate) same_name: bool,
    /// The end of its hard links, if it is a member and a hard link.
    pub(crate) end: Option<End>,
}

impl<'h> Model for Header<'h> {
    ghost use Rattle.romfs_rules.specs.Places.{HeaderPlace};

    ghost Value = { HeaderPlace };

    ghost use Rattle.romfs_rules.specs.Headers.{IsHeader};

    ghost view = { λ held. record { image = held.volume.now.bytes.now; at = held.at } };

    ghost invariant = { λ held. IsHeader held.volume.now.bytes.now held };
}

impl<'h> Header<'h> {
    /// The first rule of file headers that it breaks, with its place.
    pub(crate) fn fault(&self, profile: Profile) -> Option<ImageFault>
        ensures { MatchOption result (KeepsHeaderRules profile self.now.image self.now.at)
            (IsFirstAt profile self.now.image self.now.at) }
    {
        match self.first_rule(profile) {
            Some(rule) => Some(ImageFault {
                rule,
                place: self.at as u32,
            }),
            None => None,
        }
    }

    // The first rule of file headers that it breaks.
    fn first_rule(&self, profile: Profile) -> Option<Rule>
        ensures { MatchOption result (KeepsHeaderRules profile self.now.image self.now.at)
            (IsFirstRule profile self.now.image self.now.at) }
    {
        if let Some(rule) = self.first_of_bytes() {
            return Some(rule);
        }
        if let Some(rule) = self.first_of_links() {
            return Some(rule);
        }
        if self.breaks_major_large() {
            return Some(Rule::MajorLarge);
        }
        if self.breaks_header_sum(profile) {
            return Some(Rule::HeaderSum);
        }
        None
    }

    // The first rule of its name and its data that it breaks.
    fn first_of_bytes(&self) -> Option<Rule>
        ensures { (profile : Profile)
            → IsFirstRuleBelow profile self.now.image self.now.at
            (rule_number Rule.LinkedTwice) result }
    {
        if self.breaks_name_open() {
            return Some(Rule::NameOpen);
        }
        if self.breaks_name_bad() {
            return Some(Rule::NameBad);
        }
        if self.breaks_data_outside() {
            return Some(Rule::DataOutside);
        }
        if self.breaks_target_long() {
            return Some(Rule::TargetLong);
        }
        None
    }

    // The first rule of links and of names in a directory that it breaks, if it keeps those before
    // these.
    fn first_of_links(&self) -> Option<Rule>
        ensures { (profile : Profile)
            → KeepsBefore profile self.now.image self.now.at (rule_number Rule.LinkedTwice)
            → IsFirstRuleBelow profile self.now.image self.now.at
            (rule_number Rule.MajorLarge) result }
    {
        if self.twice {
            return Some(Rule::LinkedTwice);
        }
        if self.same_name {
            return Some(Rule::SameName);
        }
        if self.ends_as(End::Nowhere) {
            return Some(Rule::LinkLoop);
        }
        if self.ends_as(End::AtDirectory) {
            return Some(Rule::LinkDirectory);
        }
        None
    }

    // Whether its name is not ended. The header is inside the image.
    fn breaks_name_open(&self) -> bool
        ensures inside { IsInside self.now.image self.now.at }
        ensures open { IsTrue result ↔ BreaksHeader Usual self.now.image Rule.NameOpen self.now.at }
    {
        self.at != self.volume.root && self.name.is_none()
    }

    // Whether it is a member whose name is empty or holds `/`.
    fn breaks_name_bad(&self) -> bool
        ensures { IsTrue result ↔ BreaksHeader Usual self.now.image Rule.NameBad self.now.at }
    {
        match self.name {
            None => false,
            Some(name) => is_bad_name(name) && self.member,
        }
    }

    // Whether it is used, and its data as a regular file or a symbolic link end beyond the image.
    fn breaks_data_outside(&self) -> bool
        ensures { IsTrue result ↔ BreaksHeader Usual self.now.image Rule.DataOutside self.now.at }
    {
        match self.name {
            None => false,
            Some(name) => is_data_outside(self.volume, self.at, name) && self.has_used_data(),
        }
    }

    // Whether it is used, and is that of a regular file or a symbolic link.
    fn has_used_data(&self) -> bool
        ensures { IsTrue result ↔ (IsUsed self.now.image self.now.at
            × HasData self.now.image self.now.at) }
    {
        has_data(self.volume, self.at) && self.used
    }

    // Whether it is used, and its target as a symbolic link is too long.
    fn breaks_target_long(&self) -> bool
        ensures { IsTrue result ↔ BreaksHeader Usual self.now.image Rule.TargetLong self.now.at }
    {
        is_target_long(self.volume, self.at) && self.used
    }

    // Whether it is a member and a hard link whose chain ends in this way.
    fn ends_as(&self, end: End) -> bool
        ensures { IsTrue result ↔ (IsSomeMember self.now.image self.now.at
            × IsHardLink self.now.image self.now.at × EndsAs self.now.image self.now.at end) }
    {
        match self.end {
            None => false,
            Some(found) => found == end,
        }
    }

    // Whether it is used, and its major number as a device is too large.
    fn breaks_major_large(&self) -> bool
        ensures { IsTrue result ↔ BreaksHeader Usual self.now.image Rule.MajorLarge self.now.at }
    {
        is_major_large(self.volume, self.at) && self.used
    }

    // Whether its sum is looked at, and bad.
    fn breaks_header_sum(&self, profile: Profile) -> bool
        ensures { IsTrue result ↔ BreaksHeader profile self.now.image Rule.HeaderSum self.now.at }
    {
        profile.asks_sums() && is_sum_bad(self.volume, self.at)
    }
}

// Whether a name is empty or holds `/`.
pub(crate) fn is_bad_name(name: &[u8]) -> bool
    ensures { IsTrue result ↔ IsBadName name.now }
{
    name.is_empty() || name.contains(&b'/')
}

// Whether a header is that of a regular file or a symbolic link.
pub(crate) fn has_data(volume: &Volume, at: usize) -> bool
    requires { at + HEAD_SIZE ≤ length volume.now.bytes.now }
    ensures { IsTrue result ↔ HasData volume.now.bytes.now at }
{
    matches!(
        kind_of(word(volume.bytes, at)),
        Kind::Regular | Kind::SymLink
    )
}

// Whether the data of a header with this name ends beyond the image.
pub(crate) fn is_data_outside(volume: &Volume, at: usize, name: &[u8]) -> bool
    requires at { at + HEAD_SIZE ≤ length volume.now.bytes.now }
    requires name { data_at at name.now ≤ length volume.now.bytes.now }
    ensures { IsTrue result ↔ EndsOutside volume.now.bytes.now at name.now }
{
    let size = word(volume.bytes, at + 8) as usize;
    volume.bytes.len() < at + HEAD_SIZE + padded(name.len() + 1) + size
}

// Whether a header is that of a symbolic link with a target that is too long.
pub(crate) fn is_target_long(volume: &Volume, at: usize) -> bool
    requires { at + HEAD_SIZE ≤ length volume.now.bytes.now }
    ensures { IsTrue result ↔ HasLongTarget volume.now.bytes.now at }
{
    kind_of(word(volume.bytes, at)) == Kind::SymLink && word(volume.bytes, at + 8) > MAX_TARGET_SIZE
}

// Whether a header is that of a device with a major number that is too large.
pub(crate) fn is_major_large(volume: &Volume, at: usize) -> bool
    requires { at + HEAD_SIZE ≤ length volume.now.bytes.now }
    ensures { IsTrue result ↔ HasLargeMajor volume.now.bytes.now at }
{
    is_device(volume, at) && word(volume.bytes, at + 4) / 65536 > MAX_MAJOR
}

// Whether a header is that of a device.
fn is_device(volume: &Volume, at: usize) -> bool
    requires { at + HEAD_SIZE ≤ length volume.now.bytes.now }
    ensures { IsTrue result ↔ IsDevice volume.now.bytes.now at }
{
    matches!(
        kind_of(word(volume.bytes, at)),
        Kind::Block | Kind::Character
    )
}

// Whether the words of a header, its name and the padding do not sum to 0.
#[tactic(auto, unfolding(romfs_format::specs::Fields::header_bytes))]
fn is_sum_bad(volume: &Volume, at: usize) -> bool
    requires inside { at + HEAD_SIZE ≤ length volume.now.bytes.now }
    ensures { IsTrue result ↔ HasBadSum volume.now.bytes.now at }
{
    match text_at(volume.bytes, at + HEAD_SIZE) {
        None => at == volume.root,
        Some(name) => sum(volume.bytes, at, HEAD_SIZE + padded(name.len() + 1)) != 0,
    }
}
