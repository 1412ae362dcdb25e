//! What a header is to the directories whose chains have it.

ghost use Rattle.std.specs.Prelude.{◌≡◌, ◌+◌, ◌/◌, ◌<◌, ◌↔◌, false, IsTrue};
ghost use Rattle.std.specs.Option.{option_map};
ghost use Rattle.romfs_format.specs.declared.limits.TheConstants.{HEAD_SIZE};
ghost use Rattle.romfs_format.specs.Fields.{IsInside, text_at};
ghost use Rattle.romfs_format.specs.Chains.{IsDotted, IsOpened, IsSomeMember};
ghost use Rattle.romfs_rules.specs.Marks.{HasSlot, Opens};
ghost use Rattle.romfs_rules.specs.Leads.{IsInSomeChain, StandsKept};
ghost use Rattle.romfs_rules.specs.InChains.{AreChains};

use crate::chains::Chains;
use crate::volume::Volume;
use romfs_format::head::Kind;
use romfs_format::limits::HEAD_SIZE;
use romfs_format::read::{is_dot_name, kind_of};
use romfs_held::read::{byte_at, text_at, word};
use std::alloc::Allocator;

/// Whether a header is named `.` or `..`.
pub(crate) fn is_dotted(volume: &Volume, at: usize) -> bool
    requires inside { IsInside volume.now.bytes.now at }
    ensures { IsTrue result ↔ IsDotted volume.now.bytes.now at }
{
    if begins_with_dot(volume, at) {
        is_dotted_by(volume, at, text_at(volume.bytes, at + HEAD_SIZE))
    } else {
        false
    }
}

/// Whether a header opens as a directory wherever it is a member.
#[inline(always)]
pub(crate) fn opens(volume: &Volume, at: usize) -> bool
    requires inside { IsInside volume.now.bytes.now at }
    ensures { IsTrue result ↔ Opens volume.now.bytes.now at }
{
    kind_of(word(volume.bytes, at)) == Kind::Directory && !is_dotted(volume, at)
}

/// Whether a header is in a chain.
pub(crate) fn is_in_chain<A: Allocator>(volume: &Volume, at: usize, chains: &Chains<A>) -> bool
    requires slot { HasSlot volume.now.bytes.now at }
    requires chains { AreChains volume.now.bytes.now chains.now }
    ensures { IsTrue result ↔ IsInSomeChain volume.now.bytes.now at }
{
    chains.headers.contains(at / 16)
}

/// Whether a header is a directory that is opened.
#[inline(always)]
pub(crate) fn is_opened<A: Allocator>(volume: &Volume, at: usize, chains: &Chains<A>) -> bool
    requires slot { HasSlot volume.now.bytes.now at }
    requires chains { AreChains volume.now.bytes.now chains.now }
    ensures { IsTrue result ↔ IsOpened volume.now.bytes.now at }
{
    at == volume.root || is_in_chain(volume, at, chains) && opens(volume, at)
}

/// Whether a header is a member of some directory.
pub(crate) fn is_some_member<A: Allocator>(volume: &Volume, at: usize, chains: &Chains<A>) -> bool
    requires slot { HasSlot volume.now.bytes.now at }
    requires chains { AreChains volume.now.bytes.now chains.now }
    ensures { IsTrue result ↔ IsSomeMember volume.now.bytes.now at }
{
    is_member_by(volume, at, text_at(volume.bytes, at + HEAD_SIZE), chains)
}

/// Whether a header with this name is a member of some directory.
pub(crate) fn is_member_by<A: Allocator>(
    volume: &Volume,
    at: usize,
    name: Option<&[u8]>,
    chains: &Chains<A>,
) -> bool
    requires slot { HasSlot volume.now.bytes.now at }
    requires name { option_map (λ n. n.now) name ≡ text_at volume.now.bytes.now (at + HEAD_SIZE) }
    requires chains { AreChains volume.now.bytes.now chains.now }
    ensures { IsTrue result ↔ IsSomeMember volume.now.bytes.now at }
{
    stands_kept(volume, at, chains) && !is_dotted_by(volume, at, name)
}

// Whether a header is in a chain, the root's in another than its own.
fn stands_kept<A: Allocator>(volume: &Volume, at: usize, chains: &Chains<A>) -> bool
    requires slot { HasSlot volume.now.bytes.now at }
    requires chains { AreChains volume.now.bytes.now chains.now }
    ensures { IsTrue result ↔ StandsKept volume.now.bytes.now at }
{
    if at == volume.root {
        chains.root_elsewhere
    } else {
        is_in_chain(volume, at, chains)
    }
}

// Whether a header with this name is named `.` or `..`.
fn is_dotted_by(volume: &Volume, at: usize, name: Option<&[u8]>) -> bool
    requires inside { IsInside volume.now.bytes.now at }
    requires name { option_map (λ n. n.now) name ≡ text_at volume.now.bytes.now (at + HEAD_SIZE) }
    ensures { IsTrue result ↔ IsDotted volume.now.bytes.now at }
{
    // only the clauses name the image
    let _ = volume;
    match name {
        None => false,
        Some(name) => is_dot_name(name),
    }
}

// Whether a header's name begins with a dot. Most do not, and then its end is not looked for.
#[inline(always)]
fn begins_with_dot(volume: &Volume, at: usize) -> bool
    requires inside { IsInside volume.now.bytes.now at }
    ensures { IsDotted volume.now.bytes.now at → IsTrue result }
{
    at + HEAD_SIZE < volume.bytes.len() && byte_at(volume.bytes, at + HEAD_SIZE) == b'.'
}
