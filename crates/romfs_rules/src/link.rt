//! The headers that the fields of a header name.

ghost use Rattle.std.specs.Prelude.{◌<◌};
ghost use Rattle.romfs_format.specs.Links.{first_of, next_of, IsLink};
ghost use Rattle.romfs_rules.specs.Marks.{HasSlot};
ghost use Rattle.romfs_rules.specs.Leads.{IsTheOne};
ghost use Rattle.romfs_rules.specs.InChains.{AreChains};

use crate::chains::Chains;
use crate::lead::{first_of, next_of};
use crate::member::{is_in_chain, is_opened};
use crate::volume::Volume;
use std::alloc::Allocator;

/// The header that next names, of a header in a chain.
#[inline(always)]
pub(crate) fn next_link<A: Allocator>(volume: &Volume, at: usize, chains: &Chains<A>) -> Option<u32>
    requires slot { HasSlot volume.now.bytes.now at }
    requires chains { AreChains volume.now.bytes.now chains.now }
    ensures { IsTheOne (IsLink volume.now.bytes.now (next_of at)) result }
{
    if is_in_chain(volume, at, chains) {
        next_of(volume, at)
    } else {
        None
    }
}

/// The first header of an opened directory.
#[inline(always)]
pub(crate) fn first_link<A: Allocator>(
    volume: &Volume,
    at: usize,
    chains: &Chains<A>,
) -> Option<u32>
    requires slot { HasSlot volume.now.bytes.now at }
    requires chains { AreChains volume.now.bytes.now chains.now }
    ensures { IsTheOne (IsLink volume.now.bytes.now (first_of at)) result }
{
    if is_opened(volume, at, chains) {
        first_of(volume, at)
    } else {
        None
    }
}
