//! The second part of a trailer, with the lists of extended attributes.

ghost use Rattle.std.specs.Prelude.{◌≡◌, ◌+◌, ◌<◌, ◌≤◌, ◌^◌, ◌↔◌, length, IfOk, IsTrue};
ghost use Rattle.romfs_format.specs.declared.limits.TheConstants.{ROW_SIZE};
ghost use Rattle.romfs_format.specs.Below.{holds_below};
ghost use Rattle.romfs_format.specs.Part.{leads, list_number, lists_in, lists_start, AreLists, IsFramed};
ghost use Rattle.romfs_format.specs.Part.{IsPart};
ghost use Rattle.romfs_format.specs.Trailer.{has_part, mode_of, part, row_count, row_start};

use crate::list_check::are_lists;
use crate::lists::Lists;
use crate::read::{Trailer, row_of, row_start};
use romfs_format::limits::PART_HEAD_SIZE;
use std::alloc::{AllocError, Allocator};

/// Whether the part after this many rows keeps its rule, if there is one. Fails only if memory for
/// its lists was refused.
#[tactic(auto, unfolding(romfs_format::specs::Trailer::part))]
pub(crate) fn is_part<A: Allocator>(
    alloc: A,
    trailer: &Trailer<'_>,
    count: u32,
) -> Result<bool, AllocError>
    requires is { count ≡ row_count trailer.now }
    requires rows { row_start count ≤ length trailer.now }
    ensures { IfOk result (λ yes. IsTrue yes ↔ (IsTrue (has_part trailer.now)
        → IsPart (row_count trailer.now) (mode_of trailer.now) (part trailer.now))) }
{
    let part = trailer.behind(row_start(count));
    if !part.starts_with(b"-attr02-") {
        return Ok(true);
    }
    if !is_framed(&part, count) {
        return Ok(false);
    }
    let lists = lists_in(alloc, &part, count)?;
    if !are_lists(&lists) {
        return Ok(false);
    }
    Ok(rows_lead(trailer, &part, &Lists::again(&lists), count))
}

// Whether a part after this many rows is complete, and its words sum to 0.
#[tactic(auto, unfolding(romfs_format::specs::Part::part_bytes))]
fn is_framed(part: &Trailer<'_>, count: u32) -> bool
    ensures { IsTrue result ↔ IsFramed count part.now }
{
    if part.len() < PART_HEAD_SIZE {
        return false;
    }
    let size = part.word(8) as usize;
    if part.len() < size || size < lists_start(count) + 4 {
        return false;
    }
    size % 4 == 0 && part.sum(size) == 0
}

// The bytes of its lists.
#[tactic(auto, unfolding(romfs_format::specs::Part::lists_in, romfs_format::specs::Part::part_bytes))]
pub(crate) fn lists_in<A: Allocator>(
    alloc: A,
    part: &Trailer<'_>,
    count: u32,
) -> Result<Vec<u8, A>, AllocError>
    requires { IsFramed count part.now }
    ensures { IfOk result (λ bytes. bytes.items ≡ lists_in count part.now) }
{
    let start = lists_start(count);
    let size = part.word(8) as usize;
    part.copied(alloc, start, size - start)
}

// Whether each row leads to one of the lists, which agrees with its mode.
fn rows_lead(trailer: &Trailer<'_>, part: &Trailer<'_>, lists: &Lists<'_>, count: u32) -> bool
    requires rows { row_start count ≤ length trailer.now }
    requires frame { IsFramed count part.now }
    requires are { lists.now ≡ lists_in count part.now }
    requires right { AreLists lists.now }
    ensures { result ≡ holds_below count (leads count (mode_of trailer.now) part.now) }
{
    for number in 0..count {
        if !row_leads(trailer, part, lists, count, number) {
            return false;
        }
    }
    true
}

// Whether one row does.
#[tactic(auto, using(crate::proofs::Tables::numbered_right))]
fn row_leads(
    trailer: &Trailer<'_>,
    part: &Trailer<'_>,
    lists: &Lists<'_>,
    count: u32,
    number: u32,
) -> bool
    requires row { row_start number + ROW_SIZE ≤ length trailer.now }
    requires word { lists_start number + 4 ≤ length part.now }
    requires are { lists.now ≡ lists_in count part.now }
    requires right { AreLists lists.now }
    ensures { result ≡ leads count (mode_of trailer.now) part.now number }
{
    let list = list_number(part, number);
    list <= lists.count() && lists.agrees(list, row_of(trailer, number).mode)
}

// The number of a row's list.
pub(crate) fn list_number(part: &Trailer<'_>, row: u32) -> u32
    requires { lists_start row + 4 ≤ length part.now }
    ensures { result ≡ list_number part.now row }
{
    part.word(lists_start(row))
}

// Where the lists begin, after the words of this many rows.
fn lists_start(rows: u32) -> usize
    ensures value { result ≡ lists_start rows }
    ensures small { result < 2 ^ 40 }
{
    PART_HEAD_SIZE + 4 * rows as usize
}
