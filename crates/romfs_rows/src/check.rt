//! Whether a trailer keeps its rule.

ghost use Rattle.std.specs.Prelude.{◌+◌, ◌≤◌, ◌↔◌, length, IfOk, IsTrue};
ghost use Rattle.romfs_format.specs.declared.limits.TheConstants.{HEAD_SIZE, ROW_SIZE};
ghost use Rattle.romfs_format.specs.Trailer.{AreRows, IsRow, IsTrailer, row_start};
ghost use Rattle.romfs_rows.specs.Faults.{IsTrailerFault};

use crate::part::is_part;
use crate::read::{Trailer, row_of, row_start, trailer_place};
use romfs_format::limits::{MAX_MODE, SECOND, TRAILER_HEAD_SIZE};
use romfs_format::{ImageFault, Rule};
use romfs_held::Held;
use romfs_held::read::word;
use std::alloc::{AllocError, Allocator};

/// The fault of an image's attribute trailer, from all bytes of the image; none if it has no
/// trailer, or one that keeps its rule.
///
/// It passes over the rows twice, and a few times over a second part, whose lists it copies into
/// memory meanwhile. Fails only if that memory was refused.
#[tactic(auto, unfolding(romfs_format::specs::Trailer::trailer))]
pub fn trailer_fault<A: Allocator>(
    alloc: A,
    image: &Held<'_>,
) -> Result<Option<ImageFault>, AllocError>
    requires { HEAD_SIZE ≤ length image.now }
    ensures { IfOk result (IsTrailerFault image.now) }
{
    let Some(place) = trailer_place(image) else {
        return Ok(None);
    };
    if is_trailer(alloc, &Trailer::at(image, place as usize), word(image, 8))? {
        Ok(None)
    } else {
        Ok(Some(ImageFault {
            rule: Rule::Attributes,
            place,
        }))
    }
}

// Whether a trailer keeps its rule, in an image of this full size.
#[tactic(auto, unfolding(romfs_format::specs::Trailer::trailer_bytes))]
fn is_trailer<A: Allocator>(alloc: A, trailer: &Trailer<'_>, full: u32) -> Result<bool, AllocError>
    ensures { IfOk result (λ yes. IsTrue yes ↔ IsTrailer full trailer.now) }
{
    if trailer.len() < TRAILER_HEAD_SIZE {
        return Ok(false);
    }
    let count = trailer.word(8);
    let end = row_start(count);
    if trailer.len() < end {
        return Ok(false);
    }
    if trailer.sum(end) != 0 || !are_rows(trailer, count, full) {
        return Ok(false);
    }
    is_part(alloc, trailer, count)
}

// Whether the first rows are right and rise.
fn are_rows(trailer: &Trailer<'_>, count: u32, full: u32) -> bool
    requires { row_start count ≤ length trailer.now }
    ensures { IsTrue result ↔ AreRows full trailer.now count }
{
    let mut least = 0;
    for number in 0..count {
        let place = trailer.word(row_start(number));
        if place < least || !is_row(trailer, number, full) {
            return false;
        }
        least = place + 1;
    }
    true
}

// Whether a row is right by itself.
fn is_row(trailer: &Trailer<'_>, number: u32, full: u32) -> bool
    requires { row_start number + ROW_SIZE ≤ length trailer.now }
    ensures { IsTrue result ↔ IsRow full trailer.now number }
{
    let row = row_of(trailer, number);
    row.place % 16 == 0
        && row.place < full
        && row.mode <= MAX_MODE
        && row.nanoseconds < SECOND
        && trailer.word(row_start(number) + 28) == 0
}
