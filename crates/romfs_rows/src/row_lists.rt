//! The extended attributes of an image's rows.

ghost use Rattle.std.specs.Prelude.{◌≡◌, ◌≤◌, ℕ, [], length, replicate, false, true, IfOk, IfSome, MatchOption};
ghost use Rattle.std.specs.List.{slice_index_or};
ghost use Rattle.romfs_format.specs.declared.limits.TheConstants.{HEAD_SIZE};
ghost use Rattle.romfs_format.specs.Extended.{is_list};
ghost use Rattle.romfs_format.specs.Part.{IsFramed};
ghost use Rattle.romfs_format.specs.Trailer.{IsTrailerBroken, lists};
ghost use Rattle.romfs_rows.specs.Listed.{numbers_of};

use crate::file_xattrs::FileXattrs;
use crate::lists::Lists;
use crate::part::{list_number, lists_in};
use crate::read::{Trailer, row_start, trailer_place};
use romfs_held::Held;
use std::alloc::{AllocError, Allocator};
use std::marker::Model;

/// The extended attributes of an image's files, as the second part of its trailer has them: the
/// lists, each once, and which one each row has. A clause sees a list of attributes for each row.
///
/// Besides the lists it takes 4 bytes a row; nothing if there is no second part.
#[derive(Drop)]
pub struct RowLists<A: Allocator> {
    bytes: Vec<u8, A>,
    numbers: Vec<u32, A>,
    // How many rows there are if none has a list.
    bare: u32,
}

impl<A: Allocator> Model for RowLists<A> {
    ghost use Rattle.std.specs.Prelude.{List};
    ghost use Rattle.romfs_format.specs.Extended.{Extended};
    ghost use Rattle.romfs_rows.specs.Listed.{lists_told, AreKeptLists};

    ghost Value = { List (List Extended) };

    ghost view = { λ held. lists_told held.bytes.items held.numbers.items held.bare };

    ghost invariant = { λ held. AreKeptLists held.bytes.items held.numbers.items };
}

impl<A: Allocator + Copy> RowLists<A> {
    /// No rows: what an image without a trailer has.
    pub fn none(alloc: A) -> RowLists<A>
        ensures { result ≡ [] }
    {
        RowLists::bare(alloc, 0)
    }

    // This many rows without a list.
    fn bare(alloc: A, bare: u32) -> RowLists<A>
        ensures { result ≡ replicate bare [] }
    {
        RowLists {
            bytes: Vec::new(alloc),
            numbers: Vec::new(alloc),
            bare,
        }
    }

    /// Those of an image's rows, from all bytes of the image; none if it has no trailer. A trailer
    /// must not be broken. Fails only if memory was refused.
    pub fn of(alloc: A, image: &Held<'_>) -> Result<RowLists<A>, AllocError>
        requires long { HEAD_SIZE ≤ length image.now }
        requires whole { ¬ IsTrailerBroken image.now }
        ensures { IfOk result (λ kept. kept ≡ lists image.now) }
    {
        let Some(place) = trailer_place(image) else {
            return Ok(RowLists::none(alloc));
        };
        let trailer = Trailer::at(image, place as usize);
        let count = trailer.word(8);
        let part = trailer.behind(row_start(count));
        if !part.starts_with(b"-attr02-") {
            return Ok(RowLists::bare(alloc, count));
        }
        let bytes = lists_in(alloc, &part, count)?;
        let numbers = numbers_in(alloc, &part, count)?;
        Ok(RowLists {
            bytes,
            numbers,
            bare: 0,
        })
    }
}

impl<A: Allocator> RowLists<A> {
    /// Whether any row may have a list. If not, none has.
    pub fn may_have_some(&self) -> bool
        ensures { result ≡ false → (position : ℕ) → slice_index_or self.now position [] ≡ [] }
    {
        !self.numbers.is_empty()
    }

    /// Those of the row at a position, counted from 0; none if it has no list.
    pub fn of_row(&self, position: u32) -> Option<FileXattrs<'_>>
        ensures value { MatchOption result (slice_index_or self.now position [] ≡ [])
            (λ found. slice_index_or self.now position [] ≡ found) }
        ensures right { IfSome result (λ found. is_list found ≡ true) }
    {
        match self.numbers.get(position as usize) {
            Some(number) => FileXattrs::of(&self.bytes, *number),
            None => None,
        }
    }
}

// The numbers of all rows' lists, in their order.
fn numbers_in<A: Allocator>(
    alloc: A,
    part: &Trailer<'_>,
    count: u32,
) -> Result<Vec<u32, A>, AllocError>
    requires { IsFramed count part.now }
    ensures { IfOk result (λ numbers. numbers.items ≡ numbers_of part.now count) }
{
    let mut numbers = Vec::with_capacity(alloc, count as usize)?;
    for row in 0..count {
        numbers.push(list_number(part, row))?;
    }
    Ok(numbers)
}
