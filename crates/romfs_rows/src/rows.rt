//! What is kept of a trailer.

ghost use Rattle.std.specs.Prelude.{◌≡◌, ◌+◌, ◌^◌, ◌<◌, ◌≤◌, [], length, nat_eq, slice_get, IfOk, IfSome, IsTrue, Some};
ghost use Rattle.romfs_format.specs.declared.limits.TheConstants.{HEAD_SIZE, MAX_MODE};
ghost use Rattle.romfs_format.specs.declared.limits.TheConstants.{TRAILER_HEAD_SIZE};
ghost use Rattle.romfs_format.specs.Trailer.{IsTrailerBroken, first_rows, row_at, row_count, rows};
ghost use Rattle.romfs_format.specs.Trailer.{trailer_end};
ghost use Rattle.romfs_rows.specs.Order.{position_at};

use crate::kept_row::KeptRow;
use crate::read::{Trailer, row_of, trailer_place};
use romfs_format::AttributeRow;
use romfs_held::Held;
use std::alloc::{AllocError, Allocator};
use std::marker::Model;

/// The rows of an image's trailer, which rise by offset. A clause sees them as a list.
#[derive(Drop)]
pub struct Rows<A: Allocator> {
    rows: Vec<KeptRow, A>,
}

impl<A: Allocator> Model for Rows<A> {
    ghost use Rattle.std.specs.Prelude.{List};
    ghost use Rattle.romfs_format.specs.declared.attribute_row.AttributeRow.{AttributeRow};
    ghost use Rattle.romfs_rows.specs.Order.{AreOrdered};

    ghost Value = { List AttributeRow };

    ghost view = { λ held. held.rows.items };

    ghost invariant = { λ held. AreOrdered held.rows.items };
}

impl<A: Allocator> Rows<A> {
    /// No rows: what an image without a trailer has.
    pub fn none(alloc: A) -> Rows<A>
        ensures { result ≡ [] }
    {
        Rows {
            rows: Vec::new(alloc),
        }
    }

    /// The rows of an image's trailer, from all bytes of the image; none if it has no trailer. A
    /// trailer must not be broken.
    ///
    /// Takes 28 bytes a row. Fails only if memory was refused.
    #[tactic(auto, unfolding(romfs_format::specs::Trailer::trailer))]
    pub fn of(alloc: A, image: &Held<'_>) -> Result<Rows<A>, AllocError>
        requires long { HEAD_SIZE ≤ length image.now }
        requires whole { ¬ IsTrailerBroken image.now }
        ensures { IfOk result (λ kept. kept ≡ rows image.now) }
    {
        match trailer_place(image) {
            None => Ok(Rows::none(alloc)),
            Some(place) => {
                let rows = rows_in(alloc, &Trailer::at(image, place as usize))?;
                Ok(Rows { rows })
            }
        }
    }

    /// Whether there are none.
    pub fn is_empty(&self) -> bool
        ensures { result ≡ nat_eq (length self.now) 0 }
    {
        self.rows.is_empty()
    }

    /// The row for the header at an offset in bytes, if there is one, by binary search.
    pub fn at(&self, place: u32) -> Option<AttributeRow>
        ensures value { result ≡ row_at self.now place }
        ensures mode { IfSome result (λ row. row.mode ≤ MAX_MODE) }
    {
        self.get(self.position(place, 0)?)
    }

    /// The position of that row, counted from 0. A guessed position is tried first, then binary
    /// search.
    pub fn position(&self, place: u32, guess: u32) -> Option<u32>
        ensures value { result ≡ position_at self.now place }
        ensures small { IfSome result (λ position. position + 1 < 2 ^ 32) }
    {
        if self.is_first(place, guess as usize) {
            return Some(guess);
        }
        let position = self.rows.partition_point(|row| row.place() < place);
        match self.rows.get(position) {
            Some(row) if row.place() == place => Some(position as u32),
            _ => None,
        }
    }

    // Whether the row at a position is the first one for the header at an offset.
    fn is_first(&self, place: u32, position: usize) -> bool
        ensures value { IsTrue result → Some position ≡ position_at self.now place }
        ensures small { IsTrue result → position + 1 < 2 ^ 32 }
    {
        match self.rows.get(position) {
            Some(row) if row.place() == place => {
                position == 0 || self.rows[position - 1].place() < place
            }
            _ => false,
        }
    }

    /// The row at a position, counted from 0; none after the last.
    pub fn get(&self, position: u32) -> Option<AttributeRow>
        ensures value { result ≡ slice_get self.now position }
        ensures mode { IfSome result (λ row. row.mode ≤ MAX_MODE) }
    {
        let kept = self.rows.get(position as usize)?;
        Some(kept.row())
    }
}

// All rows of a trailer, in their order.
fn rows_in<A: Allocator>(alloc: A, trailer: &Trailer<'_>) -> Result<Vec<KeptRow, A>, AllocError>
    requires long { TRAILER_HEAD_SIZE ≤ length trailer.now }
    requires whole { trailer_end trailer.now ≤ length trailer.now }
    ensures all { IfOk result (λ found.
        found.items ≡ first_rows trailer.now (row_count trailer.now)) }
    ensures few { IfOk result (λ found. length found.items < 2 ^ 32) }
{
    let count = trailer.word(8);
    let mut rows = Vec::with_capacity(alloc, count as usize)?;
    for number in 0..count {
        rows.push(KeptRow::of(row_of(trailer, number)))?;
    }
    Ok(rows)
}
