//! The trailer of an image, and its rows.

ghost use Rattle.std.specs.Prelude.{◌≡◌, ◌+◌, ◌<◌, ◌≤◌, ◌%◌, ◌^◌, false, length, take, drop, nat_eq, ℕ, List, IfOk, IfSome, MatchOption};
ghost use Rattle.std.specs.List.{starts_with as begins_with};
ghost use Rattle.romfs_format.specs.declared.limits.TheConstants.{HEAD_SIZE, ROW_SIZE};
ghost use Rattle.romfs_format.specs.Fields.{word as word_of, word_sum};
ghost use Rattle.romfs_format.specs.Trailer.{has_trailer, long_word as long_word_of, row_of, row_start};
ghost use Rattle.romfs_rows.specs.Faults.{IsTrailerPlace};

use romfs_format::limits::{ROW_SIZE, TRAILER_HEAD_SIZE};
use romfs_format::read::padded;
use romfs_format::{AttributeRow, read as fields};
use romfs_held::Held;
use romfs_held::read::{copy_some, long_word, slice_at, stand_at, sum, word};
use std::alloc::{AllocError, Allocator};
use std::marker::Model;

/// How many bytes are copied at once.
const PIECE_SIZE: usize = 512;

/// The start of an image's trailer, if it has one.
#[tactic(auto, unfolding(romfs_format::specs::Trailer::trailer))]
pub(crate) fn trailer_place(image: &Held<'_>) -> Option<u32>
    requires { HEAD_SIZE ≤ length image.now }
    ensures { MatchOption result (has_trailer image.now ≡ false) (IsTrailerPlace image.now) }
{
    let Ok(place) = u32::try_from(padded(word(image, 8) as usize)) else {
        return None;
    };
    if image.len() < place as usize {
        return None;
    }
    if stand_at(image, place as usize, b"-attr01-") {
        Some(place)
    } else {
        None
    }
}

/// A trailer, or its second part: the bytes of an image from a place on. A clause sees these.
#[derive(Drop)]
pub(crate) struct Trailer<'t> {
    image: &'t Held<'t>,
    /// Its start.
    place: usize,
    /// The end of the image.
    end: usize,
}

impl<'t> Model for Trailer<'t> {
    ghost use Rattle.std.specs.Prelude.{◌≡◌, ◌≤◌, ◌<◌, ◌^◌, drop, length, List, ℕ};

    ghost Value = { List ℕ };

    ghost view = { λ t. drop t.place t.image.now };

    ghost invariant = { λ t.
        (t.end ≡ length t.image.now) × (t.place ≤ t.end) × (t.end < 2 ^ 64) };
}

impl<'t> Trailer<'t> {
    /// The bytes from a place on.
    pub(crate) fn at(image: &'t Held<'t>, place: usize) -> Trailer<'t>
        requires { place ≤ length image.now }
        ensures { result ≡ drop place image.now }
    {
        Trailer {
            image,
            place,
            end: image.len(),
        }
    }

    /// The bytes after the first ones.
    pub(crate) fn behind(&self, count: usize) -> Trailer<'t>
        requires { count ≤ length self.now }
        ensures { result ≡ drop count self.now }
    {
        Trailer::at(self.image, self.place + count)
    }

    /// Whether they begin with some bytes.
    pub(crate) fn starts_with(&self, bytes: &[u8]) -> bool
        ensures { result ≡ begins_with nat_eq self.now bytes.now }
    {
        stand_at(self.image, self.place, bytes)
    }

    /// How many bytes there are.
    pub(crate) fn len(&self) -> usize
        ensures { result ≡ length self.now }
    {
        self.end - self.place
    }

    /// The word at a place, counted from the start of the trailer.
    pub(crate) fn word(&self, at: usize) -> u32
        requires { at + 4 ≤ length self.now }
        ensures { result ≡ word_of self.now at }
    {
        word(self.image, self.place + at)
    }

    /// The number in the eight bytes at such a place.
    pub(crate) fn long_word(&self, at: usize) -> u64
        requires { at + 8 ≤ length self.now }
        ensures { result ≡ long_word_of self.now at }
    {
        long_word(self.image, self.place + at)
    }

    /// This many bytes from such a place on, in memory of their own.
    pub(crate) fn copied<A: Allocator>(
        &self,
        alloc: A,
        at: usize,
        len: usize,
    ) -> Result<Vec<u8, A>, AllocError>
        requires { at + len ≤ length self.now }
        ensures { IfOk result (λ bytes. bytes.items ≡ take len (drop at self.now)) }
    {
        copied(alloc, self.image, self.place + at, len)
    }

    /// This many bytes from such a place on, if they are held in one piece.
    pub(crate) fn slice(&self, at: usize, len: usize) -> Option<&'t [u8]>
        requires { at + len ≤ length self.now }
        ensures { IfSome result (λ part. part.now ≡ take len (drop at self.now)) }
    {
        slice_at(self.image, self.place + at, len)
    }

    /// The sum of the complete words in this many bytes.
    pub(crate) fn sum(&self, len: usize) -> u32
        requires { len ≤ length self.now }
        ensures { result ≡ word_sum (take len self.now) % 2 ^ 32 }
    {
        sum(self.image, self.place, len)
    }
}

// This many bytes of an image from a place on.
fn copied<A: Allocator>(
    alloc: A,
    image: &Held<'_>,
    at: usize,
    len: usize,
) -> Result<Vec<u8, A>, AllocError>
    requires inside { at + len ≤ length image.now }
    requires small { at + len < 2 ^ 64 }
    ensures { IfOk result (λ bytes. bytes.items ≡ take len (drop at image.now)) }
{
    let mut bytes = Vec::with_capacity(alloc, len)?;
    let mut room = [0; PIECE_SIZE];
    while bytes.len() < len {
        let count = copy_some(image, at + bytes.len(), &mut room);
        let left = len - bytes.len();
        bytes.extend_from_slice(&room[..count.min(left)])?;
    }
    Ok(bytes)
}

/// The start of a row in its trailer.
pub(crate) fn row_start(number: u32) -> usize
    ensures value { result ≡ row_start number }
    ensures small { result < 2 ^ 40 }
{
    TRAILER_HEAD_SIZE + ROW_SIZE * number as usize
}

/// What a row says.
pub(crate) fn row_of(trailer: &Trailer<'_>, number: u32) -> AttributeRow
    requires { row_start number + ROW_SIZE ≤ length trailer.now }
    ensures { result ≡ row_of trailer.now number }
{
    match trailer.slice(row_start(number), ROW_SIZE) {
        Some(bytes) => row_in(bytes),
        None => row_by_words(trailer, number),
    }
}

/// What a row of these bytes says.
fn row_in(bytes: &[u8]) -> AttributeRow
    requires { length bytes.now ≡ ROW_SIZE }
    ensures { (t : List ℕ) (number : ℕ) → bytes.now ≡ take ROW_SIZE (drop (row_start number) t) →
        result ≡ row_of t number }
{
    AttributeRow {
        place: fields::word(bytes, 0),
        mode: fields::word(bytes, 4),
        uid: fields::word(bytes, 8),
        gid: fields::word(bytes, 12),
        seconds: fields::long_word(bytes, 16),
        nanoseconds: fields::word(bytes, 24),
    }
}

/// The same, field by field.
fn row_by_words(trailer: &Trailer<'_>, number: u32) -> AttributeRow
    requires { row_start number + ROW_SIZE ≤ length trailer.now }
    ensures { result ≡ row_of trailer.now number }
{
    let start = row_start(number);
    AttributeRow {
        place: trailer.word(start),
        mode: trailer.word(start + 4),
        uid: trailer.word(start + 8),
        gid: trailer.word(start + 12),
        seconds: trailer.long_word(start + 16),
        nanoseconds: trailer.word(start + 24),
    }
}
