//! The bytes of lists, by their tables.

ghost use Rattle.std.specs.Prelude.{◌≡◌, ◌+◌, ◌-◌, ◌*◌, ◌^◌, ◌<◌, ◌≤◌, ◌↔◌, length, take, drop, nat_le, nat_lt, IsTrue, MatchOption};
ghost use Rattle.romfs_format.specs.Below.{holds_below};
ghost use Rattle.romfs_format.specs.Part.{attribute_count, edge, first_of, list_count, piece};
ghost use Rattle.romfs_format.specs.Part.{table_size, table_word, AreTables};

use romfs_format::read::word;
use std::marker::Model;

/// Lists of extended attributes as a trailer holds them: tables of words, then names and values. A
/// clause sees the bytes.
#[derive(Drop)]
pub struct Lists<'t> {
    bytes: &'t [u8],
}

impl<'t> Model for Lists<'t> {
    ghost use Rattle.std.specs.Prelude.{List, ℕ};
    ghost use Rattle.romfs_format.specs.Part.{AreTables};

    ghost Value = { List ℕ };

    ghost view = { λ lists. lists.bytes.now };

    ghost invariant = { λ lists. AreTables lists.bytes.now };
}

impl<'t> Lists<'t> {
    /// The lists of these bytes; none if the tables lead outside or are not in order. Names and
    /// values are not checked.
    pub fn of(bytes: &'t [u8]) -> Option<Lists<'t>>
        ensures { MatchOption result (¬ AreTables bytes.now)
            (λ lists. (lists ≡ bytes.now) × AreTables bytes.now) }
    {
        if are_tables(bytes) {
            Some(Lists { bytes })
        } else {
            None
        }
    }

    /// The lists of bytes whose tables were found in order.
    pub fn again(bytes: &'t [u8]) -> Lists<'t>
        requires { AreTables bytes.now }
        ensures { result ≡ bytes.now }
    {
        Lists { bytes }
    }

    /// How many lists there are.
    pub fn count(&self) -> u32
        ensures { result ≡ list_count self.now }
    {
        table_word(self.bytes, 0)
    }

    /// The first attribute of a list, or how many attributes all have.
    #[tactic(auto, using(crate::proofs::Tables::firsts_long, crate::proofs::Tables::first_small))]
    pub(crate) fn first(&self, number: usize) -> u32
        requires { number ≤ list_count self.now }
        ensures value { result ≡ first_of self.now number }
        ensures small { result ≤ attribute_count self.now }
    {
        table_word(self.bytes, number + 1)
    }

    /// The name of an attribute.
    pub(crate) fn name(&self, number: u32) -> &'t [u8]
        requires { number < attribute_count self.now }
        ensures value { result.now ≡ piece self.now (2 * number) }
        ensures small { length result.now < 2 ^ 32 }
    {
        self.piece(2 * number as usize)
    }

    /// Its value.
    pub(crate) fn value(&self, number: u32) -> &'t [u8]
        requires { number < attribute_count self.now }
        ensures { result.now ≡ piece self.now (2 * number + 1) }
    {
        self.piece(2 * number as usize + 1)
    }

    // A name or value.
    #[tactic(auto, unfolding(romfs_format::specs::Part::piece))]
    fn piece(&self, number: usize) -> &'t [u8]
        requires { number < 2 * attribute_count self.now }
        ensures value { result.now ≡ piece self.now number }
        ensures small { length result.now < 2 ^ 32 }
    {
        let bytes = self.bytes;
        let start = self.edge(number) as usize;
        let end = self.edge(number + 1) as usize;
        slice_of(bytes, start, end)
    }

    // Where a name or value begins.
    #[tactic(auto, using(crate::proofs::Tables::edges_long))]
    fn edge(&self, number: usize) -> u32
        requires { number ≤ 2 * attribute_count self.now }
        ensures { result ≡ edge self.now number }
    {
        table_word(self.bytes, self.count() as usize + 2 + number)
    }
}

// Whether the tables lie in the bytes, and lead inside in order.
fn are_tables(bytes: &[u8]) -> bool
    ensures { IsTrue result ↔ AreTables bytes.now }
{
    if bytes.len() < 8 {
        return false;
    }
    let lists = table_word(bytes, 0) as usize;
    if bytes.len() < 4 * (lists + 2) || table_word(bytes, 1) != 0 {
        return false;
    }
    let attributes = table_word(bytes, lists + 1) as usize;
    if bytes.len() < 4 * (lists + 2 + (2 * attributes + 1)) {
        return false;
    }
    firsts_rise(bytes, lists)
        && edges_rise(bytes, lists, attributes)
        && table_word(bytes, lists + 2 + 2 * attributes) as usize <= bytes.len()
}

// Whether each list begins before the next.
fn firsts_rise(bytes: &[u8], lists: usize) -> bool
    requires is { lists ≡ list_count bytes.now }
    requires long { 4 * (lists + 2) ≤ length bytes.now }
    ensures { result ≡ holds_below (list_count bytes.now)
        (λ j. nat_lt (first_of bytes.now j) (first_of bytes.now (j + 1))) }
{
    for number in 0..lists {
        if table_word(bytes, number + 1) >= table_word(bytes, number + 1 + 1) {
            return false;
        }
    }
    true
}

// Whether no name or value begins before the one before it.
fn edges_rise(bytes: &[u8], lists: usize, attributes: usize) -> bool
    requires is { lists ≡ list_count bytes.now }
    requires has { attributes ≡ attribute_count bytes.now }
    requires long { 4 * table_size bytes.now ≤ length bytes.now }
    ensures { result ≡ holds_below (2 * attribute_count bytes.now)
        (λ k. nat_le (edge bytes.now k) (edge bytes.now (k + 1))) }
{
    for number in 0..2 * attributes {
        if table_word(bytes, lists + 2 + number) > table_word(bytes, lists + 2 + (number + 1)) {
            return false;
        }
    }
    true
}

// The bytes between two places.
fn slice_of(bytes: &[u8], start: usize, end: usize) -> &[u8]
    requires order { start ≤ end }
    requires within { end ≤ length bytes.now }
    ensures value { result.now ≡ take (end - start) (drop start bytes.now) }
    ensures long { length result.now ≡ end - start }
{
    let rest = &bytes[start..];
    &rest[..end - start]
}

// A word of the tables.
fn table_word(bytes: &[u8], number: usize) -> u32
    requires { 4 * number + 4 ≤ length bytes.now }
    ensures { result ≡ table_word bytes.now number }
{
    word(bytes, 4 * number)
}
