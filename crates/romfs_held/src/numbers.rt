//! The numbers of blocks that are kept, and how one is found among them.
//!
//! All numbers up to the last are cut into stretches of one length, a power of two, with about 32
//! kept numbers each. If small files lie beside huge ones, most stretches have none and a few have
//! very many. Each is therefore cut once more, into parts of one length, as many as leave eight to
//! sixteen numbers for each. For a part, the number of kept ones before it is noted. A block is
//! usually among the first sixteen from there on, which are tried one by one. A note is a guess:
//! for any other block it is checked against the numbers at its ends and searched by halves. If it
//! is wrong, or there is none, all numbers are searched. Notes take less than a byte for each
//! block, and three steps. If all blocks up to one are kept, or from one to the last, as those of a
//! trailer are, it is found without notes: its number tells its position.

ghost use Rattle.std.specs.Prelude.{◌≡◌, ◌<◌, ◌≤◌, ◌^◌, length, slice_index, IsTrue, IfSome};
ghost use Rattle.romfs_held.specs.Blocks.{Rises, IsRank, HoldsRank};

use std::alloc::{AllocError, Allocator};

/// How many numbers a part should have at least.
const FEW: usize = 8;

/// How many numbers a stretch should have.
const MANY: usize = 4 * FEW;

/// How many numbers from the first of a part on are looked at one by one: as many as a part has at
/// most if they lie evenly, which are in one or two cache lines.
const NEAR: usize = 2 * FEW;

/// The numbers of blocks, rising, with what is noted of them.
#[derive(Clone, Copy)]
pub(crate) struct Numbers<'a> {
    pub(crate) all: &'a [u32],
    /// Where the notes of each stretch's parts are.
    stretches: &'a [Stretch],
    /// By part, how many numbers precede it; then how many there are.
    notes: &'a [u32],
    /// How many binary digits a number has within its stretch.
    digits: u32,
}

impl<'a> Numbers<'a> {
    /// How many blocks have a number below this one.
    #[inline(always)]
    pub(crate) fn rank(&self, block: u32) -> usize
        requires { Rises self.now.all.now }
        ensures { IsRank self.now.all.now block result }
    {
        match self.found_soon(block) {
            Some(position) => position,
            None => self.rank_between(block),
        }
    }

    // The same, of a block that is not among the first of its part.
    #[inline(never)]
    fn rank_between(&self, block: u32) -> usize
        requires { Rises self.now.all.now }
        ensures { IsRank self.now.all.now block result }
    {
        let within = self.within(block);
        rank_within(self.all, within, block)
    }

    // The position of the block, if all blocks up to it, or from it to the last, are kept, or it is
    // among the first of its part.
    #[inline(always)]
    fn found_soon(&self, block: u32) -> Option<usize>
        ensures { IfSome result (λ at. (at < length self.now.all.now)
            × (slice_index self.now.all.now at ≡ block)) }
    {
        let all = self.all;
        let first = block as usize;
        if first < all.len() && all[first] == block {
            return Some(first);
        }
        if let Some(position) = self.from_last(block) {
            return Some(position);
        }
        let part = part_of(self.stretches, self.digits, block)?;
        let low = *self.notes.get(part)? as usize;
        let high = all.len().min(low.saturating_add(NEAR));
        for position in low..high {
            if all[position] == block {
                return Some(position);
            }
        }
        None
    }

    // The position of the block, if all blocks from it to the last are kept.
    #[inline(always)]
    fn from_last(&self, block: u32) -> Option<usize>
        ensures { IfSome result (λ at. (at < length self.now.all.now)
            × (slice_index self.now.all.now at ≡ block)) }
    {
        let behind = self.all.last()?.checked_sub(block)? as usize;
        let position = self.all.len().checked_sub(behind + 1)?;
        if self.all[position] == block {
            Some(position)
        } else {
            None
        }
    }

    // Between which positions the rank of a block is.
    fn within(&self, block: u32) -> Within
        requires { Rises self.now.all.now }
        ensures { HoldsRank self.now.all.now block result.low result.high }
    {
        match self.noted(block) {
            Some(guess) if holds(self.all, guess, block) => guess,
            _ => Within {
                low: 0,
                high: self.all.len(),
            },
        }
    }

    // The same, from the notes.
    fn noted(&self, block: u32) -> Option<Within> {
        let part = part_of(self.stretches, self.digits, block)?;
        Some(Within {
            low: *self.notes.get(part)? as usize,
            high: *self.notes.get(part + 1)? as usize,
        })
    }
}

/// How a stretch is cut into parts of one length, a power of two.
#[derive(Clone, Copy)]
struct Stretch {
    /// Where the note of its first part is, less the number of that part among all parts of this
    /// length. While numbers are counted, how many it has.
    first: u32,
    /// How many binary digits a number has within its part.
    digits: u32,
}

/// The notes on numbers, which are lent with them.
#[derive(Drop)]
pub(crate) struct Stretches<A: Allocator> {
    all: Vec<Stretch, A>,
    notes: Vec<u32, A>,
    digits: u32,
}

impl<A: Allocator + Copy> Stretches<A> {
    /// No notes yet.
    pub(crate) fn new(alloc: A) -> Stretches<A> {
        Stretches {
            all: Vec::new(alloc),
            notes: Vec::new(alloc),
            digits: 0,
        }
    }
}

impl<A: Allocator> Stretches<A> {
    /// Notes these numbers, instead of earlier ones.
    pub(crate) fn note(&mut self, numbers: &[u32]) -> Result<(), AllocError> {
        self.all.clear();
        self.notes.clear();
        self.digits = digits_for(numbers);
        count_numbers(&mut self.all, numbers, self.digits)?;
        let parts = cut_into_parts(&mut self.all, self.digits);
        self.notes.reserve_exact(parts as usize + 1)?;
        note_parts(&mut self.notes, &self.all, numbers, self.digits)?;
        self.all.shrink_to_fit();
        Ok(())
    }

    /// Drops what is noted beyond these numbers, the first of those that were noted, with its
    /// memory if the allocator grants a smaller one.
    pub(crate) fn keep_first(&mut self, numbers: &[u32]) {
        let last = match numbers.last() {
            Some(last) => *last,
            None => 0,
        };
        if let Some(part) = part_of(&self.all, self.digits, last) {
            self.notes.truncate(part + 2);
        }
        self.all.truncate(without(last, self.digits) as usize + 1);
        self.notes.shrink_to_fit();
        self.all.shrink_to_fit();
    }

    /// Numbers, with their notes.
    pub(crate) fn beside<'a>(&'a self, numbers: &'a [u32]) -> Numbers<'a>
        ensures { result.all.now ≡ numbers.now }
    {
        Numbers {
            all: numbers,
            stretches: &self.all,
            notes: &self.notes,
            digits: self.digits,
        }
    }
}

/// Positions of numbers, from the lowest to the one after the highest.
#[derive(Clone, Copy)]
pub(crate) struct Within {
    low: usize,
    high: usize,
}

// Where the note of a number's part is, if a number has this many digits within its stretch.
#[inline(always)]
fn part_of(stretches: &[Stretch], digits: u32, number: u32) -> Option<usize>
    ensures { IfSome result (λ part. part < 2 ^ 32) }
{
    let stretch = stretches.get(without(number, digits) as usize)?;
    let part = without(number, stretch.digits);
    Some(stretch.first.wrapping_add(part) as usize)
}

// A number without this many of its last binary digits, fewer than 32.
#[inline(always)]
fn without(number: u32, digits: u32) -> u32 {
    number >> (digits % 32)
}

// How many binary digits a number has within its stretch, if stretches are to have few of these
// numbers each.
fn digits_for(numbers: &[u32]) -> u32 {
    match numbers.last() {
        None => 0,
        Some(last) => {
            let stretches = numbers.len() / MANY + 1;
            let wide = *last as usize / stretches;
            64 - wide.leading_zeros()
        }
    }
}

// Counts the numbers of each stretch, up to the last that has one.
fn count_numbers<A: Allocator>(
    stretches: &mut Vec<Stretch, A>,
    numbers: &[u32],
    digits: u32,
) -> Result<(), AllocError> {
    for number in numbers {
        let at = without(*number, digits) as usize;
        if stretches.len() <= at {
            stretches.resize(at + 1, Stretch { first: 0, digits })?;
        }
        if let Some(stretch) = stretches.get_mut(at) {
            stretch.first = stretch.first.wrapping_add(1);
        }
    }
    Ok(())
}

// Cuts stretches, whose numbers were counted, into parts, and returns how many parts there are.
fn cut_into_parts(stretches: &mut [Stretch], digits: u32) -> u32 {
    let mut parts: u32 = 0;
    let mut number: u32 = 0;
    for stretch in stretches.iter_mut() {
        let cuts = cuts_for(stretch.first).min(digits);
        let own = if stretch.first > 0 { 1 } else { 0 };
        *stretch = Stretch {
            first: parts.wrapping_sub(number << (cuts % 32)),
            digits: digits - cuts,
        };
        parts = parts.wrapping_add(own << (cuts % 32));
        number = number.wrapping_add(1);
    }
    parts
}

// How often a stretch of this many numbers is cut in two, and each of its parts again.
fn cuts_for(count: u32) -> u32 {
    31u32.saturating_sub((count / FEW as u32).leading_zeros())
}

// Notes how many numbers precede each part, and how many there are.
fn note_parts<A: Allocator>(
    notes: &mut Vec<u32, A>,
    stretches: &[Stretch],
    numbers: &[u32],
    digits: u32,
) -> Result<(), AllocError> {
    let mut before = 0u32;
    for number in numbers {
        if let Some(part) = part_of(stretches, digits, *number) {
            if notes.len() <= part {
                notes.resize(part + 1, before)?;
            }
        }
        before = before.wrapping_add(1);
    }
    notes.push(before)?;
    Ok(())
}

// Whether the rank of a block is between these positions, by the numbers at both ends.
fn holds(all: &[u32], guess: Within, block: u32) -> bool
    requires { Rises all.now }
    ensures { IsTrue result → HoldsRank all.now block guess.low guess.high }
{
    let Within { low, high } = guess;
    if low > high || high > all.len() {
        return false;
    }
    let above = low == 0 || all[low - 1] < block;
    let below = high == all.len() || block <= all[high];
    above && below
}

// The rank of a block between these positions, by binary search.
fn rank_within(all: &[u32], within: Within, block: u32) -> usize
    requires rises { Rises all.now }
    requires within { HoldsRank all.now block within.low within.high }
    ensures { IsRank all.now block result }
{
    let Within { mut low, mut high } = within;
    while low < high {
        let middle = low + (high - low) / 2;
        if all[middle] < block {
            low = middle + 1;
        } else {
            high = middle;
        }
    }
    low
}
