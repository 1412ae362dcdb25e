//! Guesses of the places of names, which need not be right.
//!
//! A guess counts only if the row has the name. So a stranger with knowledge of the hash can make a
//! look-up no more expensive than one by keys, except for the few slots that are read.

ghost use Rattle.std.specs.Prelude.{◌≡◌, ◌≤◌, ◌+◌, ◌*◌, ◌^◌, ⊤, length, map, Some, MatchOption, IfOk};
ghost use Rattle.layer_names.specs.Names.{Rise, place_of};

use crate::has_name::HasName;
use crate::key::key_of;
use std::alloc::{AllocError, Allocator};
use std::marker::Model;

/// How many slots are tried for one name: a cache line of them, so fewer than one row in a thousand
/// lacks a slot.
const PROBES: usize = 16;

/// The value of a slot without a row.
const NOWHERE: u32 = u32::MAX;

/// The most rows that are noted.
const MAX_ROWS: usize = 0x8000_0000;

/// Guesses of where the rows of directories are among all rows, by a hash of a directory's number
/// and a name. A contract sees how many slots of four bytes there are.
///
/// The lower bits of a slot are a row's place, as many bits as the last row needs. The others are
/// bits of the hash of its directory and name, which rule out most other names without reading that
/// row. Callers check whether the row at a guessed place has the name, so a wrong or missing guess
/// costs only a search. At most 2^31 rows are noted.
#[derive(Drop)]
pub struct Guesses<A: Allocator> {
    // The slots where the search for a name may begin, and those after them that it may reach.
    slots: Vec<u32, A>,
    // The bits of a slot that are a place.
    place_mask: u32,
}

impl<A: Allocator> Model for Guesses<A> {
    ghost use Rattle.std.specs.Prelude.{ℕ, length};

    ghost Value = { ℕ };

    ghost view = { λ held. length held.slots.items };
}

impl<A: Allocator> Guesses<A> {
    /// No guesses yet, with room for this many rows: 8 to 16 bytes a row. `AllocError` only if
    /// memory is refused.
    pub fn for_rows(alloc: A, rows: usize) -> Result<Self, AllocError>
        ensures { IfOk result (λ slots. slots ≤ 4 * rows + 17) }
    {
        let room = room_for(rows);
        let slots = vec![in alloc; NOWHERE; 2 * room + PROBES - 1]?;
        Ok(Guesses {
            slots,
            place_mask: (room - 1) as u32,
        })
    }

    /// Notes the rows of a directory, which begin at `start` among all rows.
    pub fn note_all<T: HasName>(&mut self, directory: u64, start: usize, rows: &[T])
        ensures { self.new ≡ self.old }
    {
        for (at, row) in rows.iter().enumerate() {
            self.note(directory, row.name(), start.wrapping_add(at));
        }
    }

    /// The place of the row with this name among the rows of a directory, which begin at `start`
    /// among all rows, if it was noted. `None` says nothing about the name.
    pub fn find<T: HasName>(
        &self,
        directory: u64,
        start: usize,
        rows: &[T],
        name: &[u8],
    ) -> Option<usize>
        requires { Rise (map T.name rows.now) }
        ensures { MatchOption result ⊤ (λ at. place_of name.now (map T.name rows.now) ≡ Some at) }
    {
        let hash = hashed(directory, name);
        for slot in self.slots_for(hash) {
            if *slot == NOWHERE {
                return None;
            }
            if let Some(place) = self.place_in(*slot, hash) {
                let at = place.wrapping_sub(start);
                if at < rows.len() && rows[at].name() == name {
                    return Some(at);
                }
            }
        }
        None
    }

    /// Reads the first slots for these hashes ahead. The result is meaningless.
    pub fn read_ahead(&self, hashes: &[u64]) -> u32 {
        let mut sum = 0;
        for hash in hashes {
            sum ^= *self.slots.get(self.first_slot(*hash)).unwrap_or(&NOWHERE);
        }
        sum
    }

    /// The first place that is tried for a directory and a name with this [`hash`](hashed), among
    /// all rows; none if no row was noted for it.
    pub fn first(&self, hash: u64) -> Option<usize> {
        for slot in self.slots_for(hash) {
            if *slot == NOWHERE {
                return None;
            }
            let place = self.place_in(*slot, hash);
            if place.is_some() {
                return place;
            }
        }
        None
    }

    // Notes the place of a row, unless all slots for it are taken.
    fn note(&mut self, directory: u64, name: &[u8], at: usize)
        ensures { self.new ≡ self.old }
    {
        if at > self.place_mask as usize {
            return;
        }
        let hash = hashed(directory, name);
        let noted = (tag(hash) & !self.place_mask) | at as u32;
        let first = self.first_slot(hash);
        for step in 0..PROBES {
            match self.slots.get_mut(first.wrapping_add(step)) {
                Some(slot) if *slot == NOWHERE => {
                    *slot = noted;
                    return;
                }
                _ => {}
            }
        }
    }

    // The slots that are searched for a hash.
    fn slots_for(&self, hash: u64) -> &[u32]
        ensures { length result.now ≤ 16 }
    {
        let first = self.first_slot(hash);
        match self.slots.get(first..first.wrapping_add(PROBES)) {
            Some(slots) => slots,
            None => &[],
        }
    }

    // The first of them, by the upper half of the hash: the number of slots where a search may
    // begin is a power of two.
    fn first_slot(&self, hash: u64) -> usize {
        let last = self.place_mask as usize * 2 + 1;
        (hash >> 32) as usize & last
    }

    // The place in a slot, unless the bits beside it show that it belongs to another name.
    fn place_in(&self, slot: u32, hash: u64) -> Option<usize> {
        if (slot ^ tag(hash)) & !self.place_mask == 0 {
            Some((slot & self.place_mask) as usize)
        } else {
            None
        }
    }
}

// Odd numbers, so multiplication by one loses nothing of the word, and whose bits follow no
// pattern, so each bit of the word affects many higher ones: 2^64 divided by the golden ratio, two
// of the last step of MurmurHash3, and one of degski's mixer. A look-up is right with any numbers.
const GOLDEN: u64 = 0x9e37_79b9_7f4a_7c15;

const FOR_FIRST: u64 = 0xff51_afd7_ed55_8ccd;

const FOR_MIDDLE: u64 = 0xc4ce_b9fe_1a85_ec53;

const FOR_LAST: u64 = 0xd6e8_feb8_6659_fd93;

/// The hash of a directory and a name. Its upper half gives their first slot, whatever the number
/// of slots; its lower half the bits beside a place. Names of up to 24 bytes are hashed in full, of
/// longer names the first, the middle and the last eight bytes.
pub fn hashed(directory: u64, name: &[u8]) -> u64 {
    let len = name.len();
    let begun = directory.wrapping_mul(GOLDEN).wrapping_add(len as u64);
    let words = if len < 8 {
        key_of(name).wrapping_mul(FOR_FIRST)
    } else {
        let first = word(name, 0).wrapping_mul(FOR_FIRST);
        let middle = word(name, (len - 8) / 2).wrapping_mul(FOR_MIDDLE);
        let last = word(name, len - 8).wrapping_mul(FOR_LAST);
        first.wrapping_add(middle).wrapping_add(last)
    };
    let all = begun.wrapping_add(words);
    (all ^ (all >> 32)).wrapping_mul(GOLDEN)
}

// The least power of two that is at least this many rows, and at most the greatest number of rows.
fn room_for(rows: usize) -> usize
    ensures some { 1 ≤ result }
    ensures few { result ≤ 2 * rows + 1 }
    ensures bound { result ≤ 2 ^ 32 }
{
    let mut room = 1;
    while room < rows && room < MAX_ROWS {
        room *= 2;
    }
    room
}

// The bits of a hash that may be in a slot beside a place.
fn tag(hash: u64) -> u32 {
    (hash & 0xffff_ffff) as u32
}

// The eight bytes of a name from this one on.
fn word(name: &[u8], at: usize) -> u64
    requires { at + 8 ≤ length name.now }
{
    u64::from_le_bytes([
        name[at],
        name[at + 1],
        name[at + 2],
        name[at + 3],
        name[at + 4],
        name[at + 5],
        name[at + 6],
        name[at + 7],
    ])
}
