//! Sets of slots.
//!
//! A set has a bit for each slot, 64 a word, an eighth of a byte for the 16 bytes of a slot. A scan
//! of its slots skips an empty word in one step.

ghost use Rattle.std.specs.Prelude.{◌≡◌, ◌+◌, ◌*◌, ◌/◌, ◌<◌, ◌≤◌, ◌^◌, false, true, length, get_or, set, replicate, IfOk};
ghost use Rattle.romfs_sets.specs.Sets.{IsNextSlot, IsNextOfEither, IsUnion, rank};

use std::alloc::{AllocError, Allocator};
use std::marker::Model;

/// A set of slots, of those below a number. A clause sees whether each is in it.
#[derive(Drop)]
pub struct SlotSet<A: Allocator> {
    words: Vec<u64, A>,
    slots: usize,
}

impl<A: Allocator> Model for SlotSet<A> {
    ghost use Rattle.std.specs.Prelude.{◌<◌, ◌≤◌, ◌*◌, ◌/◌, ◌^◌, List, Bool, length};
    ghost use Rattle.romfs_sets.specs.Sets.{bits};

    ghost Value = { List Bool };

    ghost view = { λ held. bits held.slots held.words.items };

    ghost invariant = { λ held. (held.slots ≤ length held.words.items * 64) × (held.slots < 2 ^ 32)
        × (held.slots / 64 < length held.words.items) };
}

impl<A: Allocator> SlotSet<A> {
    /// The empty set of slots below a number. `AllocError` only if memory was refused.
    pub fn new(alloc: A, slots: usize) -> Result<SlotSet<A>, AllocError>
        requires { slots < 2 ^ 32 }
        ensures { IfOk result (λ empty. empty ≡ replicate slots false) }
    {
        let words = vec![in alloc; 0u64; slots / 64 + 1]?;
        Ok(SlotSet { words, slots })
    }

    /// The number below which its slots are.
    #[tactic(auto, using(crate::proofs::Bits::bits_length))]
    pub(crate) fn slots(&self) -> usize
        ensures { result ≡ length self.now }
    {
        self.slots
    }

    /// Whether a slot is in the set.
    #[tactic(auto, using(crate::proofs::Bits::bits_length))]
    pub fn contains(&self, slot: usize) -> bool
        requires { slot < length self.now }
        ensures { result ≡ get_or self.now slot false }
    {
        self.words[slot / 64] >> (slot % 64) & 1 == 1
    }

    /// How many of the set are in a complete word of slots.
    #[tactic(auto, using(crate::proofs::Bits::bits_length))]
    pub(crate) fn count_in_word(&self, word: usize) -> u32
        requires { word * 64 + 64 ≤ length self.now }
        ensures count { rank self.now (word * 64 + 64) ≡ rank self.now (word * 64) + result }
        ensures few { result ≤ 64 }
    {
        self.words[word].count_ones()
    }

    /// How many of the set are before a slot in its word.
    #[tactic(auto, using(crate::proofs::Bits::bits_length))]
    pub(crate) fn count_before(&self, slot: usize) -> u32
        requires { slot ≤ length self.now }
        ensures count { rank self.now slot ≡ rank self.now (slot / 64 * 64) + result }
        ensures few { result ≤ 64 }
    {
        (self.words[slot / 64] & ((1u64 << (slot % 64)) - 1)).count_ones()
    }

    /// Adds a slot.
    #[tactic(auto, using(crate::proofs::Bits::bits_length))]
    pub fn insert(&mut self, slot: usize)
        requires { slot < length self.old }
        ensures { self.new ≡ set self.old slot true }
    {
        self.words[slot / 64] |= 1 << (slot % 64);
    }

    /// Adds the slots of another set.
    pub fn add_all(&mut self, other: &SlotSet<A>)
        requires { length other.now ≡ length self.old }
        ensures { IsUnion self.old other.now self.new }
    {
        let mut from = 0;
        while let Some(slot) = other.next_from(from) {
            self.insert(slot);
            from = slot + 1;
        }
    }

    /// The first slot from a slot on that is in this set or in another; none if none is.
    pub fn next_of_either(&self, other: &SlotSet<A>, from: usize) -> Option<usize>
        requires { length other.now ≡ length self.now }
        ensures next { IsNextOfEither self.now other.now from result }
        ensures small { length self.now < 2 ^ 32 }
    {
        let mut slot = from;
        while slot < self.slots {
            let both = self.words[slot / 64] | other.words[slot / 64];
            let word = both & (u64::MAX << (slot % 64));
            if word != 0 {
                let found = slot / 64 * 64 + word.trailing_zeros() as usize;
                return if found < self.slots {
                    Some(found)
                } else {
                    None
                };
            }
            slot = (slot / 64 + 1) * 64;
        }
        None
    }

    /// The first slot of the set from a slot on; none if there is none.
    #[tactic(auto, using(crate::proofs::Unions::next_of_one))]
    pub fn next_from(&self, from: usize) -> Option<usize>
        ensures next { IsNextSlot self.now from result }
        ensures small { length self.now < 2 ^ 32 }
    {
        self.next_of_either(self, from)
    }
}
