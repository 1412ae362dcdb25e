//! A number kept for each slot of a set.

ghost use Rattle.std.specs.Prelude.{◌≡◌, ◌^◌, ◌<◌, length, IfOk, true, false, get_or, set, replicate};
ghost use Rattle.romfs_sets.specs.Words.{Words};

use crate::slot_numbers::SlotNumbers;
use crate::slot_set::SlotSet;
use std::alloc::{AllocError, Allocator};
use std::marker::Model;

/// A number for each slot of a set. A clause sees the set, and the numbers by slot: 0 for a slot
/// that is not in the set. It takes 4 bytes for each slot of the set.
#[derive(Drop)]
pub struct SlotWords<'s, A: Allocator> {
    numbers: SlotNumbers<'s, A>,
    /// By the number of a slot in the set.
    words: Vec<u32, A>,
}

impl<'s, A: Allocator> Model for SlotWords<'s, A> {
    ghost use Rattle.std.specs.Prelude.{◌≡◌, ◌^◌, ◌<◌, length};
    ghost use Rattle.romfs_sets.specs.Sets.{rank};
    ghost use Rattle.romfs_sets.specs.Words.{Words, words_by_slot};

    ghost Value = { Words };

    ghost view = { λ held.
        record { slots = held.numbers; by_slot = words_by_slot held.numbers held.words.items } };

    ghost invariant = { λ held. (length held.words.items ≡ rank held.numbers (length held.numbers))
        × (length held.numbers < 2 ^ 32) };
}

impl<'s, A: Allocator + Copy> SlotWords<'s, A> {
    /// A 0 for each slot of a set. `AllocError` only if memory was refused.
    pub fn new(alloc: A, slots: &'s SlotSet<A>) -> Result<SlotWords<'s, A>, AllocError>
        requires { length slots.now < 2 ^ 32 }
        ensures { IfOk result (λ kept. (kept.slots ≡ slots.now)
            × (kept.by_slot ≡ replicate (length slots.now) 0)) }
    {
        let numbers = SlotNumbers::of(alloc, slots)?;
        let words = vec![in alloc; 0u32; numbers.number(slots.slots()) as usize]?;
        Ok(SlotWords { numbers, words })
    }
}

impl<'s, A: Allocator> SlotWords<'s, A> {
    /// The number kept for a slot of the set.
    pub fn at(&self, slot: usize) -> u32
        requires { get_or self.now.slots slot false ≡ true }
        ensures { result ≡ get_or self.now.by_slot slot 0 }
    {
        self.words[self.numbers.number(slot) as usize]
    }

    /// Keeps a number for a slot of the set.
    pub fn put(&mut self, slot: usize, word: u32)
        requires { get_or self.old.slots slot false ≡ true }
        ensures same { self.new.slots ≡ self.old.slots }
        ensures put { self.new.by_slot ≡ set self.old.by_slot slot word }
    {
        let number = self.numbers.number(slot);
        self.words[number as usize] = word;
    }
}
