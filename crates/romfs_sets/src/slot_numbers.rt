//! The numbers of the slots of a set, from 0, upward. For each word of the set the count of its
//! slots in the words before is kept, so a number is found from two words:
//!
//! ```text
//! set     ..1.1... 1....... .11.....
//! before  0        2        3          the number of the last slot is 3 + 1
//! ```
//!
//! A table with an entry for each slot of the set is then as long as the set, and not as long as
//! all slots.

ghost use Rattle.std.specs.Prelude.{◌≡◌, ◌≤◌, ◌^◌, ◌<◌, length, IfOk};
ghost use Rattle.romfs_sets.specs.Sets.{rank};

use crate::slot_set::SlotSet;
use std::alloc::{AllocError, Allocator};
use std::marker::Model;

/// A set of slots with their numbers. A clause sees the set.
#[derive(Drop)]
pub struct SlotNumbers<'s, A: Allocator> {
    set: &'s SlotSet<A>,
    /// By word of the set, how many of its slots are before that word.
    before: Vec<u32, A>,
}

impl<'s, A: Allocator> Model for SlotNumbers<'s, A> {
    ghost use Rattle.std.specs.Prelude.{List, Bool};
    ghost use Rattle.romfs_sets.specs.Sets.{AreCounts};

    ghost Value = { List Bool };

    ghost view = { λ held. held.set.now };

    ghost invariant = { λ held. AreCounts held.set.now held.before.items };
}

impl<'s, A: Allocator + Copy> SlotNumbers<'s, A> {
    /// Numbers the slots of a set. `AllocError` only if memory was refused.
    pub fn of(alloc: A, set: &'s SlotSet<A>) -> Result<SlotNumbers<'s, A>, AllocError>
        requires { length set.now < 2 ^ 32 }
        ensures { IfOk result (λ numbers. numbers ≡ set.now) }
    {
        let words = set.slots() / 64;
        let mut before = Vec::with_capacity(alloc, words + 1)?;
        let mut count = 0;
        for word in 0..words {
            before.push(count)?;
            count += set.count_in_word(word);
        }
        before.push(count)?;
        Ok(SlotNumbers { set, before })
    }
}

impl<'s, A: Allocator> SlotNumbers<'s, A> {
    /// How many of the set are before a slot: its number, if it is in the set.
    pub fn number(&self, slot: usize) -> u32
        requires small { length self.now < 2 ^ 32 }
        requires slot { slot ≤ length self.now }
        ensures { result ≡ rank self.now slot }
    {
        self.before[slot / 64] + self.set.count_before(slot)
    }
}
