//! Slots into which more than one key falls.
//!
//! There are eight slots for each key, and two bits for each slot: whether a key fell into it, and
//! whether a second one did. A key is alone in its slot if the second bit is not set.

ghost use Rattle.std.specs.Prelude.{◌≡◌, ◌≤◌, ◌<◌, ◌^◌, length, IfOk, IsTrue};
ghost use Rattle.romfs_sets.specs.Slots.{slot_of, Falls, IsAlone, AreCrowded};

use crate::SlotSet;
use std::alloc::{AllocError, Allocator};

/// How many slots there are for each key.
const SLOTS_A_KEY: usize = 8;

/// How many slots there are at most.
const MAX_SLOTS: usize = 0xffff_ffff;

/// How many slots there are for this many keys.
pub(crate) fn slots_for(keys: usize) -> usize
    ensures { result < 2 ^ 32 }
{
    keys.saturating_mul(SLOTS_A_KEY).min(MAX_SLOTS)
}

/// The slots, of this many, into which more than one of these keys fell.
pub(crate) fn crowded<A: Allocator + Copy>(
    alloc: A,
    keys: &[u64],
    slots: usize,
) -> Result<SlotSet<A>, AllocError>
    requires { slots < 2 ^ 32 }
    ensures level { IfOk result (λ crowded. length crowded ≡ slots) }
    ensures told { IfOk result (λ crowded. AreCrowded keys.now crowded) }
{
    let mut some = SlotSet::new(alloc, slots)?;
    let mut crowded = SlotSet::new(alloc, slots)?;
    for key in keys {
        let slot = slot_of(*key, slots);
        if slot < slots {
            fall(&mut some, &mut crowded, slot);
        }
    }
    Ok(crowded)
}

/// Whether a key fell into its slot alone.
pub(crate) fn is_alone<A: Allocator>(crowded: &SlotSet<A>, slots: usize, key: u64) -> bool
    requires few { slots < 2 ^ 32 }
    requires level { length crowded.now ≡ slots }
    ensures { IsTrue result → IsAlone crowded.now key }
{
    let slot = slot_of(key, slots);
    slot < slots && !crowded.contains(slot)
}

// The slot of a key among this many. Small multiples of 16, as places of headers are, have slots of
// their own.
fn slot_of(key: u64, slots: usize) -> usize
    requires { slots < 2 ^ 32 }
    ensures { result ≡ slot_of key slots }
{
    if key / 16 < slots as u64 {
        return (key / 16) as usize;
    }
    let (upper, lower) = (key / 0x1_0000_0000, key % 0x1_0000_0000);
    let mixed = (lower * 0x9e37_79b1 + upper * 0x85eb) % 0x1_0000_0000;
    (mixed * slots as u64 / 0x1_0000_0000) as usize
}

// A key falls into a slot.
fn fall<A: Allocator>(some: &mut SlotSet<A>, crowded: &mut SlotSet<A>, slot: usize)
    requires some { slot < length some.old }
    requires crowded { slot < length crowded.old }
    ensures { Falls some.old crowded.old slot some.new crowded.new }
{
    if some.contains(slot) {
        crowded.insert(slot);
    }
    some.insert(slot);
}
