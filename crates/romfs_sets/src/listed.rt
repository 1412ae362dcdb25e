//! Places in rising lists.

ghost use Rattle.std.specs.Prelude.{◌<◌, ◌↔◌, ◌^◌, IfOk, IsTrue, Contains, length};
ghost use Rattle.std.specs.List.Sorted.{IsNonDecreasing};
ghost use Rattle.romfs_sets.specs.Listed.{AreCollected};

use crate::slot_set::SlotSet;
use std::alloc::{AllocError, Allocator};

/// The places of the slots of a set, rising: 16 times the number of each. `AllocError` only if
/// memory was refused.
pub fn places_of<A: Allocator + Copy>(alloc: A, set: &SlotSet<A>) -> Result<Vec<u32, A>, AllocError>
    requires few { length set.now < 2 ^ 28 }
    ensures { IfOk result (λ places. AreCollected set.now (length set.now) places.items) }
{
    let mut places = Vec::new(alloc);
    let mut from = 0;
    while let Some(slot) = set.next_from(from) {
        places.push((slot * 16) as u32)?;
        from = slot + 1;
    }
    Ok(places)
}

/// Whether a place is among places in rising order.
pub fn is_listed(places: &[u32], at: usize) -> bool
    requires rising { IsNonDecreasing places.now }
    requires at { at < 2 ^ 32 }
    ensures { IsTrue result ↔ Contains places.now at }
{
    places.binary_search(&(at as u32)).is_ok()
}
