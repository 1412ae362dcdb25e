//! Which keys occur once.

ghost use Rattle.std.specs.Prelude.{IfOk};
ghost use Rattle.romfs_sets.specs.Once.{AreSeenOnce};

use crate::crowded::{crowded, is_alone, slots_for};
use std::alloc::{AllocError, Allocator};

/// For each of these keys whether it was found to occur once in the list. A key that was not found
/// may still occur once.
///
/// `AllocError` only if memory was refused.
pub fn seen_once<A: Allocator + Copy>(alloc: A, keys: &[u64]) -> Result<Vec<bool, A>, AllocError>
    ensures { IfOk result (λ once. AreSeenOnce keys.now once.items) }
{
    let slots = slots_for(keys.len());
    let crowded = crowded(alloc, keys, slots)?;
    let mut once = Vec::with_capacity(alloc, keys.len())?;
    for key in keys {
        once.push(is_alone(&crowded, slots, *key))?;
    }
    Ok(once)
}
