//! The first place of each number in a list.
//!
//! Most keys occur once: these are skipped, and the others are sorted with their places.

ghost use Rattle.std.specs.Prelude.{IfOk};
ghost use Rattle.node_table.specs.Firsts.{ArePlacesByKey, AreFirsts, AreThemselves};

use romfs_sets::seen_once;
use std::alloc::{AllocError, Allocator};

// For each place of a list, the first place with the same key. It takes n log n steps.
pub(crate) fn firsts_of<A: Allocator + Copy>(
    alloc: A,
    keys: &[u64],
) -> Result<Vec<usize, A>, AllocError>
    ensures { IfOk result (λ firsts. AreFirsts keys.now firsts.items) }
{
    let by_key = places_by_key(alloc, keys)?;
    let mut firsts = themselves(alloc, keys.len())?;
    // the key that was met last, with its first place
    let mut group = (0, 0);
    for (i, keyed) in by_key.iter().enumerate() {
        if i == 0 || keyed.0 != group.0 {
            group = *keyed;
        }
        firsts[keyed.1] = group.1;
    }
    Ok(firsts)
}

// Keys with their places, in the order of keys, then of places. Some keys that occur once are left
// out.
fn places_by_key<A: Allocator + Copy>(
    alloc: A,
    keys: &[u64],
) -> Result<Vec<(u64, usize), A>, AllocError>
    ensures { IfOk result (λ by_key. ArePlacesByKey keys.now by_key.items) }
{
    let once = seen_once(alloc, keys)?;
    let mut by_key = Vec::new(alloc);
    for (at, key) in keys.iter().enumerate() {
        if once[at] {
            continue;
        }
        by_key.push((*key, at))?;
    }
    by_key.sort_unstable();
    Ok(by_key)
}

// The places of a list of this length, each as its own first.
fn themselves<A: Allocator + Copy>(alloc: A, len: usize) -> Result<Vec<usize, A>, AllocError>
    ensures { IfOk result (λ places. AreThemselves len places.items) }
{
    let mut places = Vec::with_capacity(alloc, len)?;
    for at in 0..len {
        places.push(at)?;
    }
    Ok(places)
}
