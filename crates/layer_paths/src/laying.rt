//! Trees laid one on another.

ghost use Rattle.std.specs.Prelude.{◌≡◌, ◌<◌, ◌++◌, length, IfOk, OnOk};
ghost use Rattle.layer_paths.specs.Rows.{IsForest};
ghost use Rattle.layer_paths.specs.Laying.{IsLaid, AreLaid, CoversFirst};

use crate::moving::{pass_first, take_first};
use crate::{Branch, Lay};
use std::alloc::{AllocError, Allocator};
use std::cmp::Ordering;
use std::collections::VecDeque;

/// One tree laid on another. At each path the result has the values of both, one laid on the other;
/// if only one tree has a value, that one. Names are those of the upper tree.
///
/// Directories of both trees are merged child by child; what only one has is moved without being
/// read. `AllocError` only if memory is refused; both trees are then dropped.
pub fn cover<T: Lay, A: Allocator + Copy>(
    alloc: A,
    low: Branch<T, A>,
    high: Branch<T, A>,
) -> Result<Branch<T, A>, AllocError>
    ensures { IfOk result (λ b. IsLaid T.laid low high b) }
{
    let (_, below, lows) = low.into_parts();
    let (name, above, highs) = high.into_parts();
    let children = merge(alloc, lows, highs)?;
    Ok(Branch::new(name, T::lay(below, above), children))
}

/// The branches of a directory, laid on those of another one. `AllocError` only if memory is
/// refused; the branches of both are then dropped.
#[cycle(laying)]
pub fn merge<T: Lay, A: Allocator + Copy>(
    alloc: A,
    lows: Vec<Branch<T, A>, A>,
    highs: Vec<Branch<T, A>, A>,
) -> Result<Vec<Branch<T, A>, A>, AllocError>
    requires low { IsForest lows.items }
    requires high { IsForest highs.items }
    ensures { IfOk result (λ out. AreLaid T.laid lows.items highs.items out.items) }
{
    if lows.is_empty() {
        return Ok(highs);
    }
    if highs.is_empty() {
        return Ok(lows);
    }
    let mut out = Vec::with_capacity(alloc, lows.len().saturating_add(highs.len()))?;
    let mut lows = VecDeque::from(lows);
    let mut highs = VecDeque::from(highs);
    while let (Some(low), Some(high)) = (lows.front(), highs.front()) {
        match low.order(high.name()) {
            Ordering::Less => pass_first(&mut lows, &mut out)?,
            Ordering::Greater => pass_first(&mut highs, &mut out)?,
            Ordering::Equal => out.push(cover_first(alloc, &mut lows, &mut highs)?)?,
        }
    }
    // one of the two is empty now
    append(&mut out, lows)?;
    append(&mut out, highs)?;
    Ok(out)
}

/// The first branches of two directories, taken from both, one laid on the other.
#[cycle(laying)]
fn cover_first<T: Lay, A: Allocator + Copy>(
    alloc: A,
    lows: &mut VecDeque<Branch<T, A>, A>,
    highs: &mut VecDeque<Branch<T, A>, A>,
) -> Result<Branch<T, A>, AllocError>
    requires low { 0 < length lows.old.items }
    requires high { 0 < length highs.old.items }
    ensures { IfOk result (CoversFirst T.laid
        lows.old.items lows.new.items highs.old.items highs.new.items) }
{
    let (_, below, low) = take_first(lows);
    let (name, above, high) = take_first(highs);
    let children = merge(alloc, low, high)?;
    Ok(Branch::new(name, T::lay(below, above), children))
}

/// Adds all remaining branches.
#[inline(never)]
fn append<T: Copy + Drop, A: Allocator>(
    out: &mut Vec<Branch<T, A>, A>,
    left: VecDeque<Branch<T, A>, A>,
) -> Result<(), AllocError>
    ensures { OnOk result (out.new.items ≡ out.old.items ++ left.items) }
{
    if left.is_empty() {
        return Ok(());
    }
    out.append(&mut Vec::from(left))?;
    Ok(())
}
