//! Two trees, neither of which has a file where the other has a directory or something below.
//!
//! Most trees that are laid on one another are such. Both are traversed once, in step, and nothing
//! is made.

ghost use Rattle.std.specs.Prelude.{◌≡◌, IsTrue};
ghost use Rattle.layer_paths.specs.Rows.{IsForest};
ghost use Rattle.layer_tree.specs.Laying.{AreApart, IsApart};

use crate::clashes::is_bare;
use crate::laying::seek;
use layer_paths::{Branch, Cuts};
use std::alloc::Allocator;

/// Whether the branches of two directories are known not to clash.
#[cycle(meeting)]
pub(crate) fn are_apart<T: Cuts, A: Allocator>(
    lows: &[Branch<T, A>],
    highs: &[Branch<T, A>],
) -> bool
    requires lows { IsForest lows.now }
    requires highs { IsForest highs.now }
    ensures { IsTrue result → AreApart T.removed lows.now highs.now }
{
    if highs.len() < lows.len() {
        few_are_apart(highs, lows)
    } else {
        few_are_apart(lows, highs)
    }
}

/// The same, by traversing the first, which are fewer.
#[cycle(meeting)]
fn few_are_apart<T: Cuts, A: Allocator>(few: &[Branch<T, A>], many: &[Branch<T, A>]) -> bool
    requires few { IsForest few.now }
    requires many { IsForest many.now }
    ensures { IsTrue result → AreApart T.removed few.now many.now }
{
    let mut left = few;
    let mut rest = many;
    while let Some((one, later)) = left.split_first() {
        let (ahead, found) = seek(rest, one.name());
        rest = ahead;
        if let Some(other) = found {
            if !is_apart(one, other) {
                return false;
            }
        }
        left = later;
    }
    true
}

/// The same for two branches.
#[cycle(meeting)]
fn is_apart<T: Cuts, A: Allocator>(low: &Branch<T, A>, high: &Branch<T, A>) -> bool
    ensures { IsTrue result → IsApart T.removed low.now high.now }
{
    if low.value().mark().cut || high.value().mark().cut {
        return is_bare(low) && is_bare(high);
    }
    are_apart(low.children(), high.children())
}
