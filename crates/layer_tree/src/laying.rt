//! One tree laid on another.
//!
//! The entries of the lower tree lose what the upper tree removes: what its marks cut, and what
//! lies below its files. Its entries cover what remains. The marks of both are united, with a mark
//! for each file of the lower tree on which the upper one lays a directory (`clashes`): the run of
//! both cuts what that file cuts.
//!
//! A result that passes through `?` and `Ok` gets a promise in other terms.

ghost use Rattle.std.specs.Prelude.{◌≡◌, ◌<◌, ◌+◌, [], ◌∷◌, ◌++◌, ℕ, List, length, IfOk, OnOk, false};
ghost use Rattle.layer_paths.specs.Rows.{NamesRise, IsForest, IsFirstNamed};
ghost use Rattle.layer_paths.specs.Marks.{mark_of};
ghost use Rattle.layer_paths.specs.Trees.{IsTreeOf};
ghost use Rattle.layer_tree.specs.Laying.{AreKept, AreChildrenLeft, AreUnited, AreEntriesLaid, CoverTheKept, IsKept, KeepsFirst, IsFrom, Lays};

use crate::clashes::clashes_both_ways;
use layer_paths::{
    Branch, Child, Mark, Tree, cover, drop_first, pass_first, pass_with, place, take_children,
};
use std::alloc::{AllocError, Allocator};
use std::cmp::Ordering;
use std::collections::VecDeque;

/// How many marks at most are searched for one by one.
const FEW: usize = 8;

/// Lays the tree of a run of layers on that of the run just below it: the tree of both together.
///
/// Directories that both have are merged child by child; what only one has is moved without being
/// read. `AllocError` only if memory is refused; both trees are then dropped.
pub fn lay<A: Allocator + Copy>(
    alloc: A,
    low: Tree<A>,
    high: Tree<A>,
) -> Result<Tree<A>, AllocError>
    ensures { (first : ℕ) (ls hs : List (List ℕ)) →
        IsTreeOf first ls low → IsTreeOf (first + length ls) hs high →
        IfOk result (λ tree. IsTreeOf first (ls ++ hs) tree) }
{
    laid(alloc, low, high)
}

/// The branches from a name on, and the first of them if it has the name.
#[inline(never)]
pub(crate) fn seek<'a, T: Copy + Drop, A: Allocator>(
    branches: &'a [Branch<T, A>],
    name: &[u8],
) -> (&'a [Branch<T, A>], Option<&'a Branch<T, A>>)
    requires { NamesRise branches.now }
    ensures rest { IsFrom name.now branches.now result.0.now }
    ensures first { IsFirstNamed name.now result.0.now result.1 }
{
    let mut rest = branches;
    while let Some((first, later)) = rest.split_first() {
        match first.order(name) {
            Ordering::Less => rest = later,
            Ordering::Equal => return (rest, Some(first)),
            Ordering::Greater => return (rest, None),
        }
    }
    (rest, None)
}

/// One tree laid on another, as `lay` does it, but stated of trees alone: what `lay` promises for
/// runs of layers follows from this.
fn laid<A: Allocator + Copy>(alloc: A, low: Tree<A>, high: Tree<A>) -> Result<Tree<A>, AllocError>
    ensures { IfOk result (λ tree. Lays low high tree) }
{
    let (entries, replaced) = entries_laid(alloc, low.entries, high.entries, &high.marks)?;
    let marks = marks_laid(alloc, low.marks, replaced, high.marks)?;
    Ok(Tree { entries, marks })
}

/// The entries of a tree laid on those of another one, with marks where the lower tree has a file
/// and the upper one a directory or something below. `marks` are those of the upper tree.
fn entries_laid<A: Allocator + Copy>(
    alloc: A,
    low: Child<A>,
    high: Child<A>,
    marks: &Branch<Mark, A>,
) -> Result<(Child<A>, Branch<Mark, A>), AllocError>
    requires low { (mark_of low.value).cut ≡ false }
    requires high { (mark_of high.value).cut ≡ false }
    requires marks { marks.now.value.cut ≡ false }
    ensures { IfOk result (λ laid. AreEntriesLaid low high marks.now laid.0 laid.1) }
{
    let (hidden, replaced) = clashes_both_ways(alloc, &low, &high)?;
    let entries = entries_covered(alloc, low, high, marks, &hidden)?;
    Ok((entries, replaced))
}

/// What two marks leave of the lower entries, covered by the upper ones.
fn entries_covered<A: Allocator + Copy>(
    alloc: A,
    low: Child<A>,
    high: Child<A>,
    marks: &Branch<Mark, A>,
    hidden: &Branch<Mark, A>,
) -> Result<Child<A>, AllocError>
    requires marks { marks.now.value.cut ≡ false }
    requires hidden { hidden.now.value.cut ≡ false }
    ensures { IfOk result (CoverTheKept low high marks.now hidden.now) }
{
    let unmarked = kept_inside(alloc, low, marks)?;
    let kept = kept_inside(alloc, unmarked, hidden)?;
    // named for the proof, as in `children_left`
    let entries = cover(alloc, kept, high)?;
    Ok(entries)
}

/// What a mark that does not cut a branch itself, and those below it, leave of the branch.
fn kept_inside<T: Copy + Drop, A: Allocator + Copy>(
    alloc: A,
    low: Branch<T, A>,
    mark: &Branch<Mark, A>,
) -> Result<Branch<T, A>, AllocError>
    requires { mark.now.value.cut ≡ false }
    ensures { IfOk result (λ kept. IsKept low mark.now kept) }
{
    let (name, entry, children) = low.into_parts();
    let left = children_left(alloc, children, mark)?;
    Ok(Branch::new(name, entry, left))
}

/// The marks of both trees, and those of what was replaced.
fn marks_laid<A: Allocator + Copy>(
    alloc: A,
    low: Branch<Mark, A>,
    replaced: Branch<Mark, A>,
    high: Branch<Mark, A>,
) -> Result<Branch<Mark, A>, AllocError>
    ensures { IfOk result (AreUnited low replaced high) }
{
    let above = cover(alloc, replaced, high)?;
    // named for the proof, as in `children_left`
    let marks = cover(alloc, low, above)?;
    Ok(marks)
}

/// What a mark that does not cut a branch itself, and those below it, leave of the branch's
/// children.
#[cycle(keeping)]
fn children_left<T: Copy + Drop, A: Allocator + Copy>(
    alloc: A,
    children: Vec<Branch<T, A>, A>,
    mark: &Branch<Mark, A>,
) -> Result<Vec<Branch<T, A>, A>, AllocError>
    requires children { IsForest children.items }
    requires uncut { mark.now.value.cut ≡ false }
    ensures { IfOk result (λ left. AreChildrenLeft mark.now children.items left.items) }
{
    if mark.value().opaque {
        return Ok(Vec::new(alloc));
    }
    // named, so the proof speaks of the rest and not of a result that may be an error
    let left = kept_below(alloc, children, mark.children())?;
    Ok(left)
}

/// What marks leave of the branches of a directory. Few marks are searched for one by one, and
/// without marks nothing is searched. With more, both are traversed in step, in the order of names.
#[cycle(keeping)]
fn kept_below<T: Copy + Drop, A: Allocator + Copy>(
    alloc: A,
    lows: Vec<Branch<T, A>, A>,
    marks: &[Branch<Mark, A>],
) -> Result<Vec<Branch<T, A>, A>, AllocError>
    requires lows { IsForest lows.items }
    requires marks { IsForest marks.now }
    ensures { IfOk result (λ kept. AreKept lows.items marks.now kept.items) }
{
    if marks.len() <= FEW {
        return kept_by_few(alloc, lows, marks);
    }
    let mut kept = Vec::with_capacity(alloc, lows.len())?;
    let mut lows = VecDeque::from(lows);
    let mut rest = marks;
    while let Some(low) = lows.front() {
        let (ahead, found) = seek(rest, low.name());
        rest = ahead;
        match found {
            None => pass_first(&mut lows, &mut kept)?,
            Some(mark) => keep_first(alloc, &mut lows, mark, &mut kept)?,
        }
    }
    Ok(kept)
}

/// What few marks leave of the branches of a directory, in place, from the last mark on.
#[cycle(keeping)]
fn kept_by_few<T: Copy + Drop, A: Allocator + Copy>(
    alloc: A,
    mut lows: Vec<Branch<T, A>, A>,
    marks: &[Branch<Mark, A>],
) -> Result<Vec<Branch<T, A>, A>, AllocError>
    requires lows { IsForest lows.items }
    requires marks { IsForest marks.now }
    ensures { IfOk result (λ kept. AreKept lows.items marks.now kept.items) }
{
    let mut left = marks;
    while let Some((mark, before)) = left.split_last() {
        keep_by_one(alloc, &mut lows, mark)?;
        left = before;
    }
    Ok(lows)
}

/// What one mark and those below it leave of the branches of a directory, in place.
#[cycle(keeping)]
fn keep_by_one<T: Copy + Drop, A: Allocator + Copy>(
    alloc: A,
    lows: &mut Vec<Branch<T, A>, A>,
    mark: &Branch<Mark, A>,
) -> Result<(), AllocError>
    requires { IsForest lows.old.items }
    ensures { OnOk result (AreKept lows.old.items (mark.now ∷ []) lows.new.items) }
{
    match place(lows, mark.name()) {
        Err(_) => Ok(()),
        Ok(i) if mark.value().cut => {
            lows.remove(i);
            Ok(())
        }
        Ok(i) => keep_inside(alloc, &mut lows[i], mark),
    }
}

/// What a mark that does not cut a branch itself, and those below it, leave of the branch, in
/// place.
#[cycle(keeping)]
fn keep_inside<T: Copy + Drop, A: Allocator + Copy>(
    alloc: A,
    low: &mut Branch<T, A>,
    mark: &Branch<Mark, A>,
) -> Result<(), AllocError>
    requires { mark.now.value.cut ≡ false }
    ensures { OnOk result (IsKept low.old mark.now low.new) }
{
    let children = low.take_children(alloc);
    let left = children_left(alloc, children, mark)?;
    low.set_children(left);
    Ok(())
}

/// Takes the first branch from a directory, and adds to `kept` what a mark and those below leave of
/// it: nothing if the mark cuts the branch itself.
///
/// `AllocError` only if memory is refused; `lows` and `kept` are unspecified then.
#[cycle(keeping)]
fn keep_first<T: Copy + Drop, A: Allocator + Copy>(
    alloc: A,
    lows: &mut VecDeque<Branch<T, A>, A>,
    mark: &Branch<Mark, A>,
    kept: &mut Vec<Branch<T, A>, A>,
) -> Result<(), AllocError>
    requires { 0 < length lows.old.items }
    ensures { OnOk result (KeepsFirst mark.now
        lows.old.items lows.new.items kept.old.items kept.new.items) }
{
    if mark.value().cut {
        drop_first(lows);
        return Ok(());
    }
    let children = take_children(alloc, lows);
    let left = children_left(alloc, children, mark)?;
    pass_with(lows, left, kept)?;
    Ok(())
}
