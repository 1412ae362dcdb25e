//! Where one tree has a file, and another one a directory or something below.
//!
//! Both trees are traversed in step, in the order of names, and only as far down as both have
//! directories. Most trees that are laid on one another have no such path (`apart`); then the only
//! mark is that of the root.

ghost use Rattle.std.specs.Prelude.{◌≡◌, [], true, false, IfOk, IsTrue};
ghost use Rattle.layer_paths.specs.Rows.{IsForest};
ghost use Rattle.layer_tree.specs.Laying.{AreClashes, HasClash, AreRootClashes, IsBare};

use crate::apart::are_apart;
use crate::laying::seek;
use crate::reading::{CUT, UNCUT, leaf};
use layer_paths::{Branch, Cuts, Mark, Name};
use std::alloc::{AllocError, Allocator};

/// The marks of all paths at which one of two trees has a file, and the other one a directory or
/// something below: for files of the upper tree, and for files of the lower one. Both roots are
/// directories.
pub(crate) fn clashes_both_ways<T: Cuts, A: Allocator + Copy>(
    alloc: A,
    low: &Branch<T, A>,
    high: &Branch<T, A>,
) -> Result<(Branch<Mark, A>, Branch<Mark, A>), AllocError>
    requires low { (T.removed low.now.value).cut ≡ false }
    requires high { (T.removed high.now.value).cut ≡ false }
    ensures hidden { IfOk result (λ marks. AreRootClashes T.removed high.now low.now marks.0) }
    ensures replaced { IfOk result (λ marks. AreRootClashes T.removed low.now high.now marks.1) }
{
    if are_apart(low.children(), high.children()) {
        let none = no_marks(alloc)?;
        let no_others = no_marks(alloc)?;
        return Ok((none, no_others));
    }
    let hidden = clashes(alloc, high, low)?;
    let replaced = clashes(alloc, low, high)?;
    Ok((hidden, replaced))
}

/// Whether a branch is not a directory and has nothing below it.
pub(crate) fn is_bare<T: Cuts, A: Allocator>(branch: &Branch<T, A>) -> bool
    ensures { IsTrue result → IsBare T.removed branch.now }
{
    branch.value().mark().cut && branch.children().is_empty()
}

/// A root of marks that cuts nothing, with none below.
fn no_marks<A: Allocator + Copy>(alloc: A) -> Result<Branch<Mark, A>, AllocError>
    ensures { IfOk result (λ root. root ≡ record {
      name = [];
      value = record { cut = false; opaque = false };
      below = [];
    }) }
{
    let name = Name::of(alloc, &[])?;
    Ok(leaf(alloc, name, UNCUT))
}

/// The marks of all paths at which a tree has a file, and another one a directory or something
/// below. Both roots are directories.
fn clashes<T: Cuts, A: Allocator + Copy>(
    alloc: A,
    files: &Branch<T, A>,
    others: &Branch<T, A>,
) -> Result<Branch<Mark, A>, AllocError>
    requires { (T.removed files.now.value).cut ≡ false }
    ensures { IfOk result (λ mark. AreRootClashes T.removed files.now others.now mark) }
{
    let marks = clashes_below(alloc, files.children(), others.children())?;
    let name = Name::of(alloc, files.name())?;
    Ok(Branch::new(name, UNCUT, marks))
}

/// The marks of such paths below two directories, by the branches of both.
#[cycle(clashing)]
fn clashes_below<T: Cuts, A: Allocator + Copy>(
    alloc: A,
    files: &[Branch<T, A>],
    others: &[Branch<T, A>],
) -> Result<Vec<Branch<Mark, A>, A>, AllocError>
    requires files { IsForest files.now }
    requires others { IsForest others.now }
    ensures { IfOk result (λ marks. AreClashes T.removed files.now others.now marks.items) }
{
    let mut marks = Vec::new(alloc);
    let mut left = files;
    let mut rest = others;
    while let Some((file, later)) = left.split_first() {
        let (ahead, found) = seek(rest, file.name());
        rest = ahead;
        if let Some(other) = found {
            if let Some(mark) = clash_of(alloc, file, other)? {
                marks.push(mark)?;
            }
        }
        left = later;
    }
    Ok(marks)
}

/// The same for two branches; none if there is no such path.
#[cycle(clashing)]
fn clash_of<T: Cuts, A: Allocator + Copy>(
    alloc: A,
    file: &Branch<T, A>,
    other: &Branch<T, A>,
) -> Result<Option<Branch<Mark, A>>, AllocError>
    ensures { IfOk result (HasClash T.removed file.now other.now) }
{
    if file.value().mark().cut {
        return file_clash(alloc, file, other);
    }
    let marks = clashes_below(alloc, file.children(), other.children())?;
    if marks.is_empty() {
        return Ok(None);
    }
    let name = Name::of(alloc, file.name())?;
    Ok(Some(Branch::new(name, UNCUT, marks)))
}

/// The same for a file and another branch.
fn file_clash<T: Cuts, A: Allocator + Copy>(
    alloc: A,
    file: &Branch<T, A>,
    other: &Branch<T, A>,
) -> Result<Option<Branch<Mark, A>>, AllocError>
    requires { (T.removed file.now.value).cut ≡ true }
    ensures { IfOk result (HasClash T.removed file.now other.now) }
{
    if is_bare(other) {
        return Ok(None);
    }
    let name = Name::of(alloc, file.name())?;
    Ok(Some(leaf(alloc, name, CUT)))
}
