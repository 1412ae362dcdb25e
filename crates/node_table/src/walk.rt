//! The branches of a tree in the order of their paths.

ghost use Rattle.std.specs.Prelude.{◌≡◌, ◌≤◌, length, IfOk, OnOk};
ghost use Rattle.node_table.specs.Walks.{walk_of, no_walk, AddsWalk};

use layer_paths::Branch;
use std::alloc::{AllocError, Allocator};

/// Branches in the order of their paths.
#[derive(Drop)]
pub(crate) struct Walked<'t, T: Copy + Drop, A: Allocator> {
    pub(crate) visits: Vec<&'t Branch<T, A>, A>,
    /// The parent of each branch; the root is its own parent.
    pub(crate) above: Vec<usize, A>,
    /// How many branches each one is, with all below it.
    pub(crate) sizes: Vec<usize, A>,
}

impl<'t, T: Copy + Drop, A: Allocator + Copy> Walked<'t, T, A> {
    // No branches yet, with room for this many.
    pub(crate) fn with_room(alloc: A, room: usize) -> Result<Self, AllocError>
        ensures { IfOk result (λ walked. walk_of walked ≡ no_walk) }
    {
        Ok(Walked {
            visits: Vec::with_capacity(alloc, room)?,
            above: Vec::with_capacity(alloc, room)?,
            sizes: Vec::with_capacity(alloc, room)?,
        })
    }
}

// The number of branches from this one down, itself included. No recursion is deeper than the tree.
pub(crate) fn count_branches<T: Copy + Drop, A: Allocator>(branch: &Branch<T, A>) -> usize {
    let mut count: usize = 1;
    for child in branch.children() {
        let below = if child.children().is_empty() {
            1
        } else {
            count_branches(child)
        };
        count = count.saturating_add(below);
    }
    count
}

// The branch and everything below it. No recursion is deeper than the tree. The parent is at
// `place`; the root is its own parent.
pub(crate) fn walk<'t, T: Copy + Drop, A: Allocator>(
    branch: &'t Branch<T, A>,
    place: usize,
    out: &mut Walked<'t, T, A>,
) -> Result<(), AllocError>
    requires level { length out.old.sizes.items ≡ length out.old.visits.items }
    requires above { place ≤ length out.old.visits.items }
    ensures { OnOk result (AddsWalk branch.now place (walk_of out.old) (walk_of out.new)) }
{
    let at = out.visits.len();
    out.visits.push(branch)?;
    out.above.push(place)?;
    out.sizes.push(0)?;
    for child in branch.children() {
        walk(child, at, out)?;
    }
    out.sizes[at] = out.visits.len() - at;
    Ok(())
}
