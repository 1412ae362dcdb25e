//! Points that each lead on to one.

ghost use Rattle.std.specs.Prelude.{◌≡◌, ℕ, ◌<◌, ◌^◌, IfOk, length, get_or};
ghost use Rattle.romfs_sets.specs.Climb.{AreBelow, AreLists};

use std::alloc::{AllocError, Allocator};

/// Numbered points, each of which leads on to one.
#[derive(Drop)]
pub(crate) struct Graph<A: Allocator> {
    /// The point that each leads on to.
    pub next: Vec<u32, A>,
    /// The class of each: a number below that of points.
    pub class: Vec<u32, A>,
    /// The first of those that lead to each, or the number of points.
    pub first: Vec<u32, A>,
    /// The next that leads to the same point, or the number of points.
    pub sibling: Vec<u32, A>,
    ghost few: { length next.items < 2 ^ 32 },
    ghost leads: { AreBelow next.items (length next.items) },
    ghost classes: { AreBelow class.items (length next.items) },
    ghost siblings: { length sibling.items ≡ length next.items },
    ghost rising: { (x : ℕ) → x < length sibling.items → x < get_or sibling.items x 0 },
    ghost lists: { ∥ AreLists next.items first.items sibling.items ∥₁ },
}

impl<A: Allocator + Copy> Graph<A> {
    /// The points with these classes, each of which leads on to the given next one.
    pub(crate) fn of(
        alloc: A,
        next: Vec<u32, A>,
        class: Vec<u32, A>,
    ) -> Result<Graph<A>, AllocError>
        requires few { length next.items < 2 ^ 32 }
        requires leads { AreBelow next.items (length next.items) }
        requires classes { AreBelow class.items (length next.items) }
        ensures { IfOk result
            (λ graph. (graph.next.items ≡ next.items) × (graph.class.items ≡ class.items)) }
    {
        let (first, sibling) = lists(alloc, &next)?;
        Ok(Graph {
            next,
            class,
            first,
            sibling,
        })
    }
}

// The lists of those that lead to each: the first of each list, and what follows each on its own.
fn lists<A: Allocator + Copy>(
    alloc: A,
    next: &[u32],
) -> Result<(Vec<u32, A>, Vec<u32, A>), AllocError>
    requires few { length next.now < 2 ^ 32 }
    requires next { AreBelow next.now (length next.now) }
    ensures { IfOk result (λ lists. AreLists next.now lists.0.items lists.1.items) }
{
    let none = next.len() as u32;
    let mut first = vec![in alloc; none; next.len()]?;
    let mut sibling = vec![in alloc; none; next.len()]?;
    for at in (0..next.len()).rev() {
        let to = next[at] as usize;
        sibling[at] = first[to];
        first[to] = at as u32;
    }
    Ok((first, sibling))
}
