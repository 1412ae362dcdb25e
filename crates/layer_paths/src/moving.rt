//! Branches that are moved from one list to the end of another.
//!
//! The recursions over trees call these functions. None of them is inlined: their stack frames are
//! then not part of each level of a deep tree.

ghost use Rattle.std.specs.Prelude.{◌≡◌, ◌<◌, [], ◌∷◌, ◌++◌, length, OnOk};
ghost use Rattle.layer_paths.specs.Rows.{spread, IsForest};
ghost use Rattle.layer_paths.specs.Laying.{Passes, PassesWith, DropsFirst, TakesChildren};

use crate::{Branch, Name};
use std::alloc::{AllocError, Allocator};
use std::collections::VecDeque;

/// Moves the first branch of a list to the end of another one.
///
/// `AllocError` only if memory is refused; both lists are unspecified then.
#[inline(never)]
pub fn pass_first<T: Copy + Drop, A: Allocator>(
    from: &mut VecDeque<Branch<T, A>, A>,
    to: &mut Vec<Branch<T, A>, A>,
) -> Result<(), AllocError>
    requires { 0 < length from.old.items }
    ensures { OnOk result (Passes from.old.items from.new.items to.old.items to.new.items) }
{
    let first = from.pop_front().unwrap();
    to.push(first)?;
    Ok(())
}

/// Moves the first branch of a list to the end of another one, with these children instead of its
/// own.
///
/// `AllocError` only if memory is refused; both lists are unspecified then.
#[inline(never)]
pub fn pass_with<T: Copy + Drop, A: Allocator>(
    from: &mut VecDeque<Branch<T, A>, A>,
    children: Vec<Branch<T, A>, A>,
    to: &mut Vec<Branch<T, A>, A>,
) -> Result<(), AllocError>
    requires some { 0 < length from.old.items }
    requires forest { IsForest children.items }
    ensures { OnOk result (PassesWith children.items
        from.old.items from.new.items to.old.items to.new.items) }
{
    let (name, value, _) = take_first(from);
    add_last(to, name, value, children)?;
    Ok(())
}

/// Takes the first branch from a list, and drops it.
#[inline(never)]
pub fn drop_first<T: Copy + Drop, A: Allocator>(from: &mut VecDeque<Branch<T, A>, A>)
    requires { 0 < length from.old.items }
    ensures { DropsFirst from.old.items from.new.items }
{
    take_first(from);
}

/// Takes the children of the first branch of a list, which keeps none.
#[inline(never)]
pub fn take_children<T: Copy + Drop, A: Allocator + Copy>(
    alloc: A,
    from: &mut VecDeque<Branch<T, A>, A>,
) -> Vec<Branch<T, A>, A>
    requires { 0 < length from.old.items }
    ensures { TakesChildren from.old.items from.new.items result.items }
{
    let first = from.front_mut().unwrap();
    first.take_children(alloc)
}

/// Takes the first branch from a list, as its name, value and children.
#[inline(never)]
pub(crate) fn take_first<T: Copy + Drop, A: Allocator>(
    from: &mut VecDeque<Branch<T, A>, A>,
) -> (Name<A>, T, Vec<Branch<T, A>, A>)
    requires { 0 < length from.old.items }
    ensures first { from.old.items ≡ record {
      name = result.0;
      value = result.1;
      below = spread result.2.items;
    } ∷ from.new.items }
    ensures forest { IsForest result.2.items }
{
    let first = from.pop_front().unwrap();
    first.into_parts()
}

/// Adds a branch, made from its parts, to the end of a list.
///
/// `AllocError` only if memory is refused; the list is unspecified then.
#[inline(never)]
fn add_last<T: Copy + Drop, A: Allocator>(
    to: &mut Vec<Branch<T, A>, A>,
    name: Name<A>,
    value: T,
    children: Vec<Branch<T, A>, A>,
) -> Result<(), AllocError>
    requires { IsForest children.items }
    ensures { OnOk result (to.new.items ≡ to.old.items ++ record {
      name = name;
      value = value;
      below = spread children.items;
    } ∷ []) }
{
    to.push(Branch::new(name, value, children))?;
    Ok(())
}
