//! A branch of a tree, and the branches below it.

ghost use Rattle.std.specs.Prelude.{◌≡◌, ◌<◌, [], length, map, MatchOption, MatchResult};
ghost use Rattle.layer_paths.specs.Rows.{spread, whole, name_cmp, NamesRise, IsForest, IsFirstNamed, IsPlaceOf, IsGapFor, IsUnder};

use crate::name::Name;
use std::alloc::{AllocError, Allocator};
use std::cmp::Ordering;
use std::marker::Model;
use std::mem;

/// A value with a name, and the branches below it in the order of their names.
#[derive(Drop)]
pub struct Branch<T: Copy + Drop, A: Allocator> {
    name: Name<A>,
    value: T,
    children: Vec<Branch<T, A>, A>,
}

impl<T: Copy + Drop, A: Allocator> Model for Branch<T, A> {
    ghost use Rattle.std.specs.Prelude.{ℕ, length};
    ghost use Rattle.layer_paths.specs.Rows.{Subtree, spread, IsForest, falls};

    ghost Value = { Subtree T };

    ghost view = { λ b.
        record { name = b.name; value = b.value; below = spread b.children.items } };

    ghost invariant = { λ b. IsForest b.children.items };

    ghost size = { λ s. length s.below };

    ghost size_decreases = { λ b h. falls b.children.items };
}

impl<T: Copy + Drop, A: Allocator> Branch<T, A> {
    /// A branch from its parts.
    pub fn new(name: Name<A>, value: T, children: Vec<Branch<T, A>, A>) -> Branch<T, A>
        requires { IsForest children.items }
        ensures { result ≡ record { name = name; value = value; below = spread children.items } }
    {
        Branch {
            name,
            value,
            children,
        }
    }

    /// The branch's name, value and children.
    pub fn into_parts(self) -> (Name<A>, T, Vec<Branch<T, A>, A>)
        ensures name { result.0 ≡ self.name }
        ensures value { result.1 ≡ self.value }
        ensures below { self.below ≡ spread result.2.items }
        ensures forest { IsForest result.2.items }
    {
        (self.name, self.value, self.children)
    }

    /// The branch's name.
    pub fn name(&self) -> &[u8]
        ensures { result.now ≡ self.now.name }
    {
        self.name.as_slice()
    }

    /// The order of the branch's name and another. Most names differ in their first byte.
    pub fn order(&self, name: &[u8]) -> Ordering
        ensures { result ≡ name_cmp self.now.name name.now }
    {
        let own = self.name.as_slice();
        if let (Some(first), Some(other)) = (own.first(), name.first()) {
            if first != other {
                return first.cmp(other);
            }
        }
        own.cmp(name)
    }

    /// The branch's value.
    pub fn value(&self) -> T
        ensures { result ≡ self.now.value }
    {
        self.value
    }

    /// The branches below it.
    pub fn children(&self) -> &[Branch<T, A>]
        ensures below { self.now.below ≡ spread result.now }
        ensures forest { IsForest result.now }
    {
        self.children.as_slice()
    }

    /// The branch at a path from this one; none if there is no such path.
    pub fn find(&self, path: &[&[u8]]) -> Option<&Branch<T, A>>
        ensures { MatchOption result
            (IsUnder (whole self.now) (map (λ n. n.now) path.now) [])
            (λ b. IsUnder (whole self.now) (map (λ n. n.now) path.now) (whole b.now)) }
    {
        let mut here = self;
        for name in path {
            match child(&here.children, name) {
                Some(next) => here = next,
                None => return None,
            }
        }
        Some(here)
    }
}

impl<T: Copy + Drop, A: Allocator + Copy> Branch<T, A> {
    /// Takes the children; the branch keeps none.
    pub fn take_children(&mut self, alloc: A) -> Vec<Branch<T, A>, A>
        ensures left { self.new
            ≡ record { name = self.old.name; value = self.old.value; below = [] } }
        ensures below { self.old.below ≡ spread result.items }
        ensures forest { IsForest result.items }
    {
        mem::replace(&mut self.children, Vec::new(alloc))
    }

    /// Replaces the children of the branch.
    pub fn set_children(&mut self, children: Vec<Branch<T, A>, A>)
        requires { IsForest children.items }
        ensures { self.new ≡ record {
          name = self.old.name;
          value = self.old.value;
          below = spread children.items;
        } }
    {
        self.children = children;
    }

    /// A copy of the branch's name. `AllocError` only if memory is refused for a name of more than
    /// 22 bytes.
    pub fn copy_name(&self, alloc: A) -> Result<Name<A>, AllocError>
        ensures { MatchResult result
            (λ name. name ≡ self.now.name) (λ _. 22 < length self.now.name) }
    {
        self.name.copied(alloc)
    }
}

/// The branch with that name, by binary search; none if no branch has it.
pub fn child<'a, T: Copy + Drop, A: Allocator>(
    children: &'a [Branch<T, A>],
    name: &[u8],
) -> Option<&'a Branch<T, A>>
    requires { NamesRise children.now }
    ensures { IsFirstNamed name.now children.now result }
{
    match place(children, name) {
        Ok(i) => Some(&children[i]),
        Err(_) => None,
    }
}

/// The place of the branch with that name, by binary search; if there is none, the place where it
/// would be.
pub fn place<T: Copy + Drop, A: Allocator>(
    children: &[Branch<T, A>],
    name: &[u8],
) -> Result<usize, usize>
    requires { NamesRise children.now }
    ensures { MatchResult result
        (IsPlaceOf name.now children.now) (IsGapFor name.now children.now) }
{
    children.binary_search_by(|c| c.order(name))
}
