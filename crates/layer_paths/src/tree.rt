//! The tree of a run of layers.

ghost use Rattle.std.specs.Prelude.{◌≡◌, map, nat_eq};
ghost use Rattle.std.specs.List.{starts_with};
ghost use Rattle.stack_model.specs.Stack.{marker};
ghost use Rattle.layer_paths.specs.Rows.{whole, at_path};
ghost use Rattle.layer_paths.specs.Marks.{cut_by, marked, is_plain};
ghost use Rattle.layer_paths.specs.Trees.{entry_at, cuts_at, AreChildren};

use crate::entries::{Cuts, Entry, Mark};
use crate::{Branch, child};
use std::alloc::{Allocator, Global};
use std::marker::Model;

// The prefix of all names of markers.
const MARKER: &[u8; 4] = b".wh.";

/// An entry with its name, and everything below it in the order of names.
pub type Child<A> = Branch<Entry, A>;

const _: () = prove!(size_of::<Child<Global>>() <= 72);

/// What a run of layers shows and cuts.
#[derive(Drop)]
pub struct Tree<A: Allocator> {
    pub entries: Branch<Entry, A>,
    pub marks: Branch<Mark, A>,
}

impl<A: Allocator> Model for Tree<A> {
    ghost use Rattle.std.specs.Prelude.{◌≡◌, false};
    ghost use Rattle.romfs_format.specs.declared.head.Kind.TheVariants.{Directory};
    ghost use Rattle.layer_paths.specs.Rows.{whole};
    ghost use Rattle.layer_paths.specs.Trees.{TreeRows};

    ghost Value = { TreeRows };

    ghost view = { λ t. record { entries = whole t.entries; marks = whole t.marks } };

    // the root is a directory, and no mark cuts it
    ghost invariant = { λ t. (t.entries.value.kind ≡ Directory) × (t.marks.value.cut ≡ false) };
}

impl<A: Allocator> Tree<A> {
    /// The root, whose name is empty, with everything below it.
    pub fn root(&self) -> &Child<A>
        ensures { self.now.entries ≡ whole result.now }
    {
        &self.entries
    }

    /// The entry at a path; none if the run does not show it. The root's path is empty.
    #[tactic(auto, using(crate::proofs::Under::under_here))]
    pub fn entry(&self, path: &[&[u8]]) -> Option<Entry>
        ensures { result ≡ entry_at self.now (map (λ name. name.now) path.now) }
    {
        match self.entries.find(path) {
            Some(branch) => Some(branch.value()),
            None => None,
        }
    }

    /// The entries in a directory, in the order of their names; none if the path is not a
    /// directory.
    pub fn children(&self, path: &[&[u8]]) -> &[Child<A>]
        ensures { AreChildren self.now (map (λ name. name.now) path.now) result.now }
    {
        match self.entries.find(path) {
            Some(branch) => branch.children(),
            None => &[],
        }
    }

    /// Whether the run removes a path from the layers below it. It never removes the root, nor a
    /// path with a marker's name.
    pub fn cuts(&self, path: &[&[u8]]) -> bool
        ensures { result ≡ cuts_at self.now (map (λ name. name.now) path.now) }
    {
        is_plain(path) && (cut_by(&self.marks, path) || cut_by(&self.entries, path))
    }
}

/// Whether a name is that of a marker.
pub fn is_marker(name: &[u8]) -> bool
    ensures { result ≡ starts_with nat_eq name.now marker }
{
    name.starts_with(MARKER)
}

// Whether no name of a path is that of a marker.
fn is_plain(path: &[&[u8]]) -> bool
    ensures { result ≡ is_plain (map (λ name. name.now) path.now) }
{
    for name in path {
        if is_marker(name) {
            return false;
        }
    }
    true
}

// Whether anything along a path cuts it.
fn cut_by<T: Cuts, A: Allocator>(tree: &Branch<T, A>, path: &[&[u8]]) -> bool
    ensures { result
        ≡ cut_by (marked T.removed (whole tree.now)) (map (λ name. name.now) path.now) }
{
    let mut here = tree;
    for name in path {
        let mark = here.value().mark();
        if mark.cut || mark.opaque {
            return true;
        }
        match child(here.children(), name) {
            Some(next) => here = next,
            None => return false,
        }
    }
    here.value().mark().cut
}
