//! The contents of a tree, as words.
//!
//! A word has `no`, or the layer and `d` or `f` for a directory or a file; then `!` if the tree
//! cuts the path, or `.`; then, for some directories, the names in it, a letter each; and then the
//! path, with a `/` before each name. `==/m/k` says that the names `m` and `k` have one entry.

use layer_tree::{Child, Tree};
use romfs_image::Kind;
use stack_core::shown;
use std::alloc::Allocator;

/// The first wrong word.
pub fn first_wrong<'a, A: Allocator>(tree: &Tree<A>, words: &'a str) -> Option<&'a str> {
    for word in words.split_whitespace() {
        if !is_right(tree, word) {
            return Some(word);
        }
    }
    None
}

/// Whether these are the names of the children, in this order.
fn are_children<A: Allocator>(children: &[Child<A>], names: &[u8]) -> bool {
    if children.len() != names.len() {
        return false;
    }
    for (child, name) in children.iter().zip(names) {
        if child.name() != [*name].as_slice() {
            return false;
        }
    }
    true
}

/// The layer and the kind of the entry at a path.
fn signs<A: Allocator>(tree: &Tree<A>, path: &[&[u8]]) -> (u8, u8) {
    let Some(place) = shown(tree, path) else {
        return (b'n', b'o');
    };
    let layer = b'0'.saturating_add((place.layer % 10) as u8);
    match tree.entry(path) {
        Some(entry) if entry.kind == Kind::Directory => (layer, b'd'),
        Some(entry) if entry.kind == Kind::Regular => (layer, b'f'),
        _ => (layer, b'?'),
    }
}

/// Whether a tree says this about a path; and, for a path that is not a directory, that it has no
/// children.
fn is_told<A: Allocator>(tree: &Tree<A>, path: &[&[u8]], told: &str) -> bool {
    let [layer, kind, cut, names @ ..] = told.as_bytes() else {
        return false;
    };
    let is_any = *kind == b'd' && names.is_empty();
    signs(tree, path) == (*layer, *kind)
        && tree.cuts(path) == (*cut == b'!')
        && (is_any || are_children(tree.children(path), names))
}

/// Whether a tree agrees with a word.
fn is_right<A: Allocator>(tree: &Tree<A>, word: &str) -> bool {
    let Some((told, path)) = word.split_once('/') else {
        return is_told(tree, &[], word);
    };
    match path.split_once('/') {
        Some((one, other)) if told == "==" => {
            tree.entry(&[one.as_bytes()]) == tree.entry(&[other.as_bytes()])
        }
        Some((first, last)) => is_told(tree, &[first.as_bytes(), last.as_bytes()], told),
        None => is_told(tree, &[path.as_bytes()], told),
    }
}
