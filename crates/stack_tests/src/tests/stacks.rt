//! What trees and stacks show, in any order of laying.

use super::told::first_wrong;
use layer_tree::{OfLayer, Tree, lay};
use romfs_image::Image;
use romfs_image::sample::BuildFault;
use stack_core::{FreePass, Gate, stack};
use std::alloc::{Allocator, Global};
use std::test::Fail;
use std::thread::Threads;
use test_kit::refusing::Refusing;
use test_kit::sample_images::layers;

/// Layers as words of `sample_images`; the order of laying; and words of `told`.
pub type Stack<'a> = (&'a str, &'a str, &'a str);

/// The first wrong word of a stack.
pub fn wrong_of<'a, R: Threads + Sync, A: Allocator + Copy + Send + Sync, G: Gate + Sync>(
    rt: &R,
    alloc: A,
    stack: Stack<'a>,
    gate: &G,
) -> Result<Option<&'a str>, BuildFault> {
    let (words, order, told) = stack;
    let images = layers(alloc, words)?;
    let tree = tree_of(rt, alloc, &images, order, gate)?;
    Ok(first_wrong(&tree, told))
}

/// The last tree, laid on the one before it.
fn lay_last<A: Allocator + Copy>(
    alloc: A,
    trees: &mut Vec<Tree<A>, A>,
) -> Result<Tree<A>, BuildFault> {
    let high = trees.pop().ok_or(BuildFault::Listing)?;
    let low = trees.pop().ok_or(BuildFault::Listing)?;
    Ok(lay(alloc, low, high)?)
}

/// The next tree of an order.
fn next_tree<A: Allocator + Copy>(
    alloc: A,
    images: &[Image<A>],
    trees: &mut Vec<Tree<A>, A>,
    sign: u8,
) -> Result<Tree<A>, BuildFault> {
    if sign == b'+' {
        return lay_last(alloc, trees);
    }
    let number = u16::from(sign.saturating_sub(b'0'));
    match images.get(usize::from(number)) {
        Some(image) => Ok(Tree::of(alloc, image, number)?),
        None => Err(BuildFault::Listing),
    }
}

/// Layers laid in an order: a digit is the tree of the layer with this number, and `+` lays the
/// last tree on the one before it.
fn laid<A: Allocator + Copy>(
    alloc: A,
    images: &[Image<A>],
    order: &str,
) -> Result<Tree<A>, BuildFault> {
    let mut trees = Vec::new(alloc);
    for sign in order.bytes() {
        let tree = next_tree(alloc, images, &mut trees, sign)?;
        trees.push(tree)?;
    }
    trees.pop().ok_or(BuildFault::Listing)
}

/// Layers laid in an order, or stacked if there is none.
fn tree_of<R: Threads + Sync, A: Allocator + Copy + Send + Sync, G: Gate + Sync>(
    rt: &R,
    alloc: A,
    images: &[Image<A>],
    order: &str,
    gate: &G,
) -> Result<Tree<A>, BuildFault> {
    if !order.is_empty() {
        return laid(alloc, images, order);
    }
    if images.is_empty() || 128 < images.len() {
        return Err(BuildFault::Listing);
    }
    Ok(stack(rt, alloc, images, gate)?)
}

/// Stacks, a paragraph each: what it is, its layers, and lines of an order and words.
const STACKS: &str = "\
# A marker for one name.
1/a 2-x 2-y 1-b + 1/a 2-.wh.x 2-z
: 1d. 1d./a no!/a/x 0f!/a/y 1f!/a/z 0f!/b no!/b/c no./a/.wh.x

# An opaque marker beside a marker for a name of its layer.
1/a 2-x 2-y + 1/a 2-.wh..wh..opq 2-y 2-.wh.y
: 1d./a no!/a/x 1f!/a/y

# A hard link outlives its target.
1-k 10m + 1-.wh.k 1-.wh.none
: no!/k 0f!/m no!/none

# Markers in odd places.
1-a 1-b + 1/.wh.a 2-f 1-.wh. 1-.wh..wh.x
: no!/a no./.wh.a/f no!/ no./.wh.x 0f!/b

# A file over a directory over a file.
1-b + 1/b 2-c + 1-b
: 2f!/b no!/b/c

# An opaque marker in the root.
1-b + 1-.wh..wh..opq 1-c
: 1d. no!/b 1f!/c

# Only markers, below a layer that brings a name back.
1-a 1-b + 1-.wh.a 1-.wh.b + 1-a
: 2f!/a no!/b

# A directory over a file over two directories still cuts.
1/a 2-c + 1/a 2-c + 1-a + 1/a
23+: no!/a/c 3d!/a
01+23++: 3d. 3d!/a no!/a/c
0123+++: 3d. 3d!/a no!/a/c
01+2+3+: 3d. 3d!/a no!/a/c
: 3d. 3d!/a no!/a/c

# A cut outlives the directory that is laid on it.
1/a 2-c 1-b + 1-.wh.a + 1/a 2-d
12+: no!/a/c 2f!/a/d no./b
012++: 2d. 2d!/a no!/a/c 2f!/a/d 0f!/b
01+2+: 2d. 2d!/a no!/a/c 2f!/a/d 0f!/b

# The root, two names of a file, and a path through it.
13m 1/a 2-x 1-k
: 0d.akm 0d.x/a 0f!/m no!/k/f ==/m/k

# The same, and markers' names.
13m 1/a 2-x 1-k + 1/a 2-.wh.x 2-z 1/.wh.d 2-e
: 1d.akm 1d.z/a no!/a/x no./a/.wh.x no./.wh.d no./.wh.d/e no!/d no!/d/e
: 0f!/k no!/k/f no./k/.wh.f no./none ==/m/k
";

/// The first wrong word of a paragraph.
fn wrong_in<R: Threads + Sync>(
    rt: &R,
    alloc: Global,
    paragraph: &'static str,
) -> Result<Option<&'static str>, BuildFault> {
    let (_, lines) = paragraph.split_once('\n').ok_or(BuildFault::Listing)?;
    let (layers, orders) = lines.split_once('\n').ok_or(BuildFault::Listing)?;
    for line in orders.lines() {
        let (order, told) = line.split_once(':').ok_or(BuildFault::Listing)?;
        let wrong = wrong_of(rt, alloc, (layers, order, told), &FreePass)?;
        if wrong.is_some() {
            return Ok(wrong);
        }
    }
    Ok(None)
}

#[test]
fn trees_show_and_cut(rt: HostRuntime) -> Result<(), Fail> {
    for paragraph in STACKS.split("\n\n") {
        let wrong = wrong_in(&rt, rt.alloc(), paragraph)?;
        assert_eq!(rt; wrong, None, "{paragraph}");
    }
    Ok(())
}

/// The first wrong word of a tree of one layer, and whether reading it takes no memory.
fn asked<'a>(
    memory: &'a Refusing<Global>,
    images: &[Image<&'a Refusing<Global>>],
) -> Result<(Option<&'static str>, bool), BuildFault> {
    let tree = laid(memory, images, "0")?;
    let requests = memory.requests();
    let wrong = first_wrong(&tree, "0d.a 0d.c/a 0f!/a/c no./b");
    drop(tree);
    Ok((wrong, memory.requests() == requests))
}

#[test]
fn a_tree_is_asked_without_memory(rt: HostRuntime) -> Result<(), Fail> {
    let memory = Refusing::new(rt.alloc(), 0);
    let images = layers(&memory, "1/a 2-c")?;
    let asked = asked(&memory, &images);
    drop(images);
    let (wrong, is_without_memory) = asked?;
    assert_eq!(rt; wrong, None);
    assert!(rt; is_without_memory);
    Ok(())
}
