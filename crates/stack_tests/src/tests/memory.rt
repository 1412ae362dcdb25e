//! Each request for memory of a call is refused in turn, in any thread.

use super::stacks::wrong_of;
use super::tables::table_of;
use layer_tree::{OfLayer, Tree, lay};
use romfs_image::sample::BuildFault;
use romfs_image::{Check, CheckFault, Image, Profile};
use stack_core::FreePass;
use std::alloc::{AllocError, Allocator, Global};
use std::test::Fail;
use std::thread::Threads;
use test_kit::memories::refuse_in_turn;
use test_kit::sample_images::{SAMPLE, checked, layers, sample};

#[derive(Clone, Copy)]
enum Call {
    Build,
    Check,
    CheckAs,
    TreeOf,
    Lay,
    Stack,
    Table,
}

/// The size of the sample image, checked by the strict profile.
fn strict_size<A: Allocator + Copy>(alloc: A) -> Result<u32, BuildFault> {
    match Image::check_as(alloc, sample(alloc)?, Profile::Strict) {
        Ok(image) => Ok(image.full()),
        Err(CheckFault::Memory) => Err(BuildFault::Memory),
        Err(CheckFault::Broken(_)) => Err(BuildFault::Listing),
    }
}

/// The tree of a layer, or of one laid on it.
fn tree_of_one<A: Allocator + Copy>(
    alloc: A,
    below: &Image<A>,
    above: &Image<A>,
    is_laid: bool,
) -> Result<Tree<A>, AllocError> {
    let low = Tree::of(alloc, below, 0)?;
    if is_laid {
        lay(alloc, low, Tree::of(alloc, above, 1)?)
    } else {
        Ok(low)
    }
}

/// Whether a tree has only the file of the lower layer: of this layer, or of one laid on it.
fn has_file<A: Allocator + Copy>(alloc: A, is_laid: bool) -> Result<bool, BuildFault> {
    let images = layers(alloc, "1/a 2-c + 1/a 2-.wh.c")?;
    let [below, above] = images.as_slice() else {
        return Err(BuildFault::Listing);
    };
    let tree = tree_of_one(alloc, below, above, is_laid)?;
    Ok(tree.entry(&[b"a".as_slice(), b"c".as_slice()]).is_some())
}

/// How many nodes the table of the sample image has.
fn nodes_of<R: Threads + Sync, A: Allocator + Copy + Send + Sync>(
    rt: &R,
    alloc: A,
) -> Result<u64, BuildFault> {
    let table = table_of(rt, alloc, SAMPLE)?;
    let nodes = table.len();
    drop(table);
    Ok(nodes)
}

/// Whether a call returns the right result.
fn is_right<R: Threads + Sync, A: Allocator + Copy + Send + Sync>(
    rt: &R,
    alloc: A,
    call: Call,
) -> Result<bool, BuildFault> {
    match call {
        Call::Build => Ok(sample(alloc)?.len() == 5360),
        Call::Check => Ok(checked(alloc, sample(alloc)?)?.full() == 5360),
        Call::CheckAs => Ok(strict_size(alloc)? == 5360),
        Call::TreeOf => has_file(alloc, false),
        Call::Lay => Ok(!has_file(alloc, true)?),
        Call::Stack => {
            // An opaque marker over a marker for a name.
            let layers = "1/a 2-c 1-b + 1-.wh.b 1/a 2-d + 1/a 2-.wh..wh..opq 2-c";
            let stack = (layers, "", "2f!/a/c no!/a/d no!/b");
            Ok(wrong_of(rt, alloc, stack, &FreePass)?.is_none())
        }
        Call::Table => Ok(nodes_of(rt, alloc)? == 6),
    }
}

/// How many requests a call makes, each of which is refused once.
fn requests_of<R: Threads + Sync>(rt: &R, alloc: Global, call: Call) -> Result<u64, u64> {
    refuse_in_turn(alloc, |memories| {
        let came_to = is_right(rt, &memories.refusing, call);
        if memories.refusing.refused() {
            came_to == Err(BuildFault::Memory)
        } else {
            came_to == Ok(true)
        }
    })
}

#[test]
fn each_request_is_refused_in_turn(rt: HostRuntime) -> Result<(), Fail> {
    let alloc = rt.alloc();
    let building = requests_of(&rt, alloc, Call::Build)?;
    assert!(rt; building < requests_of(&rt, alloc, Call::Check)?);
    assert!(rt; building < requests_of(&rt, alloc, Call::CheckAs)?);
    let reading = requests_of(&rt, alloc, Call::TreeOf)?;
    assert!(rt; reading < requests_of(&rt, alloc, Call::Lay)?);
    assert!(rt; 50 < requests_of(&rt, alloc, Call::Stack)?);
    assert!(rt; 10 < requests_of(&rt, alloc, Call::Table)?);
    Ok(())
}
