//! The table of the sample image.

ghost use Rattle.std.specs.Prelude.{◌≡◌, true, IfOk, IfSome};

use node_table::{OfTree, Table};
use romfs_image::sample::BuildFault;
use stack_core::{FreePass, stack};
use std::alloc::Allocator;
use std::thread::Threads;
use test_kit::sample_images::{SAMPLE, layers};

/// The table of the sample image; none if memory is refused.
pub fn sample_table<R: Threads + Sync, A: Allocator + Copy + Send + Sync>(
    rt: &R,
    alloc: A,
) -> Option<Table<A>>
    ensures { IfSome result (λ table. table.whole ≡ true) }
{
    table(rt, alloc).ok()
}

fn table<R: Threads + Sync, A: Allocator + Copy + Send + Sync>(
    rt: &R,
    alloc: A,
) -> Result<Table<A>, BuildFault>
    ensures { IfOk result (λ table. table.whole ≡ true) }
{
    let images = layers(alloc, SAMPLE)?;
    if images.is_empty() || 128 < images.len() {
        return Err(BuildFault::Listing);
    }
    let tree = stack(rt, alloc, &images, &FreePass)?;
    Ok(Table::of(rt, alloc, tree, images)?)
}
