//! The table of the sample image: `big` 2, `d` 3, `d/x` 4, `l` 5, `null` 6.

ghost use Rattle.std.specs.Prelude.{◌≡◌, true, IfOk};

use node_table::{OfTree, Table};
use romfs_image::sample::BuildFault;
use stack_core::{FreePass, stack};
use std::alloc::Allocator;
use std::test::Fail;
use std::thread::Threads;
use test_kit::refusing::Refusing;
use test_kit::sample_images::{SAMPLE, layers};

/// The table of layers given as words.
pub fn table_of<R: Threads + Sync, A: Allocator + Copy + Send + Sync>(
    rt: &R,
    alloc: A,
    words: &str,
) -> Result<Table<A>, BuildFault>
    ensures { IfOk result (λ table. table.whole ≡ true) }
{
    let images = layers(alloc, words)?;
    if images.is_empty() || 128 < images.len() {
        return Err(BuildFault::Listing);
    }
    let tree = stack(rt, alloc, &images, &FreePass)?;
    Ok(Table::of(rt, alloc, tree, images)?)
}

/// Whether names find the nodes that they name, and other names none.
fn are_children<A: Allocator>(table: &Table<A>) -> bool {
    for (number, name, child) in [
        (1u64, "d", Some(3u64)),
        (3, "x", Some(4)),
        (1, ".", None),
        (1, "..", None),
        (1, ".wh.x", None),
        (1, "x", None),
        (2, "x", None),
    ] {
        if table.child(number, name.as_bytes()) != child {
            return false;
        }
    }
    table.child(1, [b'q'; 256].as_slice()).is_none()
}

/// Whether a table gives nothing for a number.
fn is_unused<A: Allocator>(table: &Table<A>, number: u64) -> bool
    requires { table.now.whole ≡ true }
{
    table.node(number).is_none()
        && table.attr(number).is_none()
        && table.rows(number).is_empty()
        && table.parent(number).is_none()
        && table.bytes(number).is_empty()
}

/// Whether each number has a node and attributes; and, of the file `big` and of the root, its data
/// and its rows.
fn are_used<A: Allocator>(table: &Table<A>) -> bool
    requires { table.now.whole ≡ true }
{
    for number in 1..=table.len() {
        let ino = table.attr(number).map(|attr| attr.ino);
        if ino != Some(number) || table.node(number).is_none() {
            return false;
        }
    }
    table.bytes(2).len() == 5000 && table.rows(1).len() == 4
}

/// Whether a table of the sample image gives what it should.
fn tells_all<A: Allocator>(table: &Table<A>) -> bool
    requires { table.now.whole ≡ true }
{
    let are_unused = is_unused(table, 0) && is_unused(table, 7) && is_unused(table, u64::MAX);
    let parents = (table.parent(1), table.parent(3), table.parent(2));
    let is_whole = table.len() == 6 && table.blocks_all() == 11;
    are_children(table)
        && are_unused
        && are_used(table)
        && is_whole
        && parents == (Some(1), Some(1), None)
}

/// Reading a table takes no memory.
#[test]
fn names_and_numbers_that_are_nowhere(rt: HostRuntime) -> Result<(), Fail> {
    let memory = Refusing::new(rt.alloc(), 0);
    let table = table_of(&rt, &memory, SAMPLE)?;
    let requests = memory.requests();
    let tells_all = tells_all(&table);
    drop(table);
    assert!(rt; tells_all && memory.requests() == requests);
    Ok(())
}
