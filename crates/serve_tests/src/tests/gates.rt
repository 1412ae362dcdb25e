//! Images are checked at the same time, and each piece of work passes its gate once.

ghost use Rattle.std.specs.Prelude.{◌≡◌, true};

use node_reader::Table;
use serve_core::prepare;
use serve_test_kit::runs::{by, long_table, ran, sample_table};
use stack_core::{Gate, Work};
use std::alloc::Global;
use std::test::Fail;
use std::thread::Threads;
use test_kit::gates::{Crowd, Holding, MANY, Recording, parts_of_layers};
use test_kit::long::{Long, stream};
use test_kit::sample_images::{alone, empties, sample};
use test_kit::script::script;

/// This many empty images and, if requested, the sample image on them.
fn images_of(alloc: Global, count: usize, with_sample: bool) -> Option<Vec<Vec<u8>>> {
    let mut images = empties(alloc, count)?;
    if with_sample {
        images.push(sample(alloc).ok()?).ok()?;
    }
    Some(images)
}

/// How many nodes a table has over these images.
fn nodes_over<R: Threads + Sync, G: Gate + Sync>(
    rt: &R,
    alloc: Global,
    count: usize,
    with_sample: bool,
    gate: &G,
) -> Option<u64> {
    let table = prepare(rt, alloc, images_of(alloc, count, with_sample)?, gate).ok()?;
    Some(table.len())
}

#[test]
fn the_lowest_check_waits_for_the_next(rt: HostRuntime) {
    let gate = Holding::new(Work::Check, 0b1, 0b10, MANY);
    let nodes = nodes_over(&rt, rt.alloc(), 1, true, &gate);
    assert!(rt; nodes == Some(6) && !gate.is_given_up());
}

/// At most 16 parts of 128 images are checked at a time, or as many as there are processors if
/// these are fewer.
#[test]
fn some_parts_are_checked_at_a_time(rt: HostRuntime) {
    let parts = parts_of_layers(&rt);
    let gate = Crowd::new(Work::Check, parts);
    let nodes = nodes_over(&rt, rt.alloc(), 128, false, &gate);
    assert!(rt; nodes == Some(1) && gate.seen() == (128, parts) && parts <= 16);
}

#[test]
fn each_layer_is_checked_and_read_once(rt: HostRuntime) {
    let gate = Recording::new();
    let nodes = nodes_over(&rt, rt.alloc(), 5, false, &gate);
    assert!(rt; nodes == Some(1) && gate.seen() == (0x1_1111, 0x1_1111, 0));
}

/// The batches that are begun in a run of a stream.
fn begun<R: Threads + Sync>(
    rt: &R,
    global: Global,
    table: &Table<Global>,
    stream: &[u8],
    plan: (u32, u32),
) -> Option<u64>
    requires { table.now.whole ≡ true }
{
    let gate = Recording::new();
    let ran = ran(rt, global, global, table, stream, by(plan), None, &gate)?;
    let (checks, trees, batches) = gate.seen();
    (ran.end().is_ok() && checks == 0 && trees == 0).then_some(batches)
}

/// The first of these plans that begins other batches than those beside it.
fn wrong_plan<R: Threads + Sync>(
    rt: &R,
    global: Global,
    table: &Table<Global>,
    stream: &[u8],
    plans: [((u32, u32), u64); 2],
) -> Option<(u32, u32)>
    requires { table.now.whole ≡ true }
{
    for (plan, batches) in plans {
        if begun(rt, global, table, stream, plan) != Some(batches) {
            return Some(plan);
        }
    }
    None
}

/// Twelve messages in batches of three and of one.
#[test]
fn each_batch_is_begun_once(rt: HostRuntime) -> Result<(), Fail> {
    let stream = script(rt.alloc())?;
    let table = sample_table(&rt, rt.alloc()).ok_or("a table")?;
    let plans = [((2, 3), 0x1111), ((5, 1), 0x1111_1111_1111)];
    let wrong = wrong_plan(&rt, rt.alloc(), &table, &stream, plans);
    drop(table);
    assert_eq!(rt; wrong, None);
    Ok(())
}

/// A round of 17 messages by one thread and two of 127 by workers: in batches of 16, or of 256,
/// which two workers share evenly as batches of 64.
#[test]
fn each_batch_of_workers_is_begun_once(rt: HostRuntime) -> Result<(), Fail> {
    let stream = stream(rt.alloc(), Long::Readdir, 270)?;
    let table = long_table(&rt, rt.alloc()).ok_or("a table")?;
    let plans = [((4, 16), 0x2222_2233), ((2, 256), 0x23)];
    let wrong = wrong_plan(&rt, rt.alloc(), &table, &stream, plans);
    drop(table);
    assert_eq!(rt; wrong, None);
    Ok(())
}
