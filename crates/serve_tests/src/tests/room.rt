//! The longest round takes no more memory than a short one.

ghost use Rattle.std.specs.Prelude.{◌≡◌, true};

use node_reader::Table;
use serve_test_kit::runs::{by, ran, table_of};
use stack_core::FreePass;
use std::alloc::Global;
use std::test::Fail;
use std::thread::Threads;
use test_kit::long::{mebibyte, reads};
use test_kit::refusing::Refusing;
use test_kit::sample_images::alone;

/// Whether the longest round comes to its end in two writes, with this memory.
fn ends_in_two_writes<'a, R: Threads + Sync>(
    rt: &R,
    global: Global,
    memory: &'a Refusing<Global>,
    table: &Table<&'a Refusing<Global>>,
) -> Option<bool>
    requires { table.now.whole ≡ true }
{
    let stream = reads(global, &[262_047, 1 << 20]).ok()?;
    let run = by((1, 16));
    let ran = ran(rt, global, memory, table, &stream, run, None, &FreePass)?;
    Some(ran.end() == Ok((3, 1_310_735)) && ran.writes == 2)
}

/// INIT's reply and that of a READ have one byte less than what ends a round; then one of 1 MiB
/// follows. Memory is taken for the balances, the replies and the buffer.
#[test]
fn the_longest_round_has_room(rt: HostRuntime) -> Result<(), Fail> {
    let global = rt.alloc();
    let (plain, counting) = (Refusing::new(global, 0), Refusing::new(global, 0));
    let table = table_of(&rt, &plain, alone(&plain, mebibyte(&plain)?)?).ok_or("a table")?;
    let ends = ends_in_two_writes(&rt, global, &counting, &table);
    drop(table);
    assert!(rt; ends == Some(true) && counting.requests() == 3);
    Ok(())
}
