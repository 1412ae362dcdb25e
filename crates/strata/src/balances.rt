//! The balances of the nodes, as lines of a file.

ghost use Rattle.std.specs.Prelude.{◌≡◌, ◌<◌, ◌^◌, ◌⊎◌, is_some, true, string_bytes, IfOk, IfErr, OnOk};
ghost use Rattle.strata.specs.Faults.{out_of_memory, write_failed};
ghost use Rattle.strata_images.specs.Lines.{ArePut};
ghost use Rattle.strata.specs.Ending.{AreNotPut};
ghost use Rattle.strata.specs.Texts.{balance_lines};

use crate::faults::Fault;
use devices::{Sink, Spout};
use std::alloc::{AllocError, Allocator};
use std::io::Write;
use strata_images::put_lines;

/// Writes a line for each balance to the file, if there is one: `<number> <balance>`, in the order
/// of the nodes.
pub fn tell_balances<F: Write + Drop, A: Allocator>(
    alloc: A,
    file: Option<F>,
    balances: &[i128],
) -> Result<(), Fault>
    ensures { IfErr result (λ fault. (is_some file ≡ true)
        × ((fault ≡ write_failed) ⊎ (fault ≡ out_of_memory))) }
{
    match file {
        Some(file) => put_balances(alloc, &mut Spout::new(file), balances),
        None => Ok(()),
    }
}

fn put_balances<K: Sink, A: Allocator>(
    alloc: A,
    sink: &mut K,
    balances: &[i128],
) -> Result<(), Fault>
    requires { (K.state sink.old).counts.failures < 2 ^ 63 }
    ensures ok { OnOk result (ArePut (balance_lines 1 balances.now)
        (K.state sink.old) (K.state sink.new)) }
    ensures err { IfErr result (AreNotPut (balance_lines 1 balances.now)
        (K.state sink.old) (K.state sink.new)) }
{
    let lines = lines_of(alloc, balances)?;
    Ok(put_lines(sink, lines.as_bytes())?)
}

fn lines_of<A: Allocator>(alloc: A, balances: &[i128]) -> Result<String<A>, AllocError>
    ensures { IfOk result (λ lines. string_bytes lines ≡ balance_lines 1 balances.now) }
{
    let mut lines = String::new(alloc);
    for (place, balance) in balances.iter().enumerate() {
        let node = place + 1;
        writeln!(lines, "{node} {balance}")?;
    }
    Ok(lines)
}
