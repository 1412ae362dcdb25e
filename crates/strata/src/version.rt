//! The version, as `--version` prints it.

ghost use Rattle.std.specs.Prelude.{◌≡◌, ◌<◌, ◌^◌, string_bytes, IfErr, IfOk, OnOk};
ghost use Rattle.strata_images.specs.Lines.{ArePut};
ghost use Rattle.strata.specs.Ending.{AreNotPut, TellsVersion};
ghost use Rattle.strata.specs.Texts.{version_line};

use crate::faults::Fault;
use devices::Sink;
use std::alloc::{AllocError, Allocator};
use std::io::Write;
use strata_images::put_lines;
use strata_words::version::{LOGIC, VERSION};

/// Writes the line of the version, and returns the exit status: 0, or that of a fault, whose line
/// is written to `faults`.
pub fn tell_version<A: Allocator, K: Sink, E: Write>(alloc: A, output: &mut K, faults: &mut E) -> u8
    requires { (K.state output.old).counts.failures < 2 ^ 63 }
    ensures { TellsVersion result (K.state output.old) (K.state output.new) }
{
    match put_version(alloc, output) {
        Ok(()) => 0,
        Err(fault) => fault.end(faults),
    }
}

fn put_version<A: Allocator, K: Sink>(alloc: A, output: &mut K) -> Result<(), Fault>
    requires { (K.state output.old).counts.failures < 2 ^ 63 }
    ensures put { OnOk result (ArePut version_line (K.state output.old) (K.state output.new)) }
    ensures not_put { IfErr result (λ fault.
        AreNotPut version_line (K.state output.old) (K.state output.new) fault) }
{
    let line = line(alloc)?;
    Ok(put_lines(output, line.as_bytes())?)
}

fn line<A: Allocator>(alloc: A) -> Result<String<A>, AllocError>
    ensures { IfOk result (λ line. string_bytes line ≡ version_line) }
{
    let mut line = String::new(alloc);
    writeln!(line, "strata {VERSION} (logic {LOGIC})")?;
    Ok(line)
}
