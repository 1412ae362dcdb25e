//! Lines that are written in full.

ghost use Rattle.std.specs.Prelude.{◌<◌, ◌^◌, OnOk, IfErr};
ghost use Rattle.std.specs.Io.KnownBytes.{Appends};
ghost use Rattle.devices.specs.Pushing.{GainsFront};
ghost use Rattle.strata_images.specs.Lines.{AreLost, ArePut};

use devices::{Failed, Sink, hand_on};
use std::io::{self, Error, ErrorKind, Write};

/// Writes lines to a sink, and flushes it if there are any. If the sink fails it has a prefix of
/// them, and is not called again.
pub fn put_lines<K: Sink>(sink: &mut K, lines: &[u8]) -> Result<(), Failed>
    requires { (K.state sink.old).counts.failures < 2 ^ 63 }
    ensures ok { OnOk result (ArePut lines.now (K.state sink.old) (K.state sink.new)) }
    ensures err { IfErr result (λ _. AreLost lines.now (K.state sink.old) (K.state sink.new)) }
{
    hand_on(sink, lines)
}

/// Writes bytes, in one write if the writer takes them all. If a write fails, or takes none, the
/// writer has a prefix of them, and is not called again.
pub fn write_bytes<W: Write>(writer: &mut W, bytes: &[u8]) -> io::Result<()>
    ensures whole { OnOk result (Appends (W.contents writer.old) (W.contents writer.new)
        bytes.now) }
    ensures front { GainsFront bytes.now (W.contents writer.old) (W.contents writer.new) }
{
    let mut rest = bytes;
    while !rest.is_empty() {
        match writer.write(rest)? {
            0 => return Err(Error::from(ErrorKind::WriteZero)),
            n => rest = &rest[n..],
        }
    }
    Ok(())
}
