//! Bytes to a sink, all of them.

ghost use Rattle.std.specs.Prelude.{◌<◌, ◌^◌};
ghost use Rattle.devices.specs.Pushing.{PushesAll, HandsOn};

use crate::failed::Failed;
use crate::sink::Sink;

/// Pushes all of the bytes, however many each push takes, and then flushes once, if there were any.
///
/// `Failed` if a push or the flush failed, or a push took none of some bytes. The sink has then
/// taken a prefix of the bytes, once, and is not called again.
pub fn hand_on<K: Sink>(sink: &mut K, bytes: &[u8]) -> Result<(), Failed>
    requires { (K.state sink.old).counts.failures < 2 ^ 63 }
    ensures { HandsOn bytes.now (K.state sink.old) (K.state sink.new) result }
{
    if bytes.is_empty() {
        return Ok(());
    }
    push_all(sink, bytes)?;
    sink.flush()
}

// Pushes all of the bytes.
fn push_all<K: Sink>(sink: &mut K, bytes: &[u8]) -> Result<(), Failed>
    requires { (K.state sink.old).counts.failures < 2 ^ 63 }
    ensures { PushesAll bytes.now (K.state sink.old) (K.state sink.new) result }
{
    let mut rest = bytes;
    while !rest.is_empty() {
        match sink.push(rest) {
            Ok(0) => return Err(Failed),
            Ok(n) => rest = &rest[n..],
            Err(failed) => return Err(failed),
        }
    }
    Ok(())
}
