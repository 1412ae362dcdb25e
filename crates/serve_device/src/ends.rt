//! How readers ended.

ghost use Rattle.std.specs.Prelude.{◌≡◌};
ghost use Rattle.serve_device.specs.Ends.{end_of_stop, first_told, place_of, place_of_end};

use serve_core::StreamFault;

/// How a reader ended, or several together.
#[derive(Clone, Copy, PartialEq, Eq)]
pub enum End {
    /// Its stream ended, or none was served.
    AtEnd,
    /// The file system was unmounted.
    TakenAway,
    /// It stopped for this reason.
    Stopped(StreamFault),
}

// The end of a reader that stopped: an unmount if a read failed and its side is gone, or if a write
// failed and either side is.
pub(crate) fn end_of_stop(fault: StreamFault, input_gone: bool, output_gone: bool) -> End
    ensures { result ≡ end_of_stop fault input_gone output_gone }
{
    let taken_away = match fault {
        StreamFault::Read => input_gone,
        StreamFault::Write => input_gone || output_gone,
        _ => false,
    };
    if taken_away {
        End::TakenAway
    } else {
        End::Stopped(fault)
    }
}

// The one of two ends that is reported.
pub(crate) fn first_told(low: End, high: End) -> End
    ensures { result ≡ first_told low high }
{
    if place_of_end(low) <= place_of_end(high) {
        low
    } else {
        high
    }
}

// The rank of an end in the order of reporting.
fn place_of_end(end: End) -> u8
    ensures { result ≡ place_of_end end }
{
    match end {
        End::Stopped(fault) => place_of(fault),
        End::TakenAway => 7,
        End::AtEnd => 8,
    }
}

// The rank of a fault in the table of faults and exit statuses.
fn place_of(fault: StreamFault) -> u8
    ensures { result ≡ place_of fault }
{
    match fault {
        StreamFault::Read => 1,
        StreamFault::Write => 2,
        StreamFault::BadLength { .. } => 3,
        StreamFault::CutOff { .. } => 4,
        StreamFault::Turns => 5,
        StreamFault::Memory => 6,
    }
}
