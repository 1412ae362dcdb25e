//! Worked examples: ends, and which of several is reported.

ghost use Rattle.serve_device.specs.Examples.{GoneExamples, OrderExamples, SeatExamples};

use std::alloc::Allocator;

/// Faults rank before an unmount, in the order of their table.
pub fn order_example()
    ensures { OrderExamples }
{}

/// When a failure means an unmount.
pub fn gone_example()
    ensures { GoneExamples }
{}

/// Which end is reported of several readers.
pub fn seats_example<A: Allocator>()
    ensures { SeatExamples A }
{}
