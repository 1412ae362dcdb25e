//! Worked examples, by computation.

ghost use Rattle.devices.specs.Examples.{LimitExamples};

/// The numbers of the limits.
pub fn limits_example()
    ensures { LimitExamples }
{}
