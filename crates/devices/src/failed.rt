//! The failure of a device.

/// A call of a device failed. It gave, or took, no byte.
#[derive(Debug, Clone, Copy, PartialEq, Eq)]
pub struct Failed;
