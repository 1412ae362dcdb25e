//! Values of trees.

ghost use Rattle.std.specs.Prelude.{◌≡◌};

/// Values that can be laid on one another.
pub trait Lay: Copy + Drop {
    ghost laid: { Self → Self → Self };

    /// The value of a path where the lower tree has the first value and the upper tree the second.
    fn lay(low: Self, high: Self) -> Self
        ensures { result ≡ laid low high };
}
