//! The numbers of the limits.

ghost use Rattle.std.specs.Prelude.{◌≡◌};
ghost use Rattle.draw_board.specs.declared.limits.TheConstants.{MAX_WORKERS, MAX_BATCH, MAX_FORKS};

/// The most workers, the most requests of a batch, and how often a list is cut at most.
pub fn limits_example()
    ensures workers { MAX_WORKERS ≡ 64 }
    ensures batch { MAX_BATCH ≡ 256 }
    ensures forks { MAX_FORKS ≡ 4 }
{}
