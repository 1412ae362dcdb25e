//! What a climb finds.

ghost use Rattle.std.specs.Prelude.{◌≡◌, length};

use std::alloc::Allocator;

/// What a climb has found.
#[derive(Drop)]
pub(crate) struct Found<A: Allocator> {
    /// Whether each point was entered.
    pub entered: Vec<bool, A>,
    /// The lowest point of each class on the path, or the number of points.
    pub low: Vec<u32, A>,
    /// Whether each point was noted.
    pub noted: Vec<bool, A>,
    ghost entered_sized: { length entered.items ≡ length low.items },
    ghost noted_sized: { length noted.items ≡ length low.items },
}
