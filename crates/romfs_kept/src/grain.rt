//! Where reads of a source begin and end.

ghost use Rattle.std.specs.Prelude.{◌+◌, ◌<◌, ◌≤◌, ◌^◌};

/// The bytes of a block.
const BLOCK: usize = 4096;

/// What a source reads for one byte: windows over it begin and end at such bounds.
#[derive(Clone, Copy, Debug, PartialEq, Eq)]
pub enum Grain {
    /// That byte.
    Byte,
    /// The block of 4,096 bytes in which it is, as a source under a digest, which hashes whole
    /// blocks.
    Block,
}

impl Grain {
    /// The last bound up to a place.
    pub(crate) fn bound_before(self, place: usize) -> usize
        ensures { result ≤ place }
    {
        match self {
            Grain::Byte => place,
            Grain::Block => place / BLOCK * BLOCK,
        }
    }

    /// The first bound from a place on.
    pub(crate) fn bound_behind(self, place: usize) -> usize
        requires { place < 2 ^ 63 }
        ensures { place ≤ result }
    {
        match self {
            Grain::Byte => place,
            Grain::Block => (place + (BLOCK - 1)) / BLOCK * BLOCK,
        }
    }
}
