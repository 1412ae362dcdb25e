//! An image that is lent: a slice of all its bytes, or some blocks of them.

ghost use Rattle.std.specs.Prelude.{◌≡◌, ◌<◌, ◌≤◌, ◌^◌, length, take};
ghost use Rattle.romfs_held.specs.Blocks.{IsKept, filled};

use crate::numbers::Numbers;
use std::marker::Model;

/// An image. A clause sees the list of its bytes; if only blocks are kept, these at their places,
/// and zeros between.
#[derive(Drop)]
pub struct Held<'a> {
    pub(crate) form: Form<'a>,
}

/// How an image is held.
#[derive(Clone, Copy)]
pub(crate) enum Form<'a> {
    /// All its bytes.
    Whole(&'a [u8]),
    /// Some blocks of an image of this size: their numbers, rising, and their bytes.
    Sparse {
        size: u32,
        blocks: Numbers<'a>,
        bytes: &'a [u8],
    },
}

impl<'a> Model for Held<'a> {
    ghost use Rattle.std.specs.Prelude.{List, ℕ};

    ghost Value = { List ℕ };

    ghost use Rattle.romfs_held.specs.Held.{bytes_of, IsHeld};

    ghost view = { λ held. bytes_of held.form };

    ghost invariant = { λ held. IsHeld held.form };
}

impl<'a> Held<'a> {
    /// All bytes of an image.
    pub fn whole(bytes: &'a [u8]) -> Held<'a>
        ensures { result ≡ bytes.now }
    {
        Held {
            form: Form::Whole(bytes),
        }
    }

    /// Blocks of an image of this size: their numbers, rising, and their bytes.
    #[tactic(auto, using(crate::proofs::Fronts::filled_long))]
    pub(crate) fn sparse(size: u32, blocks: Numbers<'a>, bytes: &'a [u8]) -> Held<'a>
        requires { IsKept blocks.all.now bytes.now }
        ensures value { result ≡ filled size blocks.entry.all.now bytes.now }
        ensures small { length result < 2 ^ 32 }
    {
        Held {
            form: Form::Sparse {
                size,
                blocks,
                bytes,
            },
        }
    }

    /// The same image, lent once more.
    pub fn again(&self) -> Held<'a>
        ensures { result ≡ self.now }
    {
        Held { form: self.form }
    }

    /// How many bytes there are.
    #[inline(always)]
    #[tactic(auto, using(crate::proofs::Fronts::filled_long))]
    pub fn len(&self) -> usize
        ensures { result ≡ length self.now }
    {
        match self.form {
            Form::Whole(bytes) => bytes.len(),
            Form::Sparse { size, .. } => size as usize,
        }
    }

    /// Only the first bytes, this many.
    #[tactic(auto, using(crate::proofs::Fronts::filled_long, crate::proofs::Views::first_filled))]
    pub fn first(&self, count: usize) -> Held<'a>
        requires { count ≤ length self.now }
        ensures value { result ≡ take count self.now }
        ensures length { length result ≡ count }
    {
        match self.form {
            Form::Whole(bytes) => Held {
                form: Form::Whole(&bytes[..count]),
            },
            Form::Sparse {
                size,
                blocks,
                bytes,
            } => Held {
                form: Form::Sparse {
                    size: size.min(count as u32),
                    blocks,
                    bytes,
                },
            },
        }
    }
}
