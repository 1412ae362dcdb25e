//! An owned image: all its bytes, or what is kept of it.

ghost use Rattle.std.specs.Prelude.{◌≡◌, ◌≤◌, length, take, true};
ghost use Rattle.romfs_held.specs.Images.{held_bytes, is_whole};

use crate::held::Held;
use crate::kept::Kept;
use std::alloc::Allocator;

/// An image as it is held, whether or not it was checked.
#[derive(Drop)]
pub enum HeldImage<A: Allocator> {
    /// All its bytes.
    Whole(Vec<u8, A>),
    /// Some blocks of an image that stays in its file.
    Kept(Kept<A>),
}

impl<A: Allocator> HeldImage<A> {
    /// The image, to be read.
    pub fn held(&self) -> Held<'_>
        ensures { result ≡ held_bytes self.now }
    {
        match self {
            HeldImage::Whole(bytes) => Held::whole(bytes),
            HeldImage::Kept(kept) => kept.held(),
        }
    }

    /// All its bytes, if the image is held in full.
    pub fn bytes(&self) -> &[u8]
        requires { is_whole self.now ≡ true }
        ensures { result.now ≡ held_bytes self.now }
    {
        match self {
            HeldImage::Whole(bytes) => bytes,
            HeldImage::Kept(_) => &[],
        }
    }

    /// Only the first bytes, this many.
    pub fn first(self, count: u32) -> HeldImage<A>
        requires { count ≤ length (held_bytes self) }
        ensures value { held_bytes result ≡ take count (held_bytes self) }
        ensures whole { is_whole result ≡ is_whole self }
    {
        match self {
            HeldImage::Whole(mut bytes) => {
                bytes.truncate(count as usize);
                HeldImage::Whole(bytes)
            }
            HeldImage::Kept(kept) => HeldImage::Kept(kept.first(count)),
        }
    }
}
