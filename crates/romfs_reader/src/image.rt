//! Sound images, and what is read from them.

ghost use Rattle.std.specs.Prelude.{◌≡◌, ◌≢◌, ◌⊎◌, [], ◌+◌, ◌<◌, ◌≤◌, ◌^◌, length, true, Some, IsNone, All};
ghost use Rattle.romfs_format.specs.declared.rule.Profile.TheVariants.{Usual};
ghost use Rattle.romfs_format.specs.Fields.{image, root as root_of, name, word};
ghost use Rattle.romfs_format.specs.Links.{IsFinal};
ghost use Rattle.romfs_format.specs.Rules.{IsSound};
ghost use Rattle.romfs_format.specs.declared.limits.TheConstants.{HEAD_SIZE};
ghost use Rattle.romfs_held.specs.Images.{held_bytes, is_whole};
ghost use Rattle.romfs_reader.specs.Images.{IsImage};
ghost use Rattle.romfs_format.specs.Heads.{name_of, head_of};
ghost use Rattle.romfs_reader.specs.Readers.{data_of_header, bytes_at, IsHeadAt, IsGiven, IsPart, AreMembers};

use crate::members::Members;
use crate::parts::{Part, bytes_in, data_in};
use crate::view::ImageView;
use romfs_format::{Head, Kind};
use romfs_held::HeldImage;
use romfs_held::read::{root_of, word};
use std::alloc::Allocator;
use std::marker::Model;

/// An image that keeps every rule, held in full, or what is kept of one that stays in its file. A
/// clause sees its accessible bytes, with zeros where nothing is kept, and whether all are held.
///
/// It lends an [`ImageView`], which has all readers. It repeats `full`, `root`, `head`, `members`,
/// `target` and `name` of these, and it alone returns data by a header, if the image is held in
/// full. `members`, `target`, `name` and `body` need a header that this image gave, by `root`,
/// `members` or `target`. With `head` a caller gets such a header again from its offset. No reader
/// takes memory.
#[derive(Drop)]
pub struct Image<A: Allocator> {
    held: HeldImage<A>,
    root: u32,
}

impl<A: Allocator> Model for Image<A> {
    ghost use Rattle.std.specs.Prelude.{◌≡◌};
    ghost use Rattle.romfs_format.specs.Fields.{root as root_of};
    ghost use Rattle.romfs_held.specs.Images.{held_bytes, is_whole};
    ghost use Rattle.romfs_reader.specs.Images.{HeldBytes, IsImage};

    ghost Value = { HeldBytes };

    ghost view = { λ image. record {
      bytes = held_bytes image.held;
      whole = is_whole image.held;
    } };

    ghost invariant = { λ image. IsImage (held_bytes image.held)
        × (image.root ≡ root_of (held_bytes image.held)) };
}

/// The accessible bytes alone.
#[tactic(auto, unfolding(romfs_format::specs::Fields::image))]
fn accessible<A: Allocator>(held: HeldImage<A>) -> HeldImage<A>
    requires long { HEAD_SIZE ≤ length (held_bytes held) }
    requires within { word (held_bytes held) 8 ≤ length (held_bytes held) }
    ensures value { held_bytes result ≡ image (held_bytes held) }
    ensures length { length (held_bytes result) ≡ word (held_bytes held) 8 }
    ensures small { length (held_bytes result) < 2 ^ 32 }
    ensures whole { is_whole result ≡ is_whole held }
{
    let full = word(&held.held(), 8);
    held.first(full)
}

impl<A: Allocator> Image<A> {
    /// The image with what is held of bytes that break no rule. It keeps the accessible ones: as
    /// many as the full size says (romfs.rst, the volume header). Bytes after them are not looked
    /// at.
    pub fn of_sound(held: HeldImage<A>) -> Self
        requires { IsSound Usual (held_bytes held) }
        ensures bytes { result.bytes ≡ image (held_bytes held) }
        ensures whole { result.whole ≡ is_whole held }
    {
        let held = accessible(held);
        let root = root_of(&held.held());
        Image { held, root }
    }

    /// The image, lent.
    pub fn view(&self) -> ImageView<'_>
        ensures { result ≡ self.now.bytes }
    {
        ImageView::new(self.held.held(), self.root)
    }

    /// The full size: how many bytes are accessible.
    pub fn full(&self) -> u32
        ensures value { result ≡ length self.now.bytes }
        ensures sound { IsImage self.now.bytes }
    {
        self.view().full()
    }

    /// The header of the root, after the volume name.
    pub fn root(&self) -> Head
        ensures value { result ≡ head_of self.now.bytes (root_of self.now.bytes) }
        ensures directory { result.kind ≡ Kind.Directory }
        ensures given { IsGiven self.now.bytes result }
        ensures sound { IsImage self.now.bytes }
    {
        self.view().root()
    }

    /// The header at an offset in bytes; none if the offset is no multiple of 16, the header is not
    /// inside the image, or its name has no end.
    ///
    /// At the offset of a header that this image gave, it returns that header; none only for a root
    /// whose name has no end.
    pub fn head(&self, offset: u32) -> Option<Head>
        ensures value { IsHeadAt self.now.bytes offset result }
        ensures given { (g : Head) → IsGiven self.now.bytes g → g.offset ≡ offset →
            (result ≡ Some g)
            ⊎ ((offset ≡ root_of self.now.bytes) × IsNone (name self.now.bytes offset)) }
    {
        self.view().head(offset)
    }

    /// The members of a directory, each once, in the order of its chain (romfs.rst, "next filehdr"
    /// and "spec.info"). Headers named `.` or `..` are passed over, and so is the root's in its own
    /// chain. A header of another kind has none.
    ///
    /// Each header of the chain is read once as the iterator goes on.
    pub fn members(&self, directory: &Head) -> Members<'_>
        requires { IsGiven self.now.bytes directory.now }
        ensures directory { directory.now.kind ≡ Kind.Directory →
            AreMembers self.now.bytes directory.now.offset result }
        ensures other { directory.now.kind ≢ Kind.Directory → result ≡ [] }
        ensures given { All (λ head. IsGiven self.now.bytes head) result }
    {
        self.view().members(directory)
    }

    /// The header that a hard link leads to, after any further hard links (romfs.rst, "spec.info").
    /// Any other header is returned.
    ///
    /// A chain of hard links is no longer than the number of headers that the image has room for.
    pub fn target(&self, head: &Head) -> Head
        requires { IsGiven self.now.bytes head.now }
        ensures end { IsFinal self.now.bytes head.now.offset result.offset }
        ensures given { IsGiven self.now.bytes result }
    {
        self.view().target(head)
    }

    /// The name of a header, without its zero byte. It is empty for a root whose name has no end.
    pub fn name(&self, head: &Head) -> &[u8]
        requires { IsGiven self.now.bytes head.now }
        ensures { result.now ≡ name_of self.now.bytes head.now.offset }
    {
        self.view().name(head)
    }

    /// The data of a regular file, or the target of a symbolic link: as many bytes as its size,
    /// from the padded end of its name on. It is empty for headers of other kinds. The image must
    /// be held in full, as one that was checked from its bytes is.
    #[tactic(auto, using(crate::proofs::Short::short_data))]
    pub fn body(&self, head: &Head) -> &[u8]
        requires given { IsGiven self.now.bytes head.now }
        requires whole { self.now.whole ≡ true }
        ensures value { result.now ≡ data_of_header self.now.bytes head.now.offset }
        ensures short { 16 + length result.now < 2 ^ 32 }
    {
        data_in(self.held.bytes(), head)
    }

    /// The bytes of a part. The image must be held in full.
    pub fn part(&self, part: Part) -> &[u8]
        requires part { IsPart self.now.bytes part }
        requires whole { self.now.whole ≡ true }
        ensures value { result.now ≡ bytes_at self.now.bytes part.start part.len }
        ensures short { 16 + length result.now < 2 ^ 32 }
    {
        bytes_in(self.held.bytes(), part)
    }
}
