//! Sound images that are lent, and what is read from them.

ghost use Rattle.std.specs.Prelude.{◌≡◌, ◌≢◌, ◌⊎◌, [], ◌+◌, ◌≤◌, length, Some, IsNone, All, slice_get, IfOk, IfSome};
ghost use Rattle.romfs_format.specs.Fields.{root as root_of, name, kind as kind_in, size as size_in};
ghost use Rattle.romfs_format.specs.Heads.{name_of, head_of};
ghost use Rattle.romfs_format.specs.Links.{IsFinal};
ghost use Rattle.romfs_reader.specs.Images.{IsImage, bytes_of};
ghost use Rattle.romfs_reader.specs.Readers.{bytes_at, IsHeadAt, IsGiven, IsPart, IsDataPart, AreMembers};

use crate::ends::Ends;
use crate::image::Image;
use crate::members::Members;
use crate::parts::{
    Part, byte_in, data_part, end_of, members_of, name_in, named_at, part_of, place_at, said_part,
};
use devices::{Contents, Unread};
use romfs_format::{Head, Kind};
use romfs_held::read::{copy_some, head_at, name_of, named_head};
use romfs_held::{Held, NamedHead};
use std::alloc::{AllocError, Allocator};
use std::marker::Model;

/// A lent sound image: an [`Image`](crate::Image), of which a clause sees the accessible bytes,
/// with zeros where nothing is kept, as where files have their data.
///
/// `members`, `target`, `name` and `data_part` need a header that this image gave, by `root`,
/// `members` or `target`. With `head` a caller gets such a header again from its offset.
/// `data_part` returns the place of a file's data, not the data. No reader but `ends` takes memory.
#[derive(Drop)]
pub struct ImageView<'a> {
    image: Held<'a>,
    root: u32,
}

impl<'a> Model for ImageView<'a> {
    ghost use Rattle.std.specs.Prelude.{List, ℕ, ◌≡◌};
    ghost use Rattle.romfs_format.specs.Fields.{root as root_of};
    ghost use Rattle.romfs_reader.specs.Images.{IsImage};

    ghost Value = { List ℕ };

    ghost view = { λ lent. lent.image };

    ghost invariant = { λ lent. IsImage lent.image × (lent.root ≡ root_of lent.image) };
}

impl<'a> ImageView<'a> {
    /// An image with its root here.
    pub(crate) fn new(image: Held<'a>, root: u32) -> ImageView<'a>
        requires image { IsImage image }
        requires root { root ≡ root_of image }
        ensures { result ≡ image.entry }
    {
        ImageView { image, root }
    }

    /// The full size: how many bytes are accessible.
    pub fn full(&self) -> u32
        ensures value { result ≡ length self.now }
        ensures sound { IsImage self.now }
    {
        self.image.len() as u32
    }

    /// The header of the root, after the volume name.
    #[tactic(auto, using(crate::proofs::Keeps::root_inside, crate::proofs::Keeps::root_directory))]
    pub fn root(&self) -> Head
        ensures value { result ≡ head_of self.now (root_of self.now) }
        ensures directory { result.kind ≡ Kind.Directory }
        ensures given { IsGiven self.now result }
        ensures sound { IsImage self.now }
    {
        head_at(&self.image, self.root)
    }

    /// The header at an offset in bytes; none if the offset is no multiple of 16, the header is not
    /// inside the image, or its name has no end.
    ///
    /// At the offset of a header that this image gave, it returns that header; none only for a root
    /// whose name has no end.
    pub fn head(&self, offset: u32) -> Option<Head>
        ensures value { IsHeadAt self.now offset result }
        ensures given { (g : Head) → IsGiven self.now g → g.offset ≡ offset →
            (result ≡ Some g) ⊎ ((offset ≡ root_of self.now) × IsNone (name self.now offset)) }
    {
        place_at(&self.image, self.root, offset)
    }

    /// A header that this image gave before, again, by its offset in bytes.
    pub fn given(&self, offset: u32) -> Head
        requires { IsGiven self.now (head_of self.now offset) }
        ensures value { result ≡ head_of self.now offset }
        ensures given { IsGiven self.now result }
    {
        head_at(&self.image, offset)
    }

    /// The same with its name, whose length in bytes is known, so its end is not searched.
    pub fn given_named(&self, offset: u32, name_len: u32) -> NamedHead<'a>
        requires head { IsGiven self.now (head_of self.now offset) }
        requires name { name_len ≡ length (name_of self.now offset) }
        ensures value { result.head ≡ head_of self.now offset }
        ensures given { IsGiven self.now result.head }
        ensures name { result.name.now ≡ name_of self.now offset }
    {
        named_head(&self.image, offset, name_len)
    }

    /// The byte at an offset in bytes; none beyond the image. It is for callers that read ahead.
    pub fn glance(&self, offset: u32) -> Option<u8>
        ensures { result ≡ slice_get self.now offset }
    {
        byte_in(&self.image, offset)
    }

    /// The members of a directory, each once, in the order of its chain (romfs.rst, "next filehdr"
    /// and "spec.info"). Headers named `.` or `..` are passed over, and so is the root's in its own
    /// chain. A header of another kind has none.
    ///
    /// Each header of the chain is read once as the iterator goes on.
    pub fn members(&self, directory: &Head) -> Members<'a>
        requires { IsGiven self.now directory.now }
        ensures directory { directory.now.kind ≡ Kind.Directory →
            AreMembers self.now directory.now.offset result }
        ensures other { directory.now.kind ≢ Kind.Directory → result ≡ [] }
        ensures given { All (λ head. IsGiven self.now head) result }
    {
        members_of(&self.image, self.root, directory)
    }

    /// The header that a hard link leads to, after any further hard links (romfs.rst, "spec.info").
    /// Any other header is returned.
    ///
    /// A chain of hard links is no longer than the number of headers that the image has room for.
    pub fn target(&self, head: &Head) -> Head
        requires { IsGiven self.now head.now }
        ensures end { IsFinal self.now head.now.offset result.offset }
        ensures given { IsGiven self.now result }
    {
        end_of(&self.image, head)
    }

    /// Finds what `target` finds, for many headers: it keeps the ends of the hard links that it
    /// passed.
    pub fn ends<A: Allocator + Copy>(&self, alloc: A) -> Ends<'a, A>
        ensures { result ≡ self.now }
    {
        Ends::new(alloc, &self.image)
    }

    /// The name of a header, without its zero byte. It is empty for a root whose name has no end.
    #[tactic(auto, using(crate::proofs::Readings::given_head))]
    pub fn name(&self, head: &Head) -> &'a [u8]
        requires { IsGiven self.now head.now }
        ensures { result.now ≡ name_of self.now head.now.offset }
    {
        name_in(&self.image, head)
    }

    /// The name of a header that this image gave before, by its offset and the length of its name
    /// in bytes, so its end is not searched.
    pub fn given_name(&self, offset: u32, name_len: u32) -> &'a [u8]
        requires head { IsGiven self.now (head_of self.now offset) }
        requires name { name_len ≡ length (name_of self.now offset) }
        ensures { result.now ≡ name_of self.now offset }
    {
        name_of(&self.image, offset, name_len)
    }

    /// The name of the header at any offset in bytes. It is empty if it has no end, or would lie
    /// beyond the image.
    pub fn name_at(&self, offset: u32) -> &'a [u8]
        ensures { result.now ≡ name_of self.now offset }
    {
        named_at(&self.image, offset)
    }

    /// The place of the data of a regular file or of a symbolic link's target: a part of no bytes
    /// for other kinds. A caller that keeps it finds the data without reading the header again.
    pub fn data_part(&self, head: &Head) -> Part
        requires { IsGiven self.now head.now }
        ensures { IsDataPart self.now head.now.offset result }
    {
        data_part(&self.image, head)
    }

    /// The same for a header that this image gave before, by its offset, its kind, the length of
    /// its name and the size of its data in bytes; it is not read again.
    pub fn given_part(&self, offset: u32, kind: Kind, name_len: u32, size: u32) -> Part
        requires head { IsGiven self.now (head_of self.now offset) }
        requires kind { kind ≡ kind_in self.now offset }
        requires name { name_len ≡ length (name_of self.now offset) }
        requires size { size ≡ size_in self.now offset }
        ensures { IsDataPart self.now offset result }
    {
        said_part(&self.image, offset, kind, name_len, size)
    }

    /// The bytes of a part that lies in the image; none if the image stays in its file.
    pub fn part(&self, part: Part) -> Option<&'a [u8]>
        requires { IsPart self.now part }
        ensures { IfSome result (λ bytes. bytes.now ≡ bytes_at self.now part.start part.len) }
    {
        part_of(&self.image, part)
    }
}

/// What is held of an image is read as it is. No read fails.
impl<'a> Contents for ImageView<'a> {
    ghost use Rattle.devices.specs.Sources.{held};

    ghost source = { λ lent. held lent };

    fn size(&self) -> u64 {
        self.image.len() as u64
    }

    fn read_at(&self, room: &mut [u8], offset: u64) -> Result<usize, Unread> {
        if room.is_empty() || self.image.len() as u64 <= offset {
            return Ok(0);
        }
        Ok(copy_some(&self.image, offset as usize, room))
    }
}

/// The same images, lent. `AllocError` only if memory was refused.
pub fn views_of<'a, A: Allocator>(
    alloc: A,
    images: &'a [Image<A>],
) -> Result<Vec<ImageView<'a>, A>, AllocError>
    ensures { IfOk result (λ views. views.items ≡ bytes_of images.now) }
{
    let mut views = Vec::with_capacity(alloc, images.len())?;
    for image in images {
        views.push(image.view())?;
    }
    Ok(views)
}
