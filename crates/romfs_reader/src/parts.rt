//! What the readers of an image read, from its bytes.

ghost use Rattle.std.specs.Prelude.{◌≡◌, ◌≢◌, [], ◌+◌, ◌^◌, ◌<◌, ◌≤◌, length, IsTrue, IsFalse, IfSome, All, slice_get};
ghost use Rattle.romfs_format.specs.Fields.{root as root_of, cleared, kind as kind_in, size as size_in};
ghost use Rattle.romfs_format.specs.Links.{IsFinal};
ghost use Rattle.romfs_reader.specs.Images.{IsImage};
ghost use Rattle.romfs_format.specs.Heads.{name_of, head_of, IsHeadIn};
ghost use Rattle.romfs_reader.specs.Readers.{data_of_header, IsHeadAt, IsGiven, IsPart, IsDataPart, AreMembers, bytes_at};

use crate::members::Members;
use romfs_format::head::{Head, Kind};
use romfs_format::limits::HEAD_SIZE;
use romfs_format::read::{cleared, padded};
use romfs_held::Held;
use romfs_held::read::{byte_at, head_at, name_of, slice_at, text_at};

/// A part of an image's bytes: its start, from the image's first byte on, and its length.
#[derive(Clone, Copy, Debug, PartialEq, Eq)]
pub struct Part {
    pub start: u32,
    pub len: u32,
}

/// The header at an offset, if there can be a header with an ended name.
#[tactic(auto, using(crate::proofs::Named::some_name))]
pub(crate) fn place_at(image: &Held<'_>, root: u32, offset: u32) -> Option<Head>
    requires image { IsImage image.now }
    requires root { root ≡ root_of image.now }
    ensures { IsHeadAt image.now offset result }
{
    let place = offset as usize;
    if offset % 16 != 0 || offset < root || image.len() < place + HEAD_SIZE {
        return None;
    }
    let head = head_at(image, offset);
    if head.name_len != 0 {
        return Some(head);
    }
    match text_at(image, place + HEAD_SIZE) {
        None => None,
        Some(_) => Some(head),
    }
}

/// The members of a header that is given.
pub(crate) fn members_of<'a>(image: &Held<'a>, root: u32, directory: &Head) -> Members<'a>
    requires image { IsImage image.now }
    requires root { root ≡ root_of image.now }
    requires given { IsGiven image.now directory.now }
    ensures directory { directory.now.kind ≡ Kind.Directory →
        AreMembers image.now directory.now.offset result }
    ensures other { directory.now.kind ≢ Kind.Directory → result ≡ [] }
    ensures given { All (λ head. IsGiven image.now head) result }
{
    if directory.kind != Kind::Directory {
        return Members::new(image, root, directory.offset, 0);
    }
    if leads_to_itself(root, directory) {
        return Members::new(image, root, directory.offset, 0);
    }
    Members::new(image, root, directory.offset, cleared(directory.spec))
}

/// The end of the chain of hard links from a given header.
pub(crate) fn end_of(image: &Held<'_>, head: &Head) -> Head
    requires image { IsImage image.now }
    requires given { IsGiven image.now head.now }
    ensures end { IsFinal image.now head.now.offset result.offset }
    ensures given { IsGiven image.now result }
{
    let mut end = *head;
    while end.kind == Kind::HardLink {
        end = head_at(image, cleared(end.spec));
    }
    end
}

/// This many bytes of an image from a place on, without those that would lie beyond it.
#[tactic(auto, unfolding(crate::specs::Readers::bytes_at))]
pub(crate) fn bytes_within(image: &[u8], from: usize, len: usize) -> &[u8]
    ensures { result.now ≡ bytes_at image.now from len }
{
    let rest = &image[from.min(image.len())..];
    &rest[..len.min(rest.len())]
}

/// The byte at an offset; none beyond the image.
#[inline(always)]
pub(crate) fn byte_in(image: &Held<'_>, offset: u32) -> Option<u8>
    ensures { result ≡ slice_get image.now offset }
{
    let at = offset as usize;
    if at < image.len() {
        Some(byte_at(image, at))
    } else {
        None
    }
}

/// The name of the header at any offset; empty if it has no end or lies beyond the image.
#[tactic(auto, using(crate::proofs::Named::unnamed))]
pub(crate) fn named_at<'a>(image: &Held<'a>, offset: u32) -> &'a [u8]
    requires { length image.now < 2 ^ 32 }
    ensures { result.now ≡ name_of image.now offset }
{
    let at = offset as usize + HEAD_SIZE;
    if image.len() < at {
        return &[];
    }
    match text_at(image, at) {
        Some(name) => name,
        None => &[],
    }
}

/// The name of a header.
pub(crate) fn name_in<'a>(image: &Held<'a>, head: &Head) -> &'a [u8]
    requires { IsHeadIn image.now head.now }
    ensures { result.now ≡ name_of image.now head.now.offset }
{
    name_of(image, head.offset, head.name_len)
}

/// The place of the data of a given header.
pub(crate) fn data_part(image: &Held<'_>, head: &Head) -> Part
    requires image { IsImage image.now }
    requires given { IsGiven image.now head.now }
    ensures { IsDataPart image.now head.now.offset result }
{
    said_part(image, head.offset, head.kind, head.name_len, head.size)
}

/// The place of the data of the header at an offset, from what it says about them.
pub(crate) fn said_part(image: &Held<'_>, offset: u32, kind: Kind, name_len: u32, size: u32) -> Part
    requires image { IsImage image.now }
    requires given { IsGiven image.now (head_of image.now offset) }
    requires kind { kind ≡ kind_in image.now offset }
    requires name { name_len ≡ length (name_of image.now offset) }
    requires size { size ≡ size_in image.now offset }
    ensures { IsDataPart image.now offset result }
{
    match kind {
        Kind::Regular | Kind::SymLink => {
            let start = offset as usize + HEAD_SIZE + padded(name_len as usize + 1);
            Part {
                start: start as u32,
                len: size,
            }
        }
        _ => Part { start: 0, len: 0 },
    }
}

/// The bytes of a part.
pub(crate) fn bytes_in(image: &[u8], part: Part) -> &[u8]
    requires { IsPart image.now part }
    ensures value { result.now ≡ bytes_at image.now part.start part.len }
    ensures short { 16 + length result.now < 2 ^ 32 }
{
    bytes_at(image, part.start, part.len)
}

/// The bytes of a part, if all bytes of the image are held.
#[inline(always)]
#[tactic(auto, unfolding(crate::specs::Readers::bytes_at))]
pub(crate) fn part_of<'a>(image: &Held<'a>, part: Part) -> Option<&'a [u8]>
    requires { IsPart image.now part }
    ensures { IfSome result (λ bytes. bytes.now ≡ bytes_at image.now part.start part.len) }
{
    slice_at(image, part.start as usize, part.len as usize)
}

/// The data of a header that is given.
pub(crate) fn data_in<'a>(image: &'a [u8], head: &Head) -> &'a [u8]
    requires image { IsImage image.now }
    requires given { IsGiven image.now head.now }
    ensures { result.now ≡ data_of_header image.now head.now.offset }
{
    bytes_in(image, data_part(&Held::whole(image), head))
}

/// Whether a directory other than the root names its own header as the first, which says that it
/// is empty.
fn leads_to_itself(root: u32, directory: &Head) -> bool
    ensures yes { IsTrue result → (cleared directory.now.spec ≡ directory.now.offset)
        × (cleared directory.now.spec ≢ root) }
    ensures no { IsFalse result → cleared directory.now.spec ≡ directory.now.offset →
        cleared directory.now.spec ≡ root }
{
    let first = cleared(directory.spec);
    first == directory.offset && first != root
}

/// Some bytes of an image.
#[tactic(auto, unfolding(crate::specs::Readers::bytes_at))]
fn bytes_at(image: &[u8], from: u32, len: u32) -> &[u8]
    requires { from + len ≤ length image.now }
    ensures { result.now ≡ bytes_at image.now from len }
{
    let rest = &image[from as usize..];
    &rest[..len as usize]
}
