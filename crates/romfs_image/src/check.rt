//! Whether bytes are an image.

ghost use Rattle.std.specs.Prelude.{◌≡◌, true, IfOk, IfErr};
ghost use Rattle.romfs_format.specs.Rules.{IsSound};
ghost use Rattle.romfs_format.specs.Trailer.{lists_shown, rows_shown};
ghost use Rattle.romfs_held.specs.Images.{held_bytes, is_whole};
ghost use Rattle.romfs_image.specs.Checks.{IsChecked, IsCheckedWithRows};
ghost use Rattle.romfs_image.specs.Refusals.{IsRefusal};

use crate::refusal::CheckFault;
use romfs_format::Profile;
use romfs_held::{Held, HeldImage};
use romfs_reader::Image;
use romfs_rows::{RowLists, Rows};
use romfs_rules::first_fault;
use std::alloc::{AllocError, Allocator};

/// What bytes can be checked to be.
pub trait Check: Sized {
    /// The allocator.
    type Memory;

    /// The bytes.
    type Bytes;

    /// Checks bytes by the usual profile.
    fn check(alloc: Self::Memory, bytes: Self::Bytes) -> Result<Self, CheckFault>;

    /// Checks bytes by the rules of a profile.
    fn check_as(
        alloc: Self::Memory,
        bytes: Self::Bytes,
        profile: Profile,
    ) -> Result<Self, CheckFault>;
}

impl<A: Allocator + Copy> Check for Image<A> {
    type Memory = A;

    type Bytes = Vec<u8, A>;

    /// Checks that bytes are an image by the usual profile, and keeps the accessible ones: as many
    /// as the full size says (romfs.rst, the volume header). Bytes after them are not looked at.
    ///
    /// `Broken` names the image's fault: the first broken rule of the volume header; otherwise, of
    /// all broken rules of file headers, the one at the least place, and the first there; otherwise
    /// a path that is too deep. `Memory` only if memory was refused.
    ///
    /// It takes n log n steps in headers, for any image: chains may merge, loop and lead anywhere.
    /// Beside the image it takes at most a byte for each 40 of its bytes and 96 for each header
    /// that is reached, and keeps none of it.
    fn check(alloc: A, bytes: Vec<u8, A>) -> Result<Image<A>, CheckFault>
        ensures ok { IfOk result (λ image. IsChecked Profile.Usual bytes.items image.bytes) }
        ensures whole { IfOk result (λ image. image.whole ≡ true) }
        ensures err { IfErr result (IsRefusal Profile.Usual bytes.items) }
    {
        Image::check_as(alloc, bytes, Profile::Usual)
    }

    /// Checks that bytes are an image as `check` does, by the rules of a profile: a strict one also
    /// requires that the words of each header, its name and the padding sum to 0 (romfs.rst,
    /// "checksum"), which costs one more pass over headers and names; one with attributes also
    /// requires that the attribute trailer after the full size, if there is one, is not broken.
    #[tactic(auto, using(romfs_format::proofs::Faults::profile_sound))]
    fn check_as(alloc: A, bytes: Vec<u8, A>, profile: Profile) -> Result<Image<A>, CheckFault>
        ensures ok { IfOk result (λ image. IsChecked profile bytes.items image.bytes) }
        ensures whole { IfOk result (λ image. image.whole ≡ true) }
        ensures err { IfErr result (IsRefusal profile bytes.items) }
    {
        let whole = HeldImage::Whole(bytes);
        hold(alloc, &whole.held(), profile)?;
        Ok(Image::of_sound(whole))
    }
}

/// Checks that what is held of an image keeps the rules of a profile. Returns what is held of its
/// accessible bytes, with the rows of its attribute trailer and the list of extended attributes of
/// each; there are none without a trailer, or under a profile without attributes. A row takes 28
/// bytes, and 4 more if the trailer has lists, which are kept once. If the image stays in its file,
/// nothing else is looked at, and nothing is said about a trailer that was not kept.
///
/// `Broken` names the fault as [`Check::check_as`] does; for what was gathered from known bytes, it
/// is the fault of these ([`laws`](crate::laws)). `Memory` only if memory was refused. It takes the
/// steps and the memory of that check.
#[tactic(auto, using(romfs_format::proofs::Faults::profile_sound))]
pub fn check_held<A: Allocator + Copy>(
    alloc: A,
    held: HeldImage<A>,
    profile: Profile,
) -> Result<(Image<A>, Rows<A>, RowLists<A>), CheckFault>
    ensures ok { IfOk result (λ all.
        IsCheckedWithRows profile (held_bytes held) all.0.bytes all.1 all.2) }
    ensures whole { IfOk result (λ all. all.0.whole ≡ is_whole held) }
    ensures err { IfErr result (IsRefusal profile (held_bytes held)) }
{
    hold(alloc, &held.held(), profile)?;
    let rows = rows_of(alloc, &held.held(), profile)?;
    let lists = lists_of(alloc, &held.held(), profile)?;
    Ok((Image::of_sound(held), rows, lists))
}

/// Checks an image by the rules of a profile.
fn hold<A: Allocator + Copy>(alloc: A, image: &Held<'_>, profile: Profile) -> Result<(), CheckFault>
    ensures ok { IfOk result (λ _. IsSound profile image.now) }
    ensures err { IfErr result (IsRefusal profile image.now) }
{
    match first_fault(alloc, image, profile)? {
        Some(fault) => Err(CheckFault::Broken(fault)),
        None => Ok(()),
    }
}

/// The rows of a sound image that its profile shows.
fn rows_of<A: Allocator>(
    alloc: A,
    image: &Held<'_>,
    profile: Profile,
) -> Result<Rows<A>, AllocError>
    requires { IsSound profile image.now }
    ensures { IfOk result (λ rows. rows ≡ rows_shown profile image.now) }
{
    if profile.reads_attributes() {
        Rows::of(alloc, image)
    } else {
        Ok(Rows::none(alloc))
    }
}

/// Their extended attributes.
fn lists_of<A: Allocator + Copy>(
    alloc: A,
    image: &Held<'_>,
    profile: Profile,
) -> Result<RowLists<A>, AllocError>
    requires { IsSound profile image.now }
    ensures { IfOk result (λ lists. lists ≡ lists_shown profile image.now) }
{
    if profile.reads_attributes() {
        RowLists::of(alloc, image)
    } else {
        Ok(RowLists::none(alloc))
    }
}
