//! The command `list`.

ghost use Rattle.std.specs.Prelude.{◌≡◌, ◌<◌, ◌^◌, ℕ, List, OnOk, IfErr};
ghost use Rattle.devices.specs.Pushing.{GainsFront};
ghost use Rattle.stack_model.specs.declared.owner.TheConstants.Owner.{ROOT};
ghost use Rattle.romfs_files.specs.Opening.{loaded_contents};
ghost use Rattle.romfs_format.specs.declared.rule.Profile.{Profile};
ghost use Rattle.node_list.specs.Faults.{Lists};
ghost use Rattle.stack_prepare.specs.Preparing.{AreStacked};
ghost use Rattle.strata_images.specs.Images.{bytes_of, profile_of};
ghost use Rattle.strata_images.specs.Listing.{IsStackListed, IsNotListed};
ghost use Rattle.strata_images.specs.Texts.{unread_lines};

use crate::faults::ImagesFault;
use crate::images::LineImages;
use crate::lines::write_bytes;
use crate::profile::profile_of;
use crate::trailers::unread_lines;
use devices::Sink;
use node_list::write_list;
use romfs_files::LoadedImage;
use stack_prepare::{FreePass, HeldImage, Owner, Table, prepare};
use std::alloc::Allocator;
use std::fs::Files;
use std::io::Write;
use std::os::unix::fs::FileExt;
use std::thread::Threads;
use strata_words::Line;

/// Checks the images of a line, stacks them, and writes a line for each visible path. Then it notes
/// the images with a trailer that the line does not ask for. If an image is broken nothing is
/// written.
pub fn list<R: Files + Threads + Sync, A: Allocator + Copy + Send + Sync, K: Sink, E: Write>(
    rt: &R,
    alloc: A,
    line: &Line<'_>,
    images: Vec<LoadedImage<R::File, A>, A>,
    output: &mut K,
    notes: &mut E,
) -> Result<(), ImagesFault>
where
    R::File: FileExt,
    requires { (K.state output.old).counts.failures < 2 ^ 63 }
    ensures done { OnOk result (IsStackListed (profile_of line.now) (loaded_contents images)
        (K.state output.old) (K.state output.new)) }
    ensures stopped { IfErr result (λ fault.
        IsNotListed (profile_of line.now) (loaded_contents images) fault
        (K.state output.old) (K.state output.new)) }
    ensures noted { OnOk result (GainsFront (unread_lines line.now (loaded_contents images))
        (E.contents notes.old) (E.contents notes.new)) }
    ensures unnoted { IfErr result (λ _. E.contents notes.new ≡ E.contents notes.old) }
{
    let unread = unread_lines(alloc, line, images.as_slice())?;
    let LineImages { held, files: _ } = LineImages::of(alloc, images)?;
    list_held(rt, alloc, line, held, output)?;
    let _ = write_bytes(notes, unread.as_bytes());
    Ok(())
}

// Checks images and stacks them, by what is held of them, and writes a line for each visible path.
fn list_held<R: Threads + Sync, A: Allocator + Copy + Send + Sync, K: Sink>(
    rt: &R,
    alloc: A,
    line: &Line<'_>,
    images: Vec<HeldImage<A>, A>,
    output: &mut K,
) -> Result<(), ImagesFault>
    requires { (K.state output.old).counts.failures < 2 ^ 63 }
    ensures done { OnOk result (IsStackListed (profile_of line.now) (bytes_of images)
        (K.state output.old) (K.state output.new)) }
    ensures stopped { IfErr result (λ fault.
        IsNotListed (profile_of line.now) (bytes_of images) fault
        (K.state output.old) (K.state output.new)) }
{
    let profile = profile_of(line);
    let table = prepare(rt, alloc, images, profile, Owner::ROOT, &FreePass)?;
    put_list(alloc, &table, output)
}

// Writes a line for each path that a stack shows.
fn put_list<A: Allocator + Copy, K: Sink>(
    alloc: A,
    table: &Table<A>,
    output: &mut K,
) -> Result<(), ImagesFault>
    requires { (K.state output.old).counts.failures < 2 ^ 63 }
    ensures done { OnOk result (Lists table.now (K.state output.old) (K.state output.new)) }
    ensures stopped { (profile : Profile) (images : List (List ℕ)) →
        AreStacked profile ROOT images table.now → IfErr result (λ fault.
        IsNotListed profile images fault (K.state output.old) (K.state output.new)) }
{
    write_list(alloc, table, output)?;
    Ok(())
}
