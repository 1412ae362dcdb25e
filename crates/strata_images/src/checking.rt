//! The command `check`.

ghost use Rattle.std.specs.Prelude.{◌≡◌, ◌<◌, ◌^◌, length, string_bytes, OnOk, IfOk, IfErr};
ghost use Rattle.devices.specs.Pushing.{GainsFront};
ghost use Rattle.romfs_format.specs.Fields.{image};
ghost use Rattle.romfs_format.specs.Rules.{IsSound};
ghost use Rattle.romfs_files.specs.Opening.{loaded_bytes, loaded_contents};
ghost use Rattle.strata_images.specs.Checking.{AreAccepted, AreGood, AreNotAccepted, AreNotGood, AreSizes, IsFirstFault, IsImageFault};
ghost use Rattle.strata_images.specs.Texts.{size_lines, unread_lines};

use crate::faults::ImagesFault;
use crate::lines::{put_lines, write_bytes};
use crate::profile::profile_of;
use crate::trailers::unread_lines;
use devices::Sink;
use romfs_files::LoadedImage;
use romfs_image::{CheckFault, Profile, check_held};
use stack_model::limits::MAX_LAYERS;
use std::alloc::{AllocError, Allocator};
use std::fmt::Write;
use std::io;
use std::os::unix::fs::FileExt;
use strata_words::Line;

/// Checks the images of a line in order, by what is held of them, and writes a line for each if all
/// are good; with `--as-mounted` there may be at most 128. Then it notes those with a trailer that
/// the line does not ask for. Otherwise nothing is written.
pub fn check<F: FileExt + Drop, A: Allocator + Copy, K: Sink, E: io::Write>(
    alloc: A,
    line: &Line<'_>,
    images: Vec<LoadedImage<F, A>, A>,
    output: &mut K,
    notes: &mut E,
) -> Result<(), ImagesFault>
    requires { (K.state output.old).counts.failures < 2 ^ 63 }
    ensures done { OnOk result (AreGood line.now (loaded_contents images)
        (K.state output.old) (K.state output.new)) }
    ensures stopped { IfErr result (λ fault. AreNotGood line.now (loaded_contents images) fault
        (K.state output.old) (K.state output.new)) }
    ensures noted { OnOk result (GainsFront (unread_lines line.now (loaded_contents images))
        (E.contents notes.old) (E.contents notes.new)) }
    ensures unnoted { IfErr result (λ _. E.contents notes.new ≡ E.contents notes.old) }
{
    let unread = unread_lines(alloc, line, images.as_slice())?;
    put_sizes(alloc, line, images, output)?;
    let _ = write_bytes(notes, unread.as_bytes());
    Ok(())
}

// Checks the images of a line, and writes a line for each if all are good.
fn put_sizes<F: FileExt + Drop, A: Allocator + Copy, K: Sink>(
    alloc: A,
    line: &Line<'_>,
    images: Vec<LoadedImage<F, A>, A>,
    output: &mut K,
) -> Result<(), ImagesFault>
    requires { (K.state output.old).counts.failures < 2 ^ 63 }
    ensures done { OnOk result (AreGood line.now (loaded_contents images)
        (K.state output.old) (K.state output.new)) }
    ensures stopped { IfErr result (λ fault. AreNotGood line.now (loaded_contents images) fault
        (K.state output.old) (K.state output.new)) }
{
    let sizes = accepted_sizes(alloc, line, images)?;
    let lines = lines_of(alloc, sizes.as_slice())?;
    Ok(put_lines(output, lines.as_bytes())?)
}

// A line for each of these sizes in bytes, with the number of its image.
fn lines_of<A: Allocator>(alloc: A, sizes: &[u32]) -> Result<String<A>, AllocError>
    ensures { IfOk result (λ lines. string_bytes lines ≡ size_lines 0 sizes.now) }
{
    let mut lines = String::new(alloc);
    for (layer, size) in sizes.iter().enumerate() {
        writeln!(lines, "layer {layer}: {size} bytes")?;
    }
    Ok(lines)
}

// How many bytes of each image of a line are accessible, if all are good, and at most 128 if the
// line accepts what a mount does.
fn accepted_sizes<F: FileExt + Drop, A: Allocator + Copy>(
    alloc: A,
    line: &Line<'_>,
    images: Vec<LoadedImage<F, A>, A>,
) -> Result<Vec<u32, A>, ImagesFault>
    ensures ok { IfOk result (λ sizes.
        AreAccepted line.now (loaded_contents images) sizes.items) }
    ensures err { IfErr result (AreNotAccepted line.now (loaded_contents images)) }
{
    let count = images.len();
    if line.as_mounted && MAX_LAYERS < count {
        let count = count as u64;
        return Err(ImagesFault::Layers { count });
    }
    checked_sizes(alloc, images, profile_of(line))
}

// How many bytes of each image are accessible, if all are good. Otherwise the fault of the first
// that is not.
fn checked_sizes<F: FileExt + Drop, A: Allocator + Copy>(
    alloc: A,
    images: Vec<LoadedImage<F, A>, A>,
    profile: Profile,
) -> Result<Vec<u32, A>, ImagesFault>
    ensures ok { IfOk result (λ sizes. AreSizes profile (loaded_contents images) sizes.items) }
    ensures err { IfErr result (λ fault. IsFirstFault profile (loaded_contents images) fault) }
{
    let mut sizes = Vec::with_capacity(alloc, images.len())?;
    for loaded in images {
        let image = sizes.len() as u64;
        sizes.push(checked_size(alloc, image, loaded, profile)?)?;
    }
    Ok(sizes)
}

// How many bytes of the image with this number are accessible.
fn checked_size<F: FileExt + Drop, A: Allocator + Copy>(
    alloc: A,
    number: u64,
    loaded: LoadedImage<F, A>,
    profile: Profile,
) -> Result<u32, ImagesFault>
    ensures ok { IfOk result (λ full. (full ≡ length (image (loaded_bytes loaded)))
        × IsSound profile (loaded_bytes loaded)) }
    ensures err { IfErr result (λ fault. IsImageFault profile number (loaded_bytes loaded) fault) }
{
    match check_held(alloc, loaded.held, profile) {
        Ok((image, _rows, _lists)) => Ok(image.full()),
        Err(CheckFault::Broken(fault)) => Err(ImagesFault::Broken {
            image: number,
            fault,
        }),
        Err(CheckFault::Memory) => Err(ImagesFault::Memory),
    }
}
