//! Images whose trailers a line does not ask for.

ghost use Rattle.std.specs.Prelude.{◌≡◌, ◌++◌, map, string_bytes, IfOk, OnOk};
ghost use Rattle.romfs_files.specs.Opening.{loaded_bytes};
ghost use Rattle.strata_images.specs.Texts.{shows_trailer, trailer_line, trailer_lines, unread_lines};

use crate::profile::asks_attributes;
use romfs_files::LoadedImage;
use romfs_format::limits::HEAD_SIZE;
use romfs_format::read::padded;
use romfs_held::Held;
use romfs_held::read::{stand_at, word};
use std::alloc::{AllocError, Allocator};
use std::fmt::Write;
use std::os::unix::fs::FileExt;
use strata_words::Line;

/// A line for each image with a trailer, if the line does not ask for attributes.
pub fn unread_lines<F: FileExt, A: Allocator>(
    alloc: A,
    line: &Line<'_>,
    images: &[LoadedImage<F, A>],
) -> Result<String<A>, AllocError>
    ensures { IfOk result (λ lines.
        string_bytes lines ≡ unread_lines line.now (map loaded_bytes images.now)) }
{
    if asks_attributes(line) {
        return Ok(String::new(alloc));
    }
    trailer_lines(alloc, images)
}

// A line for each image with a trailer.
fn trailer_lines<F: FileExt, A: Allocator>(
    alloc: A,
    images: &[LoadedImage<F, A>],
) -> Result<String<A>, AllocError>
    ensures { IfOk result (λ lines.
        string_bytes lines ≡ trailer_lines (map loaded_bytes images.now)) }
{
    let mut lines = String::new(alloc);
    for (layer, image) in images.iter().enumerate() {
        put_trailer_line(&mut lines, layer, &image.held.held())?;
    }
    Ok(lines)
}

// Adds the line of an image, if it has a trailer.
fn put_trailer_line<A: Allocator>(
    lines: &mut String<A>,
    layer: usize,
    image: &Held<'_>,
) -> Result<(), AllocError>
    ensures { OnOk result (string_bytes lines.new
        ≡ string_bytes lines.old ++ trailer_line layer image.now) }
{
    if !shows_trailer(image) {
        return Ok(());
    }
    writeln!(lines, "layer {layer}: attributes not read")?;
    Ok(())
}

// Whether an image has a trailer. Bytes without room for a volume header are no image.
#[tactic(auto, unfolding(romfs_format::specs::Trailer::trailer))]
fn shows_trailer(image: &Held<'_>) -> bool
    ensures { result ≡ shows_trailer image.now }
{
    if image.len() < HEAD_SIZE {
        return false;
    }
    let Ok(place) = u32::try_from(padded(word(image, 8) as usize)) else {
        return false;
    };
    place as usize <= image.len() && stand_at(image, place as usize, b"-attr01-")
}
