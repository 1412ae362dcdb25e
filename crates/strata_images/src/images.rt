//! The images of a line, as they are read: in full, or only what the rules check.

ghost use Rattle.std.specs.Prelude.{◌≡◌, ◌↔◌, ℕ, List, Option, length, vec_len, IfOk, IfErr, IsTrue};
ghost use Rattle.strata_words.specs.CommandLine.{IsInLimits};
ghost use Rattle.strata_images.specs.Faults.{AreUnread};
ghost use Rattle.strata_images.specs.Images.{AreApart, AreHeldFor, AreReadFor, AreReadWhole, AreSmall, IsLoadingOf, HaveSources, added, are_whole, bytes_of, sources_of, trailers_of};

use crate::faults::ImagesFault;
use crate::profile::asks_attributes;
use romfs_files::{ImageData, LoadedImage, Loading, Trailers, load};
use romfs_held::HeldImage;
use std::alloc::{AllocError, Allocator};
use std::fs;
use std::fs::Files;
use std::os::unix::fs::FileExt;
use std::thread::Threads;
use strata_words::{Line, Verb};

/// The most bytes, in all, of images that are read in full if no mount is served: reading this many
/// takes less time than gathering what the rules check.
const SMALL_STACK: u64 = 32 << 20;

/// The images of a line, the lowest layer first: what is held of them, and where the data of each
/// are read from, if they are not held in full.
#[derive(Drop)]
pub struct LineImages<F: FileExt, A: Allocator> {
    pub held: Vec<HeldImage<A>, A>,
    pub files: Vec<ImageData<F, A>, A>,
}

impl<F: FileExt + Drop, A: Allocator + Copy> LineImages<F, A> {
    /// These loaded images, in their order. `AllocError` only if memory was refused.
    pub(crate) fn of(
        alloc: A,
        images: Vec<LoadedImage<F, A>, A>,
    ) -> Result<LineImages<F, A>, AllocError>
        ensures { IfOk result (λ line. AreApart images.items line.held.items line.files.items) }
    {
        let mut held = Vec::with_capacity(alloc, images.len())?;
        let mut files = Vec::with_capacity(alloc, images.len())?;
        for image in images {
            held.push(image.held)?;
            add(&mut files, image.source)?;
        }
        Ok(LineImages { held, files })
    }
}

// Adds the value, if there is one.
fn add<T: Drop, A: Allocator>(list: &mut Vec<T, A>, value: Option<T>) -> Result<(), AllocError>
    ensures { IfOk result (λ _. list.new.items ≡ added list.old.items value) }
{
    if let Some(value) = value {
        list.push(value)?;
    }
    Ok(())
}

/// The images of a line that serves. They are read in full with `--whole`, or if they are
/// regular files of at most [`SMALL_STACK`] bytes together and the line neither has `--in-files`
/// nor serves a device; otherwise they stay in their files. An image for which the line has a
/// digest is read under it.
pub fn open_all<R: Files + Threads + Sync, A: Allocator + Copy + Send + Sync>(
    rt: &R,
    alloc: A,
    line: &Line<'_>,
) -> Result<LineImages<R::File, A>, ImagesFault>
where
    R::File: FileExt + Send,
    R::Dir: Send,
    requires { IsInLimits line.now }
    ensures read { IfOk result (λ images. AreReadFor line.now (bytes_of images.held)) }
    ensures sources { IfOk result (λ images.
        HaveSources line.now (are_whole images.held) (bytes_of images.held)
        (sources_of images.files)) }
    ensures err { IfErr result (AreUnread line.now) }
{
    let loading = loading_of(rt, line, Loading::Open(trailers_of(line)));
    let paths = line.images.as_slice();
    let images = load(rt, alloc, paths, line.digests.as_slice(), loading)?;
    Ok(LineImages::of(alloc, images)?)
}

/// What is held of the images of a line that checks or lists, none of which stays open. They are
/// read in full under the same conditions as those of a line that serves; otherwise it is what the
/// rules check.
pub fn gather_all<R: Files + Threads + Sync, A: Allocator + Copy + Send + Sync>(
    rt: &R,
    alloc: A,
    line: &Line<'_>,
) -> Result<Vec<LoadedImage<R::File, A>, A>, ImagesFault>
where
    R::File: FileExt + Send,
    R::Dir: Send,
    requires { IsInLimits line.now }
    ensures ok { IfOk result (λ images. vec_len images ≡ vec_len line.now.images) }
    ensures held { IfOk result (λ images.
        AreHeldFor line.now R.File.remaining images.items) }
    ensures err { IfErr result (AreUnread line.now) }
{
    let loading = loading_of(rt, line, Loading::Gather(trailers_of(line)));
    let paths = line.images.as_slice();
    Ok(load(rt, alloc, paths, line.digests.as_slice(), loading)?)
}

// How the images of a line are loaded: all bytes if they are read in full, otherwise as given.
fn loading_of<R: Files>(rt: &R, line: &Line<'_>, otherwise: Loading) -> Loading
    ensures { IsLoadingOf line.now otherwise result }
{
    if are_read_whole(rt, line) {
        return Loading::Whole;
    }
    otherwise
}

// Whether the images of a line are read in full: with `--whole`; or if they are small together, and
// need not stay in their files.
fn are_read_whole<R: Files>(rt: &R, line: &Line<'_>) -> bool
    ensures { (told : List (Option ℕ)) × (length told ≡ vec_len line.now.images)
        × (IsTrue result ↔ AreReadWhole line.now told) }
{
    if line.whole {
        return true;
    }
    if line.in_files || line.device {
        return false;
    }
    are_small(rt, line.images.as_slice())
}

// Whether these are regular files of at most [`SMALL_STACK`] bytes together. Files after the first
// that is not regular, or too large, are not examined.
fn are_small<R: Files>(rt: &R, paths: &[&str]) -> bool
    ensures { (told : List (Option ℕ)) × (length told ≡ length paths.now)
        × (IsTrue result ↔ AreSmall told) }
{
    let mut rest = SMALL_STACK;
    for path in paths {
        let Some(len) = regular_len(rt, path) else {
            return false;
        };
        if rest < len {
            return false;
        }
        rest -= len;
    }
    true
}

// How many bytes a regular file has.
fn regular_len<R: Files>(rt: &R, path: &str) -> Option<u64> {
    let metadata = fs::metadata(rt, path).ok()?;
    if metadata.is_file() {
        Some(metadata.len())
    } else {
        None
    }
}

// Whether the trailers of a line's images are read: if it asks for attributes, or reports which
// images have a trailer.
fn trailers_of(line: &Line<'_>) -> Trailers
    ensures { result ≡ trailers_of line.now }
{
    let reports = matches!(line.verb, Verb::Check | Verb::List);
    if asks_attributes(line) || reports {
        Trailers::Read
    } else {
        Trailers::Left
    }
}
