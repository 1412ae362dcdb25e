//! The images of a line, checked and stacked.

ghost use Rattle.std.specs.Prelude.{IfOk, IfErr};
ghost use Rattle.reply_model.specs.Readings.{sourced};
ghost use Rattle.strata_images.specs.Images.{AreNotStacked, ArePrepared, HaveSources, are_whole, bytes_of, profile_of, sources_of};

use crate::faults::ImagesFault;
use crate::images::LineImages;
use crate::profile::profile_of;
use romfs_files::ImageData;
use stack_prepare::{FreePass, Table};
use std::alloc::Allocator;
use std::os::unix::fs::FileExt;
use std::thread::Threads;
use strata_words::Line;

/// The table of the images of a line, checked by its rules, and the sources of the data of its
/// layers that it does not hold.
pub fn prepare<R: Threads + Sync, F: FileExt + Drop, A: Allocator + Copy + Send + Sync>(
    rt: &R,
    alloc: A,
    line: &Line<'_>,
    images: LineImages<F, A>,
) -> Result<(Table<A>, Vec<ImageData<F, A>, A>), ImagesFault>
    requires { HaveSources line.now (are_whole images.held) (bytes_of images.held)
        (sources_of images.files) }
    ensures ok { IfOk result (λ ready. ArePrepared line.now (bytes_of images.held)
        (sourced ready.0 (sources_of ready.1))) }
    ensures err { IfErr result (AreNotStacked (profile_of line.now) (bytes_of images.held)) }
{
    let LineImages { held, files } = images;
    let profile = profile_of(line);
    let table = stack_prepare::prepare(rt, alloc, held, profile, line.owner, &FreePass)?;
    Ok((table, files))
}
