//! Runs of the program, and files of a test's own.

use devices::{Spout, Tap};
use std::alloc::{Allocator, Global};
use std::fs::Files;
use std::io::{Read, Write};
use std::net::Net;
use std::os::unix::fs::FileExt;
use std::test::Fail;
use std::thread::Threads;
use std::{env, fs, process};
use strata::Host;
use test_kit::sample_images::empty;

/// The status of the program over these streams, in memory of `alloc`; none if standard error has
/// anything but this line, or anything at all if the status is 0, or if the arguments are no line
/// of streams.
pub fn status_of<
    R: Files + Net + Threads + Sync,
    A: Allocator + Copy + Send + Sync,
    I: Read + Drop,
    O: Write + Drop,
>(rt: &R, global: Global, alloc: A, words: &[&str], input: I, output: O, line: &[u8]) -> Option<u8>
where
    R::File: FileExt + Send + Sync,
    R::Dir: Send,
{
    let Ok(read) = strata::line(global, words) else {
        return None;
    };
    if read.device {
        return None;
    }
    let (mut input, mut output) = (Tap::new(input), Spout::new(output));
    let mut faults = Vec::new(global);
    let host = Host { rt, alloc };
    let status = host.command_on_streams(&read, &mut input, &mut output, &mut faults);
    let told: &[u8] = if status == 0 { &[] } else { line };
    (faults.as_slice() == told).then_some(status)
}

/// The path of a file that only this test uses.
pub fn file_path(rt: &HostRuntime, test: &str, ending: &str) -> Result<String, Fail> {
    let temporary = env::temp_dir(rt)?;
    let process = process::id(rt.process());
    let parent = temporary.as_str();
    Ok(format!(in rt.alloc(); "{parent}/strata-{test}-{process}.{ending}")?)
}

/// Writes an image into a file, and returns its path.
pub fn written(rt: &HostRuntime, test: &str, image: &[u8]) -> Result<String, Fail> {
    let path = file_path(rt, test, "img")?;
    fs::write(rt, path.as_str(), image)?;
    Ok(path)
}

/// Writes the empty image into a file, and returns its path.
pub fn image_file(rt: &HostRuntime, test: &str) -> Result<String, Fail> {
    written(rt, test, &empty(rt.alloc())?)
}
