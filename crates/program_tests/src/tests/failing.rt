//! Readers and writers that fail.

use super::program::{image_file, status_of};
use std::alloc::Global;
use std::fs::{self, Files};
use std::io::{self, Error, ErrorKind, Read, Write};
use std::net::Net;
use std::os::unix::fs::FileExt;
use std::test::Fail;
use std::thread::Threads;
use test_kit::messages::{REPLIES, REQUESTS};

/// A reader that returns its bytes, then fails once, and is then at its end.
#[derive(Drop)]
struct Broken<'a> {
    bytes: &'a [u8],
    has_failed: bool,
}

impl Read for Broken<'_> {
    fn read(&mut self, buf: &mut [u8]) -> io::Result<usize> {
        let count = self.bytes.read(buf)?;
        if count == 0 && !self.has_failed {
            self.has_failed = true;
            return Err(Error::from(ErrorKind::Interrupted));
        }
        Ok(count)
    }
}

/// A writer that has room for this many bytes, and may fail to flush them. It fails once, and then
/// takes everything.
#[derive(Drop)]
struct Full {
    room: usize,
    flushes: bool,
}

impl Write for Full {
    fn write(&mut self, buf: &[u8]) -> io::Result<usize> {
        if self.room == 0 {
            self.room = usize::MAX;
            return Err(Error::from(ErrorKind::StorageFull));
        }
        let count = buf.len().min(self.room);
        self.room -= count;
        Ok(count)
    }

    fn flush(&mut self) -> io::Result<()> {
        if self.flushes {
            return Ok(());
        }
        self.flushes = true;
        Err(Error::from(ErrorKind::Other))
    }
}

#[test]
fn writers_that_fail_are_told(rt: HostRuntime) -> Result<(), Fail> {
    let image = image_file(&rt, "writers")?;
    let path = image.as_str();
    let (global, line) = (rt.alloc(), b"write fault\n");
    let told = [(10, true), (1000, false)].map(|(room, flushes)| {
        [["check", path], ["list", path], ["serve", path]].map(|words| {
            let full = Full { room, flushes };
            status_of(&rt, global, global, &words, REQUESTS.as_slice(), full, line)
        })
    });
    fs::remove_file(&rt, path)?;
    drop(image);
    assert_eq!(rt; told, [[Some(1); 3]; 2]);
    Ok(())
}

/// The status of the program over requests after which a read fails, and whether it writes the
/// replies.
fn end_of_broken<R: Files + Net + Threads + Sync>(
    rt: &R,
    global: Global,
    words: &[&str],
) -> (Option<u8>, bool)
where
    R::File: FileExt + Send + Sync,
    R::Dir: Send,
{
    let broken = Broken {
        bytes: &REQUESTS,
        has_failed: false,
    };
    let line = b"read fault\n";
    let mut output = Vec::new(global);
    let status = status_of(rt, global, global, words, broken, &mut output, line);
    (status, output.as_slice() == REPLIES.as_slice())
}

#[test]
fn a_reader_that_fails_is_told(rt: HostRuntime) -> Result<(), Fail> {
    let image = image_file(&rt, "reader")?;
    let end = end_of_broken(&rt, rt.alloc(), &["serve", image.as_str()]);
    fs::remove_file(&rt, image.as_str())?;
    drop(image);
    assert!(rt; end == (Some(1), true));
    Ok(())
}
