//! Each request for memory of the program is refused in turn.
//!
//! The run then ends with status 5 and its line, after a prefix of what it should write. Only the
//! request for a smaller block may be refused without a fault: the larger one is kept, and the run
//! ends as it should.

use super::program::{file_path, image_file};
use std::alloc::Global;
use std::cell::Cell;
use std::fs::{self, Files};
use std::io::{self, Error, ErrorKind, Read, Write};
use std::net::Net;
use std::os::unix::fs::FileExt;
use std::sync::atomic::{AtomicU64, Ordering};
use std::test::Fail;
use std::thread::Threads;
use strata::command;
use test_kit::memories::{Memories, refuse_in_turn};
use test_kit::messages::{REPLIES, REQUESTS};

/// What a run reads, and what it should write. If that is `None`, anything may be written, but
/// nothing if memory is refused.
#[derive(Clone, Copy)]
pub struct Talk<'a> {
    pub requests: &'a [u8],
    pub whole: Option<&'a [u8]>,
}

impl Talk<'_> {
    /// Whether these bytes should be written at this place.
    fn is_next(&self, at: u64, bytes: &[u8]) -> bool {
        match self.whole {
            Some(whole) => {
                let written = whole.len().min(at as usize);
                whole[written..].starts_with(bytes)
            }
            None => true,
        }
    }
}

/// The reader and the writer of a run, which may be those of an open `/dev/fuse`. A write of other
/// bytes than should follow fails.
#[derive(Drop)]
struct Ends<'a> {
    talk: Talk<'a>,
    read: AtomicU64,
    written: AtomicU64,
}

impl Read for &Ends<'_> {
    fn read(&mut self, buf: &mut [u8]) -> io::Result<usize> {
        let requests = self.talk.requests;
        let read = self.read.load(Ordering::SeqCst) as usize;
        let mut rest = &requests[requests.len().min(read)..];
        let count = rest.read(buf)?;
        self.read.fetch_add(count as u64, Ordering::SeqCst);
        Ok(count)
    }
}

impl Write for &Ends<'_> {
    fn write(&mut self, buf: &[u8]) -> io::Result<usize> {
        let at = self.written.fetch_add(buf.len() as u64, Ordering::SeqCst);
        if self.talk.is_next(at, buf) {
            Ok(buf.len())
        } else {
            Err(Error::from(ErrorKind::Other))
        }
    }

    fn flush(&mut self) -> io::Result<()> {
        Ok(())
    }
}

/// How a run ended.
#[derive(Clone, Copy)]
enum Ending {
    /// It did all that it should.
    Whole,
    /// It reported that memory was refused.
    Told,
    Wrong,
}

/// How a run of the program ends with these memories.
fn run_with<R: Files + Net + Threads + Sync>(
    rt: &R,
    memories: &Memories,
    words: &[&str],
    talk: Talk<'_>,
) -> Ending
where
    R::File: FileExt + Send + Sync,
    R::Dir: Send,
{
    let (global, alloc) = (memories.global, &memories.refusing);
    let ends = Ends {
        talk,
        read: AtomicU64::new(0),
        written: AtomicU64::new(0),
    };
    let mut faults = Vec::new(global);
    let status = command(rt, alloc, global, words, &ends, &ends, &mut faults).status;
    let written = ends.written.load(Ordering::SeqCst) as usize;
    judged(status, &faults, written, talk.whole)
}

/// The ending of a run with this status, these lines of faults, and this many bytes of output.
fn judged(status: u8, faults: &[u8], written: usize, whole: Option<&[u8]>) -> Ending {
    let may_begin = whole.is_some() || written == 0;
    if status == 5 && faults == b"out of memory\n".as_slice() && may_begin {
        return Ending::Told;
    }
    let is_whole = whole.is_none_or(|whole| whole.len() == written);
    if status == 0 && faults.is_empty() && is_whole {
        return Ending::Whole;
    }
    Ending::Wrong
}

/// How many requests for memory a run makes, each of which is refused once, and how many of these
/// are refused without a fault. Otherwise the number of the first whose refusal ends it wrongly.
pub fn refusals<R: Files + Net + Threads + Sync>(
    rt: &R,
    global: Global,
    words: &[&str],
    talk: Talk<'_>,
) -> Result<(u64, u64), u64>
where
    R::File: FileExt + Send + Sync,
    R::Dir: Send,
{
    let unharmed = Cell::new(0u64);
    let requests = refuse_in_turn(global, |memories| {
        let ending = run_with(rt, memories, words, talk);
        match (ending, memories.refusing.refused()) {
            (Ending::Whole, true) => {
                unharmed.set(unharmed.get().saturating_add(1));
                true
            }
            (Ending::Whole, false) => true,
            (Ending::Told, refused) => refused,
            (Ending::Wrong, _) => false,
        }
    })?;
    Ok((requests, unharmed.get()))
}

/// The refusals of the check and the list of an image over itself.
fn refusals_of_lines<R: Files + Net + Threads + Sync>(
    rt: &R,
    global: Global,
    path: &str,
) -> [Result<(u64, u64), u64>; 2]
where
    R::File: FileExt + Send + Sync,
    R::Dir: Send,
{
    let sizes = Talk {
        requests: &[],
        whole: Some(b"layer 0: 96 bytes\nlayer 1: 96 bytes\n"),
    };
    let paths = Talk {
        requests: &[],
        whole: Some(b"1 040755 2 0 1 /\n"),
    };
    [
        refusals(rt, global, &["check", path, path], sizes),
        refusals(rt, global, &["list", path, path], paths),
    ]
}

#[test]
fn refused_memory_is_told_of_lines(rt: HostRuntime) -> Result<(), Fail> {
    let image = image_file(&rt, "lines")?;
    let refusals = refusals_of_lines(&rt, rt.alloc(), image.as_str());
    fs::remove_file(&rt, image.as_str())?;
    drop(image);
    assert!(rt;
        matches!(refusals, [Ok((6.., 0)), Ok((6.., 0))]),
        "{refusals:?}"
    );
    Ok(())
}

#[test]
fn refused_memory_is_told_of_the_version(rt: HostRuntime) -> Result<(), Fail> {
    let talk = Talk {
        requests: &[],
        whole: None,
    };
    let refusals = refusals(&rt, rt.alloc(), &["--version"], talk);
    assert!(rt; matches!(refusals, Ok((1.., 0))), "{refusals:?}");
    Ok(())
}

/// Whether a file has these bytes.
fn is_in_file(rt: &HostRuntime, path: &str, bytes: &[u8]) -> bool {
    fs::read(rt, path).is_ok_and(|read| read.as_slice() == bytes)
}

/// The refusals of a stream that is served over an image.
fn refusals_of_a_stream<R: Files + Net + Threads + Sync>(
    rt: &R,
    global: Global,
    image: &str,
    balances: &str,
) -> Result<(u64, u64), u64>
where
    R::File: FileExt + Send + Sync,
    R::Dir: Send,
{
    let words = ["serve", "--balances", balances, image];
    let talk = Talk {
        requests: &REQUESTS,
        whole: Some(&REPLIES),
    };
    refusals(rt, global, &words, talk)
}

#[test]
fn refused_memory_is_told_of_a_stream(rt: HostRuntime) -> Result<(), Fail> {
    let image = image_file(&rt, "stream")?;
    let balances = file_path(&rt, "stream", "balances")?;
    let refusals = refusals_of_a_stream(&rt, rt.alloc(), image.as_str(), balances.as_str());
    let is_written = is_in_file(&rt, balances.as_str(), b"1 0\n");
    fs::remove_file(&rt, balances.as_str())?;
    drop(balances);
    fs::remove_file(&rt, image.as_str())?;
    drop(image);
    assert!(rt;
        matches!(refusals, Ok((11.., 0))) && is_written,
        "{refusals:?}"
    );
    Ok(())
}
