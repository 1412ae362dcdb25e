//! Reads of bytes that are held, and of a file that returns few bytes at a time, is interrupted,
//! ends or fails.

use devices::{Contents, InFile, InMemory, Unread, fill};
use std::cell::Cell;
use std::io::{self, Error, ErrorKind};
use std::os::unix::fs::FileExt;

/// The bytes of the files.
const BYTES: &[u8; 10] = b"0123456789";

/// A file that returns at most this many bytes per read, is interrupted this often, and fails from
/// a place on.
#[derive(Drop)]
struct Slow {
    most: usize,
    interruptions: Cell<u32>,
    fails_at: u64,
}

impl FileExt for Slow {
    fn read_at(&self, buf: &mut [u8], offset: u64) -> io::Result<usize> {
        let left = self.interruptions.get();
        if 0 < left {
            self.interruptions.set(left - 1);
            return Err(Error::from(ErrorKind::Interrupted));
        }
        if self.fails_at <= offset {
            return Err(Error::from(ErrorKind::Other));
        }
        let bytes = BYTES.as_slice();
        if bytes.len() as u64 <= offset {
            return Ok(0);
        }
        let rest = &bytes[offset as usize..];
        let count = rest.len().min(buf.len()).min(self.most);
        buf[..count].copy_from_slice(&rest[..count]);
        Ok(count)
    }

    fn write_at(&self, _buf: &[u8], _offset: u64) -> io::Result<usize> {
        Err(Error::from(ErrorKind::Unsupported))
    }
}

// A file of ten bytes.
fn file(most: usize, interruptions: u32, fails_at: u64) -> InFile<Slow> {
    let slow = Slow {
        most,
        interruptions: Cell::new(interruptions),
        fails_at,
    };
    InFile::new(slow, 10)
}

// The content of a room of four bytes, once it is filled from a place on.
fn four<S: Contents>(source: &S, offset: u32) -> Result<[u8; 4], Unread> {
    let mut room = [0; 4];
    fill(source, &mut room, u64::from(offset))?;
    Ok(room)
}

#[test]
fn short_reads_go_on(rt: HostRuntime) {
    let read = [four(&file(1, 0, 100), 3), four(&file(3, 5, 100), 6)];
    assert!(rt; read == [Ok(*b"3456"), Ok(*b"6789")]);
}

#[test]
fn an_end_and_a_failure_are_told(rt: HostRuntime) {
    let ended = [four(&file(3, 0, 100), 7), four(&file(3, 0, 100), 10)];
    let failed = [four(&file(1, 0, 5), 3), four(&file(4, 1024, 100), 0)];
    assert!(rt; ended == [Err(Unread); 2] && failed == [Err(Unread); 2]);
}

#[test]
fn a_file_keeps_its_size(rt: HostRuntime) {
    assert_eq!(rt; file(1, 0, 0).size(), 10);
}

#[test]
fn held_bytes_are_read(rt: HostRuntime) {
    let held = InMemory::new(BYTES.as_slice());
    let mut none = [0u8; 0];
    let read = [four(&held, 6), four(&held, 7)];
    let none_read = [
        held.read_at(&mut [0; 4], 1 << 40),
        held.read_at(&mut none, 3),
    ];
    assert!(rt; held.size() == 10 && read == [Ok(*b"6789"), Err(Unread)]);
    assert!(rt; none_read == [Ok(0); 2]);
}
