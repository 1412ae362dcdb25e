//! A writer that takes a limited number of bytes.

use crate::calls::Calls;
use std::io::{self, Error, ErrorKind, Write};

/// A writer that takes this many bytes in all, and at most this many at once; then each write
/// fails, or takes none. This many of its flushes succeed, then one fails. It counts its writes and
/// flushes.
#[derive(Drop)]
pub struct Taker<'a> {
    pub taken: Vec<u8>,
    pub room: usize,
    pub most: usize,
    pub fails: bool,
    pub flushes: u64,
    pub calls: Calls<'a>,
}

impl Write for Taker<'_> {
    fn write(&mut self, buf: &[u8]) -> io::Result<usize> {
        self.calls.count();
        if self.fails && self.room == 0 {
            return Err(Error::from(ErrorKind::StorageFull));
        }
        let count = buf.len().min(self.room).min(self.most);
        self.taken.extend_from_slice(&buf[..count])?;
        self.room -= count;
        Ok(count)
    }

    fn flush(&mut self) -> io::Result<()> {
        self.calls.count();
        if self.flushes == 0 {
            self.flushes = u64::MAX;
            return Err(Error::from(ErrorKind::Other));
        }
        self.flushes -= 1;
        Ok(())
    }
}
