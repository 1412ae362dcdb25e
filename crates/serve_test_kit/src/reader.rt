//! A reader that returns its bytes in pieces.

use crate::calls::Calls;
use std::io::{self, Error, ErrorKind, Read};

/// A reader that returns its bytes in pieces of at most this many, and then ends or fails.
#[derive(Drop)]
pub struct Pieces<'a> {
    pub rest: &'a [u8],
    pub piece: usize,
    pub fails: bool,
    pub calls: Calls<'a>,
}

impl Read for Pieces<'_> {
    fn read(&mut self, buf: &mut [u8]) -> io::Result<usize> {
        self.calls.count();
        if self.fails && self.rest.is_empty() {
            return Err(Error::from(ErrorKind::Other));
        }
        let room = buf.len().min(self.piece);
        self.rest.read(&mut buf[..room])
    }
}
