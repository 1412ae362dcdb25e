//! Headers and names that will be read, read ahead.
//!
//! Members in the order of their names are scattered over the image, which is larger than the
//! processor's caches. One after another, each would wait for its read. Here some dozens are read
//! together, before their branches are made, and none of these reads waits for another. No branch
//! depends on what is read here.

use crate::members::KeyedMember;
use romfs_reader::ImageView;

/// How many names are read together.
const TOGETHER: usize = 64;

/// How many of a directory's members have been passed.
#[derive(Drop)]
pub(crate) struct NamesAhead {
    passed: usize,
    // A sum of everything read, so no compiler drops the reads.
    sum: u64,
}

impl NamesAhead {
    /// At the first member.
    pub(crate) fn new() -> Self {
        NamesAhead { passed: 0, sum: 0 }
    }

    /// Passes one more of these members; from time to time the names of the next ones are read.
    /// Those of a small directory have just been read.
    pub(crate) fn pass(&mut self, image: &ImageView<'_>, members: &[KeyedMember]) {
        if members.len() > TOGETHER && self.passed % TOGETHER == 0 {
            self.read(image, members);
        }
        self.passed = self.passed.wrapping_add(1);
    }

    // Reads bytes of the next headers and names.
    #[inline(never)]
    fn read(&mut self, image: &ImageView<'_>, members: &[KeyedMember]) {
        if let Some(next) = members.get(self.passed..) {
            for member in next.iter().take(TOGETHER) {
                self.sum ^= u64::from(byte_at(image, member.offset).unwrap_or(0));
            }
        }
    }
}

// The first and the last byte of a header and of a short name.
fn byte_at(image: &ImageView<'_>, header: u32) -> Option<u8> {
    Some(image.glance(header)? ^ image.glance(header.wrapping_add(31))?)
}
