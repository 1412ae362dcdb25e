//! Images laid out by hand, in files that return few bytes at a time, end or fail.
//!
//! In the image of these tests a directory leads to itself and a later header back to an earlier
//! one, a header lies in the name of another, a hard link leads outside, a symbolic link has a
//! target of 20 bytes, and a regular file has data that look like headers. 832 of the 900 bytes
//! belong to the image.

use devices::{Contents, Unread};
use romfs_held::read::word;
use romfs_kept::{GatherFault, Grain, gather, gather_with_trailer};
use std::alloc::Allocator;
use std::cell::Cell;

/// The bytes of the file.
const FILE_SIZE: usize = 900;

/// Puts bytes into an image.
fn put(image: &mut [u8; FILE_SIZE], at: usize, bytes: &[u8]) {
    for i in 0..bytes.len() {
        if at < FILE_SIZE && i < FILE_SIZE - at {
            image[at + i] = bytes[i];
        }
    }
}

// The image (romfs.rst): the first word of a header is the next one and the kind, the second is
// spec.info, the third the size.
fn image() -> [u8; FILE_SIZE] {
    let mut image = [b'x'; FILE_SIZE];
    put(
        &mut image,
        0,
        b"-rom1fs-\0\0\x03\x40\0\0\0\0v\0\0\0\0\0\0\0\0\0\0\0\0\0\0\0",
    );
    // the root at 32, whose first header is at 528
    put(
        &mut image,
        32,
        b"\0\0\0\x09\0\0\x02\x10\0\0\0\0\0\0\0\0.\0\0\0\0\0\0\0\0\0\0\0\0\0\0\0",
    );
    // a directory at 528, whose first header is itself
    put(
        &mut image,
        528,
        b"\0\0\x02\x31\0\0\x02\x10\0\0\0\0\0\0\0\0d\0\0\0\0\0\0\0\0\0\0\0\0\0\0\0",
    );
    // a symbolic link at 560, its target at 592
    put(
        &mut image,
        560,
        b"\0\0\x02\x73\0\0\0\0\0\0\0\x14\0\0\0\0l\0\0\0\0\0\0\0\0\0\0\0\0\0\0\0",
    );
    put(
        &mut image,
        592,
        b"0123456789abcdefghij\0\0\0\0\0\0\0\0\0\0\0\0",
    );
    // a regular file of 64 bytes at 624
    put(
        &mut image,
        624,
        b"\0\0\x02\xd2\0\0\0\0\0\0\0\x40\0\0\0\0f\0\0\0\0\0\0\0\0\0\0\0\0\0\0\0",
    );
    // a hard link at 720, which leads outside
    put(
        &mut image,
        720,
        b"\0\0\x02\xf0\x7f\xff\xff\xf0\0\0\0\0\0\0\0\0h\0\0\0\0\0\0\0\0\0\0\0\0\0\0\0",
    );
    // a directory at 752, followed by the one at 528, with its first header in its own name
    put(&mut image, 752, b"\0\0\x02\x11\0\0\x03\0\0\0\0\0\0\0\0\0");
    put(
        &mut image,
        768,
        b"\x01\x01\x01\x22ABCDEFGHIJKLM\0\0\0\0\0\0\0\0\0\0\0\0\0\0\0",
    );
    image
}

/// A file with at most this many bytes of the image, which returns at most this many bytes per
/// read. The read with this number, counted from 1, fails.
#[derive(Drop)]
struct Slow {
    image: [u8; FILE_SIZE],
    size: usize,
    most: usize,
    fails_at: u32,
    reads: Cell<u32>,
}

fn file(size: usize, most: usize, fails_at: u32) -> Slow {
    Slow {
        image: image(),
        size: size.min(FILE_SIZE),
        most,
        fails_at,
        reads: Cell::new(0),
    }
}

impl Contents for Slow {
    ghost use Rattle.devices.specs.Sources.{unknown};

    ghost source = { λ _. unknown };

    fn size(&self) -> u64 {
        self.size as u64
    }

    fn read_at(&self, room: &mut [u8], offset: u64) -> Result<usize, Unread> {
        let number = self.reads.get().wrapping_add(1);
        self.reads.set(number);
        if number == self.fails_at {
            return Err(Unread);
        }
        let size = self.size.min(FILE_SIZE);
        if size as u64 <= offset {
            return Ok(0);
        }
        let rest = &self.image[offset as usize..size];
        let count = rest.len().min(room.len()).min(self.most);
        room[..count].copy_from_slice(&rest[..count]);
        Ok(count)
    }
}

/// What is read from what was kept.
#[derive(Clone, Copy, Debug, PartialEq, Eq)]
struct Seen {
    size: usize,
    words: [u32; 6],
    reads: u32,
}

// The size of what was kept, and the words at some places of it.
fn look_at<A: Allocator + Copy>(
    alloc: A,
    source: &Slow,
    at: [u32; 6],
) -> Result<Seen, GatherFault> {
    let kept = gather(alloc, source, Grain::Byte)?;
    let image = kept.held();
    let size = image.len();
    let mut words = [0; 6];
    for i in 0..6 {
        let place = at[i] as usize;
        if place < size && 4 <= size - place {
            words[i] = word(&image, place);
        }
    }
    Ok(Seen {
        size,
        words,
        reads: source.reads.get(),
    })
}

// Headers, a name, a target and data.
const PLACES: [u32; 6] = [528, 576, 608, 656, 720, 784];

// What is kept there; no data are.
const WORDS: [u32; 6] = [0x231, 0x6c00_0000, 0x6768_696a, 0, 0x2f0, 0x4d00_0000];

#[test]
fn headers_names_and_targets_are_kept(rt: HostRuntime) {
    let told = Seen {
        size: 832,
        words: WORDS,
        reads: 2,
    };
    assert_eq!(rt; look_at(rt.alloc(), &file(900, 900, 0), PLACES), Ok(told));
}

// How many reads it takes in blocks: the file is one.
fn reads_in_blocks<A: Allocator + Copy>(alloc: A, source: &Slow) -> Result<u32, GatherFault> {
    let _kept = gather(alloc, source, Grain::Block)?;
    Ok(source.reads.get())
}

#[test]
fn a_block_is_read_once(rt: HostRuntime) {
    assert_eq!(rt; reads_in_blocks(rt.alloc(), &file(900, 900, 0)), Ok(1));
}

#[test]
fn short_reads_make_no_difference(rt: HostRuntime) {
    let told = look_at(rt.alloc(), &file(900, 1, 0), PLACES);
    assert_eq!(rt; told.map(|seen| seen.words), Ok(WORDS));
}

#[test]
fn a_failed_read_is_told(rt: HostRuntime) {
    assert_eq!(rt;
        look_at(rt.alloc(), &file(900, 900, 1), PLACES),
        Err(GatherFault::Unread)
    );
    assert_eq!(rt;
        look_at(rt.alloc(), &file(900, 900, 2), PLACES),
        Err(GatherFault::Unread)
    );
    assert_eq!(rt;
        look_at(rt.alloc(), &file(900, 64, 9), PLACES),
        Err(GatherFault::Unread)
    );
}

#[test]
fn a_cut_file_is_gathered_up_to_its_end(rt: HostRuntime) {
    let told = Seen {
        size: 600,
        words: [0x231, 0x6c00_0000, 0, 0, 0, 0],
        reads: 2,
    };
    assert_eq!(rt; look_at(rt.alloc(), &file(600, 900, 0), PLACES), Ok(told));
}

/// The same file with an attribute trailer of one row, for the header at 528, where the image ends.
fn file_with_trailer(size: usize, fails_at: u32) -> Slow {
    let mut file = file(size, 900, fails_at);
    put(&mut file.image, 832, b"-attr01-\0\0\0\x01\0\0\0\0");
    put(&mut file.image, 848, b"\0\0\x02\x10\0\0\x01\xa4");
    file
}

// The size of what was kept with the trailer, and the first words of its head and of its row.
fn look_behind<A: Allocator + Copy>(
    alloc: A,
    source: &Slow,
) -> Result<(usize, [u32; 2]), GatherFault> {
    let kept = gather_with_trailer(alloc, source, Grain::Byte)?;
    let image = kept.held();
    let size = image.len();
    let mut words = [0; 2];
    for i in 0..2 {
        let place = 832 + 16 * i;
        if place < size && 4 <= size - place {
            words[i] = word(&image, place);
        }
    }
    Ok((size, words))
}

#[test]
fn a_trailer_is_kept_to_its_end(rt: HostRuntime) {
    let told = look_behind(rt.alloc(), &file_with_trailer(900, 0));
    assert_eq!(rt; told, Ok((880, [0x2d61_7474, 0x210])));
}

#[test]
fn a_trailer_that_is_cut_off_is_kept_by_its_head(rt: HostRuntime) {
    let told = look_behind(rt.alloc(), &file_with_trailer(870, 0));
    assert_eq!(rt; told, Ok((848, [0x2d61_7474, 0])));
}

#[test]
fn an_image_without_a_trailer_is_kept_as_it_is(rt: HostRuntime) {
    let told = look_behind(rt.alloc(), &file(900, 900, 0));
    assert_eq!(rt; told, Ok((832, [0, 0])));
}

#[test]
fn a_failed_read_of_a_trailer_is_told(rt: HostRuntime) {
    let told = look_behind(rt.alloc(), &file_with_trailer(900, 5));
    assert_eq!(rt; told, Err(GatherFault::Unread));
}

/// A file of this many bytes: an image of this full size, and after it a trailer of one row, for
/// the root. A read returns one byte.
#[derive(Drop)]
struct Long {
    size: u64,
    front: [u8; 64],
    full: u64,
    trailer: [u8; 48],
}

fn long_file(size: u64, full: u32) -> Long {
    let mut front = *b"-rom1fs-\0\0\0\0\0\0\0\0v\0\0\0\0\0\0\0\0\0\0\0\0\0\0\0\
        \0\0\0\x09\0\0\0\x20\0\0\0\0\0\0\0\0.\0\0\0\0\0\0\0\0\0\0\0\0\0\0\0";
    front[8..12].copy_from_slice(&full.to_be_bytes());
    Long {
        size,
        front,
        full: u64::from(full),
        trailer: *b"-attr01-\0\0\0\x01\0\0\0\0\0\0\0\x20\0\0\x01\xa4\0\0\0\0\0\0\0\0\0\0\0\0\
            \0\0\0\0\0\0\0\0\0\0\0\0",
    }
}

impl Long {
    fn byte(&self, place: u64) -> u8 {
        if place < 64 {
            return self.front[place as usize];
        }
        if self.full <= place && place - self.full < 48 {
            return self.trailer[(place - self.full) as usize];
        }
        0
    }
}

impl Contents for Long {
    ghost use Rattle.devices.specs.Sources.{unknown};

    ghost source = { λ _. unknown };

    fn size(&self) -> u64 {
        self.size
    }

    fn read_at(&self, room: &mut [u8], offset: u64) -> Result<usize, Unread> {
        if room.is_empty() || self.size <= offset {
            return Ok(0);
        }
        room[0] = self.byte(offset);
        Ok(1)
    }
}

// How many bytes are kept with the trailer.
fn kept_len<A: Allocator + Copy>(alloc: A, source: &Long) -> Result<usize, GatherFault> {
    Ok(
        gather_with_trailer(alloc, source, Grain::Byte)?
            .held()
            .len(),
    )
}

#[test]
fn a_trailer_that_ends_too_far_is_told(rt: HostRuntime) {
    let far = kept_len(rt.alloc(), &long_file(1 << 32, 0xffff_ffd0));
    assert_eq!(rt; far, Err(GatherFault::Far));
    let near = kept_len(rt.alloc(), &long_file(1 << 32, 0xffff_ffc0));
    assert_eq!(rt; near, Ok(0xffff_fff0));
}
