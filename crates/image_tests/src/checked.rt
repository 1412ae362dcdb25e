//! What is kept of an image, checked and read like the image itself.
//!
//! In the image of these tests the root holds three headers: a regular file `a` at 64, with four
//! bytes of data at 96; a symbolic link `l` at 112, with its target at 144; and a hard link `h` at
//! 160 to the file. It ends at 192, followed by a file's bytes.

use devices::InMemory;
use romfs_image::{CheckFault, HeldImage, ImageFault, Profile, Rule, check_held};
use romfs_kept::{Grain, gather};
use romfs_reader::{Image, ImageView, Part};
use std::alloc::Allocator;

/// The image (romfs.rst), with the sum that makes its words sum to 0, and the size of the target.
fn image(sum: u8, target: u8) -> [u8; 208] {
    let mut image = *b"-rom1fs-\0\0\0\xc0\x02\x96D\0v\0\0\0\0\0\0\0\0\0\0\0\0\0\0\0\
\0\0\0\x09\0\0\0@\0\0\0\0\0\0\0\0.\0\0\0\0\0\0\0\0\0\0\0\0\0\0\0\
\0\0\0r\0\0\0\0\0\0\0\x04\0\0\0\0a\0\0\0\0\0\0\0\0\0\0\0\0\0\0\0data\0\0\0\0\0\0\0\0\0\0\0\0\
\0\0\0\xa3\0\0\0\0\0\0\0\0\0\0\0\0l\0\0\0\0\0\0\0\0\0\0\0\0\0\0\0a/b\0\0\0\0\0\0\0\0\0\0\0\0\0\
\0\0\0\0\0\0\0@\0\0\0\0\0\0\0\0h\0\0\0\0\0\0\0\0\0\0\0\0\0\0\0\
-behind it is...";
    image[15] = sum;
    image[123] = target;
    image
}

/// What is kept of the image, if it is sound.
fn kept<A: Allocator + Copy>(alloc: A, bytes: &[u8]) -> Result<Image<A>, CheckFault> {
    let Ok(gathered) = gather(alloc, &InMemory::new(bytes), Grain::Byte) else {
        return Err(CheckFault::Memory);
    };
    let (image, _rows, _lists) = check_held(alloc, HeldImage::Kept(gathered), Profile::Usual)?;
    Ok(image)
}

/// What is read from it.
#[derive(Clone, Copy, Debug, PartialEq, Eq)]
struct Seen {
    full: u32,
    /// How many members there are.
    count: u32,
    /// The bytes of their names, as a sum.
    names: u32,
    /// The place of the data of the last one, after hard links.
    last: Part,
}

fn look_at<A: Allocator + Copy>(alloc: A, bytes: &[u8]) -> Result<Seen, CheckFault> {
    Ok(seen_of(kept(alloc, bytes)?.view()))
}

fn seen_of(image: ImageView<'_>) -> Seen {
    let mut seen = Seen {
        full: image.full(),
        count: 0,
        names: 0,
        last: Part { start: 0, len: 0 },
    };
    for head in image.members(&image.root()) {
        seen.count = seen.count.wrapping_add(1);
        for byte in image.name(&head) {
            seen.names = seen.names.wrapping_add(u32::from(*byte));
        }
        seen.last = image.data_part(&image.target(&head));
    }
    seen
}

#[test]
fn what_is_kept_is_read_as_the_image(rt: HostRuntime) {
    let told = Seen {
        full: 192,
        count: 3,
        names: u32::from(b'a') + u32::from(b'l') + u32::from(b'h'),
        last: Part { start: 96, len: 4 },
    };
    assert_eq!(rt; look_at(rt.alloc(), &image(0xa0, 3)), Ok(told));
}

#[test]
fn a_broken_image_is_told_by_what_is_kept(rt: HostRuntime) {
    let fault = ImageFault {
        rule: Rule::DataOutside,
        place: 112,
    };
    assert_eq!(rt;
        look_at(rt.alloc(), &image(0x72, 49)),
        Err(CheckFault::Broken(fault))
    );
}

#[test]
fn a_wrong_sum_is_told_by_what_is_kept(rt: HostRuntime) {
    let fault = ImageFault {
        rule: Rule::BadSum,
        place: 12,
    };
    assert_eq!(rt;
        look_at(rt.alloc(), &image(0xa1, 3)),
        Err(CheckFault::Broken(fault))
    );
}
