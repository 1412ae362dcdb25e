//! What is laid out for listings.

use romfs_image::sample::{BuildFault, build};
use std::alloc::{AllocError, Global};
use test_kit::bytes::{bytes_of, put_words};
use test_kit::sample_images::{empty, image, mixed, sample};

/// What the sample has before the data of its file `big`: 5,000 bytes, each of them its place
/// modulo 251.
const SAMPLE_HEAD: [u32; 32] = [
    0x2d726f6d, 0x3166732d, 0x000014f0, 0x1eba3c6c, 0x76000000, 0x00000000, 0x00000000, 0x00000000,
    0x00000049, 0x00000020, 0x00000000, 0xd1ffff97, 0x2e000000, 0x00000000, 0x00000000, 0x00000000,
    0x00000060, 0x00000020, 0x00000000, 0xd1d1ff80, 0x2e2e0000, 0x00000000, 0x00000000, 0x00000000,
    0x00001412, 0x00000000, 0x00001388, 0x9d967166, 0x62696700, 0x00000000, 0x00000000, 0x00000000,
];

/// What it has after them: the directory `d` with the file `x`, the symbolic link `l` and the
/// device `null`.
const SAMPLE_TAIL: [u32; 56] = [
    0x000014a9, 0x00001430, 0x00000000, 0x9bffd727, 0x64000000, 0x00000000, 0x00000000, 0x00000000,
    0x00001450, 0x00001410, 0x00000000, 0xd1ffd7a0, 0x2e000000, 0x00000000, 0x00000000, 0x00000000,
    0x00001470, 0x00000020, 0x00000000, 0xd1d1eb70, 0x2e2e0000, 0x00000000, 0x00000000, 0x00000000,
    0x00000002, 0x00000000, 0x00000002, 0x87fffffc, 0x78000000, 0x00000000, 0x00000000, 0x00000000,
    0x68690000, 0x00000000, 0x00000000, 0x00000000, 0x000014d3, 0x00000000, 0x00000003, 0x93ffeb2a,
    0x6c000000, 0x00000000, 0x00000000, 0x00000000, 0x642f7800, 0x00000000, 0x00000000, 0x00000000,
    0x00000005, 0x00010003, 0x00000000, 0x9189938c, 0x6e756c6c, 0x00000000, 0x00000000, 0x00000000,
];

/// The image with hard links, a device, and a directory in a directory: its headers are at 0x20,
/// `.`; 0x40, `..`; 0x60, `a`; 0x80, `b`; 0xa0, `d`; 0xc0 and 0xe0, its own two; 0x100, `e`; 0x120,
/// `f`; 0x140 and 0x160, its own two; 0x180, `g`; and 0x1a0, `h`.
const MIXED: [u32; 112] = [
    0x2d726f6d, 0x3166732d, 0x000001c0, 0x2b271ba6, 0x76000000, 0x00000000, 0x00000000, 0x00000000,
    0x00000049, 0x00000020, 0x00000000, 0xd1ffff97, 0x2e000000, 0x00000000, 0x00000000, 0x00000000,
    0x00000060, 0x00000020, 0x00000000, 0xd1d1ff80, 0x2e2e0000, 0x00000000, 0x00000000, 0x00000000,
    0x00000080, 0x00000100, 0x00000000, 0x9efffe80, 0x61000000, 0x00000000, 0x00000000, 0x00000000,
    0x000000ac, 0x00020003, 0x00000000, 0x9dfdff51, 0x62000000, 0x00000000, 0x00000000, 0x00000000,
    0x00000001, 0x000000c0, 0x00000000, 0x9bffff3f, 0x64000000, 0x00000000, 0x00000000, 0x00000000,
    0x000000e0, 0x000000a0, 0x00000000, 0xd1fffe80, 0x2e000000, 0x00000000, 0x00000000, 0x00000000,
    0x00000100, 0x00000020, 0x00000000, 0xd1d1fee0, 0x2e2e0000, 0x00000000, 0x00000000, 0x00000000,
    0x00000127, 0x00000000, 0x00000000, 0x9afffed9, 0x65000000, 0x00000000, 0x00000000, 0x00000000,
    0x000001a1, 0x00000140, 0x00000000, 0x99fffd1f, 0x66000000, 0x00000000, 0x00000000, 0x00000000,
    0x00000160, 0x00000120, 0x00000000, 0xd1fffd80, 0x2e000000, 0x00000000, 0x00000000, 0x00000000,
    0x00000180, 0x000000a0, 0x00000000, 0xd1d1fde0, 0x2e2e0000, 0x00000000, 0x00000000, 0x00000000,
    0x00000006, 0x00000000, 0x00000000, 0x98fffffa, 0x67000000, 0x00000000, 0x00000000, 0x00000000,
    0x00000000, 0x00000060, 0x00000000, 0x97ffffa0, 0x68000000, 0x00000000, 0x00000000, 0x00000000,
];

/// The bytes of the sample.
fn sample_bytes(alloc: Global) -> Result<Vec<u8>, AllocError> {
    let mut image = bytes_of(alloc, &SAMPLE_HEAD)?;
    for place in 0..5000u32 {
        image.push((place % 251) as u8)?;
    }
    image.extend_from_slice(&[0; 8])?;
    put_words(&mut image, &SAMPLE_TAIL)?;
    Ok(image)
}

/// Whether an image was laid out as these bytes.
fn is_laid_out(image: Result<Vec<u8>, BuildFault>, bytes: Result<Vec<u8>, AllocError>) -> bool {
    match (image, bytes) {
        (Ok(image), Ok(bytes)) => image == bytes,
        _ => false,
    }
}

#[test]
fn lays_out_three_images(rt: HostRuntime) {
    let alloc = rt.alloc();
    assert!(rt; is_laid_out(build(alloc, b"v", &[]), empty(alloc)));
    assert!(rt; is_laid_out(sample(alloc), sample_bytes(alloc)));
    assert!(rt; is_laid_out(mixed(alloc), bytes_of(alloc, &MIXED)));
}

/// Names of a volume, each with the items of a listing.
static BAD: [(&str, &str); 9] = [
    ("v\0", "1/d 20/ 2|f"),
    ("v", "0/d 10/ 1|f"),
    ("v", "2/d 20/ 2|f"),
    ("v", "1/d 00/ 1|f"),
    ("v", "1/d 30/ 1|f"),
    ("v", "1/d 20/ 3|f"),
    ("v", "1/d 10/ 2|f"),
    ("v", "1/d 23/ 1|f"),
    ("v", "1/d 20/ 1|\0"),
];

/// The size of the image of a listing.
fn size_of(alloc: Global, volume: &str, words: &str) -> Result<usize, BuildFault> {
    Ok(image(alloc, volume.as_bytes(), words)?.len())
}

#[test]
fn refuses_a_bad_listing(rt: HostRuntime) {
    assert!(rt; size_of(rt.alloc(), "", "1/d 22/ 1|") == Ok(0x100));
    for (volume, words) in BAD {
        let size = size_of(rt.alloc(), volume, words);
        assert!(rt; size == Err(BuildFault::Listing), "{words}");
    }
}
