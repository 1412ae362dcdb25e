//! Images that several tests use, and images given as words.

ghost use Rattle.std.specs.Prelude.{◌≡◌, true, IfOk};
ghost use Rattle.romfs_reader.specs.Images.{all_whole};

use crate::bytes::bytes_of;
use romfs_image::sample::{BuildFault, Item, What, build};
use romfs_image::{Check, CheckFault, Image};
use std::alloc::{AllocError, Allocator, Global};

/// The empty image with the volume name `v`.
const EMPTY: [u32; 24] = [
    0x2d726f6d, 0x3166732d, 0x00000060, 0x2b271d06, 0x76000000, 0x00000000, 0x00000000, 0x00000000,
    0x00000049, 0x00000020, 0x00000000, 0xd1ffff97, 0x2e000000, 0x00000000, 0x00000000, 0x00000000,
    0x00000000, 0x00000020, 0x00000000, 0xd1d1ffe0, 0x2e2e0000, 0x00000000, 0x00000000, 0x00000000,
];

pub fn empty(alloc: Global) -> Result<Vec<u8>, AllocError> {
    bytes_of(alloc, &EMPTY)
}

/// An image with an item for each word, in walk order: a digit for the depth, a sign, and the name.
///
/// The sign is `/` for a directory and `*` for an executable one, `-` for a file with the bytes
/// `hi` and `#` for one of 5,000 bytes, `@` for a symbolic link to `d/x`, `%` for an executable
/// block device, `$` for a character device, `=` for a socket and `|` for a fifo; and for a hard
/// link a digit, the index of the word that it leads to.
pub fn image<A: Allocator + Copy>(
    alloc: A,
    volume: &[u8],
    words: &str,
) -> Result<Vec<u8, A>, BuildFault> {
    let items = items_of(alloc, words)?;
    build(alloc, volume, &items)
}

pub fn sample<A: Allocator + Copy>(alloc: A) -> Result<Vec<u8, A>, BuildFault> {
    image(alloc, b"v", SAMPLE)
}

/// An image with hard links `a`, to the later `d/e`, and `d/h`, to `a`; an executable device `b`;
/// and a directory in a directory, `d/f`, that holds `g`.
pub fn mixed(alloc: Global) -> Result<Vec<u8>, BuildFault> {
    image(alloc, b"v", "13a 1%b 1/d 2|e 2/f 3=g 20h")
}

/// The image in these bytes, checked.
pub fn checked<A: Allocator + Copy>(alloc: A, bytes: Vec<u8, A>) -> Result<Image<A>, BuildFault>
    ensures { IfOk result (λ image. image.whole ≡ true) }
{
    match Image::check(alloc, bytes) {
        Ok(image) => Ok(image),
        Err(CheckFault::Memory) => Err(BuildFault::Memory),
        Err(_) => Err(BuildFault::Listing),
    }
}

/// Layers of such words, the lowest first, with a `+` between any two.
#[tactic(auto, using(crate::proofs::Wholes::all_whole_and_one))]
pub fn layers<A: Allocator + Copy>(alloc: A, all: &str) -> Result<Vec<Image<A>, A>, BuildFault>
    ensures { IfOk result (λ images. all_whole images.items ≡ true) }
{
    let mut images = Vec::new(alloc);
    for words in all.split('+') {
        images.push(layer(alloc, words)?)?;
    }
    Ok(images)
}

/// One image alone.
pub fn alone<A: Allocator + Copy>(
    alloc: A,
    image: Vec<u8, A>,
) -> Result<Vec<Vec<u8, A>, A>, AllocError> {
    let mut images = Vec::new(alloc);
    images.push(image)?;
    Ok(images)
}

/// `big` of 5,000 bytes, an executable directory `d` with a file `x`, a link `l` to `d/x`, and the
/// device `null`.
pub const SAMPLE: &str = "1#big 1*d 2-x 1@l 1$null";

/// This many sample images.
pub fn samples<A: Allocator + Copy>(alloc: A, count: usize) -> Option<Vec<Vec<u8, A>, A>> {
    let mut images = Vec::new(alloc);
    for _ in 0..count {
        images.push(sample(alloc).ok()?).ok()?;
    }
    Some(images)
}

/// This many empty images.
pub fn empties(alloc: Global, count: usize) -> Option<Vec<Vec<u8>>> {
    let mut images = Vec::new(alloc);
    for _ in 0..count {
        images.push(empty(alloc).ok()?).ok()?;
    }
    Some(images)
}

/// 5,000 bytes, each of them its place modulo 251.
fn big<A: Allocator>(alloc: A) -> Result<Vec<u8, A>, AllocError> {
    let mut big = Vec::new(alloc);
    for place in 0..5000u32 {
        big.push((place % 251) as u8)?;
    }
    Ok(big)
}

/// The data of the files with a sign.
fn data_of<A: Allocator>(alloc: A, sign: u8) -> Result<Vec<u8, A>, AllocError> {
    match sign {
        b'#' => big(alloc),
        b'@' => b"d/x".to_vec(alloc),
        _ => b"hi".to_vec(alloc),
    }
}

/// The meaning of a word's sign.
fn what_of<A: Allocator>(alloc: A, sign: u8) -> Result<What<A>, AllocError> {
    match sign {
        b'-' | b'#' => Ok(What::Regular(data_of(alloc, sign)?)),
        b'@' => Ok(What::SymLink(data_of(alloc, sign)?)),
        b'/' | b'*' => Ok(What::Directory),
        b'%' => Ok(What::Block(2, 3)),
        b'$' => Ok(What::Character(1, 3)),
        b'=' => Ok(What::Socket),
        b'|' => Ok(What::Fifo),
        _ => Ok(What::Hard(usize::from(sign.saturating_sub(b'0')))),
    }
}

fn item_of<A: Allocator + Copy>(alloc: A, word: &[u8]) -> Result<Item<A>, BuildFault> {
    let [depth, sign, name @ ..] = word else {
        return Err(BuildFault::Listing);
    };
    let name = name.to_vec(alloc)?;
    Ok(Item {
        depth: u16::from(depth.saturating_sub(b'0')),
        name,
        exec: matches!(*sign, b'*' | b'%'),
        what: what_of(alloc, *sign)?,
    })
}

fn items_of<A: Allocator + Copy>(alloc: A, words: &str) -> Result<Vec<Item<A>, A>, BuildFault> {
    let mut items = Vec::new(alloc);
    for word in words.split_whitespace() {
        items.push(item_of(alloc, word.as_bytes())?)?;
    }
    Ok(items)
}

fn layer<A: Allocator + Copy>(alloc: A, words: &str) -> Result<Image<A>, BuildFault>
    ensures { IfOk result (λ image. image.whole ≡ true) }
{
    checked(alloc, image(alloc, b"v", words)?)
}
