//! Images made for tests and examples.
//!
//! Nothing is promised about what these functions write: tests show it.

ghost use Rattle.std.specs.Prelude.{◌≡◌, ◌≤◌, length, IfSome, IfOk};
ghost use Rattle.romfs_format.specs.declared.limits.TheConstants.{HEAD_SIZE};
ghost use Rattle.romfs_image.specs.declared.sample.BuildFault.TheVariants.{Memory};

mod layout;

use byteorder::{BigEndian, ByteOrder};
use layout::{Layout, Placement, data_of, is_directory, is_listing, place_at};
use romfs_format::limits::{HEAD_SIZE, SUMMED_SIZE};
use romfs_format::read::{word, word_sum};
use std::alloc::{AllocError, AllocFailed, Allocator};
use std::error::Error;
use std::fmt;

/// A file of an image to be built. Items are in walk order: a directory before its members.
#[derive(Drop)]
pub struct Item<A: Allocator> {
    /// How many names its path has: 1 for the root's members.
    pub depth: u16,
    pub name: Vec<u8, A>,
    /// Whether the file is executable.
    pub exec: bool,
    pub what: What<A>,
}

/// What an item is.
#[derive(Drop)]
pub enum What<A: Allocator> {
    Directory,
    /// A file with its data.
    Regular(Vec<u8, A>),
    /// A link with its target.
    SymLink(Vec<u8, A>),
    /// A hard link to the item with this index.
    Hard(usize),
    /// A block device: its major and its minor number.
    Block(u16, u16),
    /// A character device: its major and its minor number.
    Character(u16, u16),
    Socket,
    Fifo,
}

/// Why an image cannot be built.
#[derive(Clone, Copy, Debug, PartialEq, Eq)]
pub enum BuildFault {
    /// A depth is 0, or exceeds the one before it by more than one; or an item lies below no
    /// directory; or a name or the volume name holds a zero byte; or a hard link leads to no item.
    Listing,
    /// The image would have more than 2^32 - 1 bytes.
    Size,
    /// No memory is left.
    Memory,
}

impl fmt::Display for BuildFault {
    ghost use Rattle.std.specs.Prelude.{Some};
    ghost use Rattle.romfs_image.specs.SampleTexts.{build_text};

    ghost output = { λ fault. Some (build_text fault) };

    fn fmt<W: fmt::Write>(&self, f: &mut fmt::Formatter<W>) -> fmt::Result {
        match self {
            BuildFault::Listing => write!(f, "bad listing"),
            BuildFault::Size => write!(f, "image too large"),
            BuildFault::Memory => write!(f, "out of memory"),
        }
    }
}

impl Error for BuildFault {}

impl From<AllocError> for BuildFault {
    ghost from_gives = { λ _ fault. fault ≡ Memory };

    fn from(_error: AllocError) -> BuildFault {
        BuildFault::Memory
    }
}

impl<T: Drop> From<AllocFailed<T>> for BuildFault {
    ghost from_gives = { λ _ fault. fault ≡ Memory };

    fn from(_error: AllocFailed<T>) -> BuildFault {
        BuildFault::Memory
    }
}

/// Lays out an image: the volume header, the root's `.` and `..`, then the items in order. A
/// directory is followed by its own `.` and `..`, hard links to it and to the directory above, and
/// a file by its data. Header sums and the volume sum are set, and the full size is the length.
///
/// `Listing` is checked first, then `Size`; `Memory` only if memory was refused. Faults that break
/// other rules of an image can be built, such as a bad name, a loop of hard links or a path that is
/// too deep.
pub fn build<A: Allocator + Copy>(
    alloc: A,
    volume: &[u8],
    items: &[Item<A>],
) -> Result<Vec<u8, A>, BuildFault> {
    if !is_listing(volume, items) {
        return Err(BuildFault::Listing);
    }
    let layout = Layout::of(alloc, volume, items)?;
    let mut image = Vec::with_capacity(alloc, layout.full as usize)?;
    put_all(&mut image, &layout, volume, items)?;
    seal(&mut image);
    Ok(image)
}

/// Sets the volume checksum of bytes that keep the first three rules: there are 16 or more, they
/// begin as an image does, and the full size is 16 or more and no more than there are. Other bytes
/// stay as they are.
pub fn seal(bytes: &mut [u8]) {
    if let Some(full) = full_size(bytes) {
        let summed = &mut bytes[..full.min(SUMMED_SIZE)];
        BigEndian::write_u32(&mut summed[12..], 0);
        let sum = word_sum(summed);
        BigEndian::write_u32(&mut summed[12..], sum.wrapping_neg());
    }
}

/// The full size of bytes that keep the first three rules.
fn full_size(bytes: &[u8]) -> Option<usize>
    ensures { IfSome result (λ full. (HEAD_SIZE ≤ full) × (full ≤ length bytes.now)) }
{
    if bytes.len() < HEAD_SIZE || !bytes.starts_with(b"-rom1fs-") {
        return None;
    }
    let full = word(bytes, 8) as usize;
    (HEAD_SIZE <= full && full <= bytes.len()).then_some(full)
}

/// The volume header, the root, and the items in order.
fn put_all<A: Allocator>(
    image: &mut Vec<u8, A>,
    layout: &Layout<A>,
    volume: &[u8],
    items: &[Item<A>],
) -> Result<(), BuildFault> {
    put_volume(image, layout.full, volume)?;
    put_root(image, layout, items)?;
    for (at, (item, placement)) in items.iter().zip(&layout.placements).enumerate() {
        let later = at.saturating_add(1);
        let next = place_at(layout, items, later, item.depth);
        let first = place_at(layout, items, later, item.depth.saturating_add(1));
        put_item(image, layout, placement, item, [next, first])?;
    }
    Ok(())
}

fn put_volume<A: Allocator>(
    image: &mut Vec<u8, A>,
    full: u32,
    name: &[u8],
) -> Result<(), AllocError> {
    let mut head = *b"-rom1fs-\0\0\0\0\0\0\0\0";
    BigEndian::write_u32(&mut head[8..], full);
    image.extend_from_slice(&head)?;
    put_name(image, name)
}

/// The root's `.`, an executable directory, and its `..`, which is a hard link to it.
fn put_root<A: Allocator>(
    image: &mut Vec<u8, A>,
    layout: &Layout<A>,
    items: &[Item<A>],
) -> Result<(), AllocError> {
    let root = &layout.root;
    let first = place_at(layout, items, 0, 1);
    put_head(image, [root.dot_dot | 9, root.at, 0], b".")?;
    put_head(image, [first, root.above, 0], b"..")
}

/// An item with its data; a directory with its `.` and `..`. `links` are the header after it in its
/// directory, and its first member.
fn put_item<A: Allocator>(
    image: &mut Vec<u8, A>,
    layout: &Layout<A>,
    placement: &Placement,
    item: &Item<A>,
    links: [u32; 2],
) -> Result<(), BuildFault> {
    let [next, first] = links;
    let data = data_of(item);
    let exec = if item.exec { 8 } else { 0 };
    let (kind, info) = kind_and_info(layout, placement, &item.what);
    let size = u32::try_from(data.len()).map_err(|_| BuildFault::Size)?;
    put_head(image, [next | exec | kind, info, size], &item.name)?;
    if is_directory(item) {
        put_head(image, [placement.dot_dot, placement.at, 0], b".")?;
        put_head(image, [first, placement.above, 0], b"..")?;
    }
    image.extend_from_slice(data)?;
    put_zeros(image)?;
    Ok(())
}

/// The kind of a header as a number, and its spec.info.
fn kind_and_info<A: Allocator>(
    layout: &Layout<A>,
    placement: &Placement,
    what: &What<A>,
) -> (u32, u32) {
    match what {
        What::Hard(index) => (0, layout.place_of(*index)),
        What::Directory => (1, placement.dot),
        What::Regular(_) => (2, 0),
        What::SymLink(_) => (3, 0),
        What::Block(major, minor) => (4, device(*major, *minor)),
        What::Character(major, minor) => (5, device(*major, *minor)),
        What::Socket => (6, 0),
        What::Fifo => (7, 0),
    }
}

fn device(major: u16, minor: u16) -> u32 {
    u32::from(major) << 16 | u32::from(minor)
}

/// A header with its name and its sum; `words` are its first three.
fn put_head<A: Allocator>(
    image: &mut Vec<u8, A>,
    words: [u32; 3],
    name: &[u8],
) -> Result<(), AllocError> {
    let at = image.len();
    let mut head = [0; HEAD_SIZE];
    BigEndian::write_u32(&mut head, words[0]);
    BigEndian::write_u32(&mut head[4..], words[1]);
    BigEndian::write_u32(&mut head[8..], words[2]);
    image.extend_from_slice(&head)?;
    put_name(image, name)?;
    let head = &mut image[at..];
    let sum = word_sum(head);
    BigEndian::write_u32(&mut head[12..], sum.wrapping_neg());
    Ok(())
}

/// A name, the zero byte after it and zeros to a multiple of 16.
fn put_name<A: Allocator>(image: &mut Vec<u8, A>, name: &[u8]) -> Result<(), AllocError>
    ensures { IfOk result (λ _. length image.old.items ≤ length image.new.items) }
{
    image.extend_from_slice(name)?;
    image.push(0)?;
    put_zeros(image)
}

/// Zeros to a multiple of 16.
fn put_zeros<A: Allocator>(image: &mut Vec<u8, A>) -> Result<(), AllocError>
    ensures { IfOk result (λ _. length image.old.items ≤ length image.new.items) }
{
    let zeros = [0; 15];
    image.extend_from_slice(&zeros[..(16 - image.len() % 16) % 16])
}
