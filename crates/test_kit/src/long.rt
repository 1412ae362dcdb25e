//! A large file and a large directory, and streams whose replies are long.

use romfs_image::sample::{BuildFault, Item, What, build};
use std::alloc::{AllocError, Allocator, Global};

/// How many bytes the file has: a page, so each READ of it gets a full page.
const FILE: usize = 16_384;

/// How many names the directory has.
const NAMES: u32 = 4_000;

/// INIT 7.31, 56 bytes.
const INIT: [u8; 56] = [
    56, 0, 0, 0, 26, 0, 0, 0, 1, 0, 0, 0, 0, 0, 0, 0, 0, 0, 0, 0, 0, 0, 0, 0, 0, 0, 0, 0, 0, 0, 0,
    0, 0, 0, 0, 0, 0, 0, 0, 0, 7, 0, 0, 0, 31, 0, 0, 0, 0, 0, 2, 0, 1, 96, 0, 0,
];

/// A request that each stream has many times.
#[derive(Clone, Copy, Debug)]
pub enum Long {
    /// READ of the file, a page from its beginning on.
    Read,
    /// READDIRPLUS of the directory, a page from its first row on: 102 rows of 160 bytes.
    Readdirplus,
    /// READDIR of the directory, a page from its first row on: 512 rows of 32 bytes. Its rounds are
    /// worth workers.
    Readdir,
    /// READDIR of the entire directory: 4,002 rows. Its rounds are worth workers, too, from 13
    /// messages on.
    All,
}

impl Long {
    /// The opcode, and the number of the node.
    fn asked(self) -> (u8, u8) {
        match self {
            Long::Read => (15, 2),
            Long::Readdirplus => (44, 3),
            Long::Readdir | Long::All => (28, 3),
        }
    }

    /// How many bytes a reply to it has.
    pub fn reply(self) -> u64 {
        match self {
            Long::Read => 16 + 16_384,
            Long::Readdirplus => 16 + 102 * 160,
            Long::Readdir => 16 + 512 * 32,
            Long::All => 16 + 4002 * 32,
        }
    }

    /// How many bytes it asks for.
    fn size(self) -> u32 {
        match self {
            Long::All => 131_072,
            _ => 16_384,
        }
    }
}

/// The image of the file and the directory: nodes 2 and 3.
pub fn image<A: Allocator + Copy>(alloc: A) -> Result<Vec<u8, A>, BuildFault> {
    let items = items(alloc)?;
    build(alloc, b"v", &items)
}

/// INIT, and this many requests.
pub fn stream(alloc: Global, long: Long, count: u32) -> Result<Vec<u8>, AllocError> {
    let mut stream = INIT.to_vec(alloc)?;
    for unique in 0..count {
        put_request(&mut stream, unique, long.asked(), long.size())?;
    }
    Ok(stream)
}

/// An image of a file of 1 MiB: node 2.
pub fn mebibyte<A: Allocator + Copy>(alloc: A) -> Result<Vec<u8, A>, BuildFault> {
    let mut data = Vec::new(alloc);
    data.resize(1 << 20, 7)?;
    let mut items = Vec::new(alloc);
    put(&mut items, alloc, 1, b"a", What::Regular(data))?;
    build(alloc, b"v", &items)
}

/// INIT, and READs of this many bytes each.
pub fn reads(alloc: Global, sizes: &[u32]) -> Result<Vec<u8>, AllocError> {
    let mut stream = INIT.to_vec(alloc)?;
    for size in sizes {
        put_request(&mut stream, 1, Long::Read.asked(), *size)?;
    }
    Ok(stream)
}

fn put<A: Allocator + Copy>(
    items: &mut Vec<Item<A>, A>,
    alloc: A,
    depth: u16,
    name: &[u8],
    what: What<A>,
) -> Result<(), AllocError> {
    let name = name.to_vec(alloc)?;
    items.push(Item {
        depth,
        name,
        exec: false,
        what,
    })?;
    Ok(())
}

/// A page of data.
fn page<A: Allocator>(alloc: A) -> Result<Vec<u8, A>, AllocError> {
    let mut data = Vec::new(alloc);
    for place in 0..FILE {
        data.push((place % 251) as u8)?;
    }
    Ok(data)
}

/// The last digit of a number.
fn digit(number: u32) -> u8 {
    b'0' + (number % 10) as u8
}

/// Empty files with the names 1000 to 4999.
fn put_names<A: Allocator + Copy>(items: &mut Vec<Item<A>, A>, alloc: A) -> Result<(), AllocError> {
    for number in 1000..1000 + NAMES {
        let name = [
            digit(number / 1000),
            digit(number / 100),
            digit(number / 10),
            digit(number),
        ];
        put(items, alloc, 2, &name, What::Regular(Vec::new(alloc)))?;
    }
    Ok(())
}

/// A file `a`, and a directory `d` with the names 1000 to 4999.
fn items<A: Allocator + Copy>(alloc: A) -> Result<Vec<Item<A>, A>, AllocError> {
    let mut items = Vec::new(alloc);
    put(&mut items, alloc, 1, b"a", What::Regular(page(alloc)?))?;
    put(&mut items, alloc, 1, b"d", What::Directory)?;
    put_names(&mut items, alloc)?;
    Ok(items)
}

/// Appends a request: READ, READDIR or READDIRPLUS of a node from its beginning on.
fn put_request(
    stream: &mut Vec<u8>,
    unique: u32,
    asked: (u8, u8),
    size: u32,
) -> Result<(), AllocError> {
    let (opcode, node) = asked;
    // The rest of the header, the handle and the offset are zeros.
    let mut request = [0; 80];
    request[0] = 80;
    request[4] = opcode;
    request[8..12].copy_from_slice(&unique.to_le_bytes());
    request[16] = node;
    request[56..60].copy_from_slice(&size.to_le_bytes());
    stream.extend_from_slice(&request)
}
