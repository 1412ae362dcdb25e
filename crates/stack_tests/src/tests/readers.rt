//! What is read from checked images.

ghost use Rattle.std.specs.Prelude.{◌≡◌, true};
ghost use Rattle.romfs_reader.specs.Readers.{IsGiven};

use romfs_image::sample::seal;
use romfs_image::{Head, Image};
use std::alloc::{AllocError, Allocator, Global};
use std::test::Fail;
use test_kit::bytes::bytes_of;
use test_kit::refusing::Refusing;
use test_kit::sample_images::{checked, empty, mixed};

/// An image as genromfs lays it out: the root's `.` heads its own chain, `..` is a hard link to it,
/// and then `passwd`, an empty `motd` and an executable `init` follow.
const THREE_FILES: [u32; 64] = [
    0x2d726f6d, 0x3166732d, 0x00000100, 0xaad77bc4, 0x726f6d20, 0x35663337, 0x35396466, 0x00000000,
    0x00000049, 0x00000020, 0x00000000, 0xd1ffff97, 0x2e000000, 0x00000000, 0x00000000, 0x00000000,
    0x00000060, 0x00000020, 0x00000000, 0xd1d1ff80, 0x2e2e0000, 0x00000000, 0x00000000, 0x00000000,
    0x000000a2, 0x00000000, 0x0000001a, 0x183a8bd1, 0x70617373, 0x77640000, 0x00000000, 0x00000000,
    0x726f6f74, 0x3a783a30, 0x3a303a72, 0x6f6f743a, 0x2f3a2f62, 0x696e2f73, 0x680a0000, 0x00000000,
    0x000000c2, 0x00000000, 0x00000000, 0x92908ada, 0x6d6f7464, 0x00000000, 0x00000000, 0x00000000,
    0x0000000a, 0x00000000, 0x00000012, 0x96919670, 0x696e6974, 0x00000000, 0x00000000, 0x00000000,
    0x23212f62, 0x696e2f73, 0x680a6578, 0x65632073, 0x680a0000, 0x00000000, 0x00000000, 0x00000000,
];

/// The names of the root's members, each with the data at the end of its hard links.
fn files<A: Allocator>(alloc: Global, image: &Image<A>) -> Result<Vec<(&[u8], &[u8])>, AllocError>
    requires { image.now.whole ≡ true }
{
    let mut files = Vec::new(alloc);
    for head in image.members(&image.root()) {
        let file = image.target(&head);
        files.push((image.name(&head), image.body(&file)))?;
    }
    Ok(files)
}

/// Whether the image has its three files, in their order.
fn has_three_files<A: Allocator>(alloc: Global, image: &Image<A>) -> Result<bool, AllocError>
    requires { image.now.whole ≡ true }
{
    let wanted = [
        (
            b"passwd".as_slice(),
            b"root:x:0:0:root:/:/bin/sh\n".as_slice(),
        ),
        (b"motd", b""),
        (b"init", b"#!/bin/sh\nexec sh\n"),
    ];
    Ok(files(alloc, image)?.as_slice() == wanted.as_slice())
}

/// The bytes of such an image.
fn three_files<'a>(
    global: Global,
    memory: &'a Refusing<Global>,
) -> Result<Vec<u8, &'a Refusing<Global>>, AllocError> {
    bytes_of(global, &THREE_FILES)?.to_vec(memory)
}

/// Whether an image gives its three files and its root, without taking memory.
fn tells_files(
    alloc: Global,
    memory: &Refusing<Global>,
    image: &Image<&Refusing<Global>>,
) -> Result<bool, AllocError>
    requires { image.now.whole ≡ true }
{
    let requests = memory.requests();
    let has_files = has_three_files(alloc, image)?;
    let has_root = image.head(32) == Some(image.root()) && image.head(33).is_none();
    let is_whole = has_files && has_root && image.full() == 256;
    Ok(is_whole && memory.requests() == requests)
}

/// Reading an image takes no memory.
#[test]
fn reads_three_files(rt: HostRuntime) -> Result<(), Fail> {
    let memory = Refusing::new(rt.alloc(), 0);
    let image = checked(&memory, three_files(rt.alloc(), &memory)?)?;
    let tells_files = tells_files(rt.alloc(), &memory, &image);
    drop(image);
    assert!(rt; tells_files?);
    Ok(())
}

/// The members of a directory, each with the end of its hard links.
fn list<A: Allocator>(
    alloc: Global,
    image: &Image<A>,
    directory: &Head,
) -> Result<Vec<(u32, u32)>, AllocError>
    requires { IsGiven image.now.bytes directory.now }
{
    let mut found = Vec::new(alloc);
    for head in image.members(directory) {
        let end = image.target(&head);
        found.push((head.offset, end.offset))?;
    }
    Ok(found)
}

/// The members of the root, and then theirs.
fn list_two<A: Allocator>(alloc: Global, image: &Image<A>) -> Result<Vec<(u32, u32)>, AllocError> {
    let root = image.root();
    let mut found = list(alloc, image, &root)?;
    for head in image.members(&root) {
        found.extend_from_slice(&list(alloc, image, &head)?)?;
    }
    Ok(found)
}

#[test]
fn reads_members_and_targets(rt: HostRuntime) -> Result<(), Fail> {
    let image = checked(rt.alloc(), mixed(rt.alloc())?)?;
    let found = list_two(rt.alloc(), &image)?;
    let wanted = [
        (0x60, 0x100),
        (0x80, 0x80),
        (0xa0, 0xa0),
        (0x100, 0x100),
        (0x120, 0x120),
        (0x1a0, 0x100),
    ];
    assert!(rt; found.as_slice() == wanted.as_slice());
    Ok(())
}

#[test]
fn reads_a_root_without_a_name(rt: HostRuntime) -> Result<(), Fail> {
    let mut bytes = empty(rt.alloc())?;
    // The full size is 48, the root's first header none, and its name begins at the end of the
    // image.
    assert!(rt; bytes.len() == 96);
    bytes[11] = 48;
    bytes[0x27] = 0;
    seal(&mut bytes);
    let image = checked(rt.alloc(), bytes)?;
    assert!(rt; image.name(&image.root()).is_empty() && image.head(0x20).is_none());
    Ok(())
}
