//! Each request for memory is refused in turn over an image with extended attributes, as it is and
//! under its digest.

use super::memory::{Talk, refusals};
use super::program::{file_path, written};
use std::alloc::{AllocError, Global};
use std::fs::{self, Files};
use std::net::Net;
use std::os::unix::fs::FileExt;
use std::test::Fail;
use std::thread::Threads;
use test_kit::bytes::{bytes_of, put_words};
use test_kit::sample_images::sample;

/// The trailer of the sample image (strata-attributes(5)), 116 bytes: a row that gives the file
/// `big` the mode 640, and its list, in which `user.a` is `xyz` and `user.ab` is empty.
const TRAILER: [u32; 29] = [
    0x2d617474, 0x7230312d, 0x00000001, 0x606e585e, 0x00000060, 0x000001a0, 0x00000000, 0x00000000,
    0x00000000, 0x00000000, 0x00000000, 0x00000000, 0x2d617474, 0x7230322d, 0x00000044, 0xcff5a596,
    0x00000001, 0x00000001, 0x00000000, 0x00000002, 0x00000020, 0x00000026, 0x00000029, 0x00000030,
    0x00000030, 0x75736572, 0x2e617879, 0x7a757365, 0x722e6162,
];

/// The fs-verity digest of the image with its trailer, as `fsverity digest` prints it.
const DIGEST: &str = "sha256:e8fe6731edd4092c838d324dc774f43ec21291ca1c43cc58e5ddd18ea11e8e43";

/// The digests of its two blocks, with which `fsverity digest --out-merkle-tree` begins its tree.
const TREE: [u32; 16] = [
    0x35f5dce7, 0xcd81b316, 0xd2131e5b, 0xb2bfe2a6, 0xd145cdb3, 0x6ec9e9d5, 0x3ba984fc, 0xa9ad2411,
    0x52464a85, 0x0c1b8aeb, 0x28074408, 0xc89300be, 0x4a498008, 0xb74a1229, 0xe2c4391c, 0x5e283401,
];

/// INIT 7.31; GETXATTR of `user.a` and LISTXATTR of node 2, `big`, with the sizes 3 and 15; and a
/// READ of 10 bytes of node 4, `d/x`: 56, 55, 48 and 80 bytes.
const REQUESTS: &[u8; 239] = b"\
    8\0\0\0\x1a\0\0\0\x01\0\0\0\0\0\0\0\0\0\0\0\0\0\0\0\0\0\0\0\0\0\0\0\0\0\0\0\0\0\0\0\
    \x07\0\0\0\x1f\0\0\0\0\0\x02\0\x01`\0\0\
    7\0\0\0\x16\0\0\0\x02\0\0\0\0\0\0\0\x02\0\0\0\0\0\0\0\0\0\0\0\0\0\0\0\0\0\0\0\0\0\0\0\
    \x03\0\0\0\0\0\0\0user.a\0\
    0\0\0\0\x17\0\0\0\x03\0\0\0\0\0\0\0\x02\0\0\0\0\0\0\0\0\0\0\0\0\0\0\0\0\0\0\0\0\0\0\0\
    \x0f\0\0\0\0\0\0\0\
    P\0\0\0\x0f\0\0\0\x04\0\0\0\0\0\0\0\x04\0\0\0\0\0\0\0\0\0\0\0\0\0\0\0\0\0\0\0\0\0\0\0\
    \0\0\0\0\0\0\0\0\0\0\0\0\0\0\0\0\x0a\0\0\0\0\0\0\0\0\0\0\0\0\0\0\0\0\0\0\0\0\0\0\0";

/// Their replies: 80, 19, 31 and 18 bytes.
const REPLIES: &[u8; 148] = b"\
    P\0\0\0\0\0\0\0\x01\0\0\0\0\0\0\0\x07\0\0\0\x1f\0\0\0\0\0\x02\0\x01`\0\0\x0c\0\x09\0\
    \0\0\x02\0\x01\0\0\0\0\0\0\0\0\0\0\0\0\0\0\0\0\0\0\0\0\0\0\0\0\0\0\0\0\0\0\0\0\0\0\0\0\0\0\0\
    \x13\0\0\0\0\0\0\0\x02\0\0\0\0\0\0\0xyz\
    \x1f\0\0\0\0\0\0\0\x03\0\0\0\0\0\0\0user.a\0user.ab\0\
    \x12\0\0\0\0\0\0\0\x04\0\0\0\0\0\0\0hi";

const STREAM: Talk<'static> = Talk {
    requests: REQUESTS,
    whole: Some(REPLIES),
};

const SIZES: Talk<'static> = Talk {
    requests: &[],
    whole: Some(b"layer 0: 5360 bytes\n"),
};

const PATHS: Talk<'static> = Talk {
    requests: &[],
    whole: Some(
        b"1 040755 3 0 0 /\n2 100640 1 5000 0 /big\n3 040755 2 0 0 /d\n4 100644 1 2 0 /d/x\n\
        5 120777 1 3 0 /l\n6 020600 1 0 0 /null\n",
    ),
};

/// Writes the image and its tree into files, and returns their paths.
fn image_and_tree(rt: &HostRuntime) -> Result<(String, String), Fail> {
    let mut image = sample(rt.alloc())?;
    put_words(&mut image, &TRAILER)?;
    let path = written(rt, "attributes", &image)?;
    drop(image);
    let mut tree = bytes_of(rt.alloc(), &TREE)?;
    tree.resize(4096, 0)?;
    let tree_path = file_path(rt, "attributes", "img.verity")?;
    fs::write(rt, tree_path.as_str(), &tree)?;
    Ok((path, tree_path))
}

/// The refusals of lines that read the image in full.
fn refusals_in_memory<R: Files + Net + Threads + Sync>(
    rt: &R,
    global: Global,
    path: &str,
) -> [Result<(u64, u64), u64>; 5]
where
    R::File: FileExt + Send + Sync,
    R::Dir: Send,
{
    [
        refusals(rt, global, &["serve", "--attributes", path], STREAM),
        refusals(
            rt,
            global,
            &["serve", "--attributes", "--digest", DIGEST, path],
            STREAM,
        ),
        refusals(rt, global, &["check", "--attributes", path], SIZES),
        refusals(
            rt,
            global,
            &["check", "--attributes", "--digest", DIGEST, path],
            SIZES,
        ),
        refusals(rt, global, &["list", "--attributes", path], PATHS),
    ]
}

/// The refusals of lines that leave the image in its file.
fn refusals_in_files<R: Files + Net + Threads + Sync>(
    rt: &R,
    global: Global,
    path: &str,
) -> [Result<(u64, u64), u64>; 4]
where
    R::File: FileExt + Send + Sync,
    R::Dir: Send,
{
    let in_file = ["serve", "--attributes", "--in-files", path];
    let sealed = [
        "serve",
        "--attributes",
        "--in-files",
        "--digest",
        DIGEST,
        path,
    ];
    let device = ["serve", "--attributes", "--device", path];
    let readers = ["serve", "--attributes", "--device", "--readers", "2", path];
    [
        refusals(rt, global, &in_file, STREAM),
        refusals(rt, global, &sealed, STREAM),
        refusals(rt, global, &device, STREAM),
        refusals(rt, global, &readers, STREAM),
    ]
}

#[test]
fn refused_memory_is_told_of_attributes(rt: HostRuntime) -> Result<(), Fail> {
    let (image, tree) = image_and_tree(&rt)?;
    let in_memory = refusals_in_memory(&rt, rt.alloc(), image.as_str());
    let in_files = refusals_in_files(&rt, rt.alloc(), image.as_str());
    fs::remove_file(&rt, image.as_str())?;
    drop(image);
    fs::remove_file(&rt, tree.as_str())?;
    drop(tree);
    assert!(rt;
        in_memory.iter().all(|it| matches!(it, Ok((6.., 0)))),
        "{in_memory:?}"
    );
    assert!(rt;
        in_files.iter().all(|it| matches!(it, Ok((20.., 4)))),
        "{in_files:?}"
    );
    Ok(())
}
