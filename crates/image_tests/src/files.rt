//! Files that are opened: images laid out by hand, and files that hold no image.
//!
//! Each image has a regular file in its root, of 32 bytes of data. Its header is at 528, its name
//! at 544, its data at 560; 592 bytes belong to the image.

use devices::{Contents, fill};
use romfs_files::{
    FileKind, FilesFault, GatherFault, ImageData, LoadedImage, Loading, Trailers, load, load_as,
};
use romfs_held::read::word;
use romfs_held::{Held, HeldImage};
use std::alloc::{AllocError, Allocator};
use std::fs::{self, File, Files};
use std::os::unix::fs::FileExt;
use std::test::Fail;
use std::thread::{Threads, join};
use std::{env, io, process};

/// The first bytes of each image (romfs.rst): its magic, full size and name, and the root with its
/// name, whose spec.info leads to 528.
const FRONT: &[u8; 64] = b"-rom1fs-\0\0\x02\x50\0\0\0\0v\0\0\0\0\0\0\0\0\0\0\0\0\0\0\0\
    \0\0\0\x09\0\0\x02\x10\0\0\0\0\0\0\0\0.\0\0\0\0\0\0\0\0\0\0\0\0\0\0\0";

/// The header of a regular file of 32 bytes, the last one.
const HEADER: &[u8; 16] = b"\0\0\0\x02\0\0\0\0\0\0\0\x20\0\0\0\0";

/// An image whose file has this name, and this byte as all its data.
fn image<A: Allocator>(alloc: A, name: u8, data: u8) -> Result<Vec<u8, A>, AllocError> {
    let mut image = Vec::new(alloc);
    image.extend_from_slice(FRONT)?;
    image.resize(528, b'x')?;
    image.extend_from_slice(HEADER)?;
    image.push(name)?;
    image.resize(560, 0)?;
    image.resize(592, data)?;
    Ok(image)
}

/// What an open image gives: the kept words at the name and at the data; whether the bytes are in
/// memory, how many there are, and what is read at the data.
#[derive(Clone, Copy, Debug, PartialEq, Eq)]
struct Seen {
    name: Option<u32>,
    data: Option<u32>,
    in_memory: bool,
    size: u64,
    read: Option<[u8; 4]>,
}

fn word_at(image: &Held<'_>, at: usize) -> Option<u32> {
    if at < image.len() && 4 <= image.len() - at {
        Some(word(image, at))
    } else {
        None
    }
}

fn look_at<F: FileExt, A: Allocator>(kept: &HeldImage<A>, source: &ImageData<F, A>) -> Seen {
    Seen {
        name: word_at(&kept.held(), 544),
        data: word_at(&kept.held(), 560),
        in_memory: matches!(source, ImageData::Memory(_)),
        size: source.size(),
        read: data_in(source),
    }
}

/// What is read at the data.
fn data_in<F: FileExt, A: Allocator>(source: &ImageData<F, A>) -> Option<[u8; 4]> {
    let mut room = [0; 4];
    match fill(source, &mut room, 560) {
        Ok(()) => Some(room),
        Err(_) => None,
    }
}

/// The same, read by two threads at the same time.
fn data_in_two<R: Threads + Sync, F: FileExt + Sync, A: Allocator + Sync>(
    rt: &R,
    source: &ImageData<F, A>,
) -> (Option<[u8; 4]>, Option<[u8; 4]>) {
    join(rt, move || data_in(source), move || data_in(source))
}

/// The same for a file that is opened as one of this kind; none if it cannot be.
fn data_as<R: Files + Threads + Sync, A: Allocator + Copy + Sync>(
    rt: &R,
    alloc: A,
    path: &str,
    kind: FileKind,
) -> (Option<[u8; 4]>, Option<[u8; 4]>)
where
    R::File: FileExt + Sync,
{
    let Ok(file) = fs::open(rt, path) else {
        return (None, None);
    };
    match load_as(alloc, file, kind, Loading::Open(Trailers::Left)) {
        Ok(image) => match &image.source {
            Some(source) => data_in_two(rt, source),
            None => (None, None),
        },
        Err(_) => (None, None),
    }
}

/// What an image with this name and these data gives, with none of the data kept.
fn gathered(name: u8, data: u8) -> Seen {
    Seen {
        name: Some(u32::from(name) << 24),
        data: Some(0),
        in_memory: false,
        size: 592,
        read: Some([data; 4]),
    }
}

/// The same for several images whose files stay open, in their order.
fn look_at_all<F: FileExt, A: Allocator + Copy>(
    alloc: A,
    images: &[LoadedImage<F, A>],
) -> Result<Vec<Seen, A>, AllocError> {
    let mut all = Vec::with_capacity(alloc, images.len())?;
    for image in images {
        if let Some(source) = &image.source {
            all.push(look_at(&image.held, source))?;
        }
    }
    Ok(all)
}

/// What nine images give; those with the numbers 3 and 6 have the same other path.
fn seen_at<'a, R: Files + Threads + Sync, A: Allocator + Copy + Send + Sync>(
    rt: &R,
    alloc: A,
    low: &'a str,
    high: &'a str,
    other: &'a str,
) -> Result<Vec<Seen, A>, FilesFault>
where
    R::File: FileExt + Send,
    R::Dir: Send,
{
    let paths = [low, high, high, other, low, high, other, low, high];
    let images = load(rt, alloc, &paths, &[None; 9], Loading::Open(Trailers::Left))?;
    Ok(look_at_all(alloc, &images)?)
}

/// What a file opened as one of this kind gives; none if it cannot be.
fn seen_as(rt: &HostRuntime, path: &str, kind: FileKind) -> Option<Seen> {
    let file = fs::open(rt, path).ok()?;
    let image = load_as(rt.alloc(), file, kind, Loading::Open(Trailers::Read)).ok()?;
    Some(look_at(&image.held, image.source.as_ref()?))
}

/// Whether reading fails if a file is opened as a regular file of this many bytes.
fn is_unread(rt: &HostRuntime, path: &str, size: u64) -> bool {
    match fs::open(rt, path) {
        Ok(file) => {
            let loading = Loading::Open(Trailers::Left);
            let opened = load_as(rt.alloc(), file, FileKind::Regular { size }, loading);
            matches!(opened, Err(GatherFault::Unread))
        }
        Err(_) => false,
    }
}

/// Writes this many first bytes of an image into a file of its own, and returns its path.
fn written(rt: &HostRuntime, name: u8, data: u8, size: usize) -> Result<String, Fail> {
    let temporary = env::temp_dir(rt)?;
    let process = process::id(rt.process());
    let parent = temporary.as_str();
    let path = format!(in rt.alloc(); "{parent}/strata-opening-{name}-{process}.img")?;
    let mut bytes = image(rt.alloc(), name, data)?;
    bytes.truncate(size);
    fs::write(rt, path.as_str(), bytes.as_slice())?;
    Ok(path)
}

#[test]
fn each_file_is_opened_in_its_own_way(rt: HostRuntime) -> Result<(), Fail> {
    let low = written(&rt, b'l', b'1', 592)?;
    let high = written(&rt, b'h', b'2', 592)?;
    let (a, b) = (low.as_str(), high.as_str());
    let told = seen_at(&rt, rt.alloc(), a, b, "/dev/null");
    let unread = ["/", "/dev/null/none"].map(|path| seen_at(&rt, rt.alloc(), a, b, path).err());
    fs::remove_file(&rt, a)?;
    fs::remove_file(&rt, b)?;
    let (l, h) = (gathered(b'l', b'1'), gathered(b'h', b'2'));
    let none = Seen {
        name: None,
        data: None,
        in_memory: true,
        size: 0,
        read: None,
    };
    let want = [l, h, h, none, l, h, none, l, h];
    assert!(rt; told.is_ok_and(|all| all.as_slice() == want.as_slice()));
    assert_eq!(rt; unread, [Some(FilesFault::Unread { image: 3 }); 2]);
    Ok(())
}

#[test]
fn a_file_is_opened_by_its_kind(rt: HostRuntime) -> Result<(), Fail> {
    let whole = written(&rt, b'w', b'1', 592)?;
    let cut = written(&rt, b'c', b'2', 540)?;
    let (w, c) = (whole.as_str(), cut.as_str());
    let told = [
        seen_as(&rt, w, FileKind::Regular { size: 592 }),
        seen_as(&rt, w, FileKind::BlockDevice),
        seen_as(&rt, w, FileKind::Stream),
        seen_as(&rt, c, FileKind::Stream),
        seen_as(&rt, c, FileKind::Regular { size: 540 }),
    ];
    // the header ends before this size, and after the file's last byte
    let is_told = is_unread(&rt, c, 592);
    fs::remove_file(&rt, w)?;
    fs::remove_file(&rt, c)?;
    let all = gathered(b'w', b'1');
    let all_in_memory = Seen {
        in_memory: true,
        ..all
    };
    let short = Seen {
        name: None,
        data: None,
        in_memory: false,
        size: 540,
        read: None,
    };
    let short_in_memory = Seen {
        in_memory: true,
        ..short
    };
    let want = [all, all, all_in_memory, short_in_memory, short];
    assert_eq!(rt; told, want.map(|seen| Some(seen)));
    assert!(rt; is_told);
    Ok(())
}

#[test]
fn data_are_read_by_two_threads(rt: HostRuntime) -> Result<(), Fail> {
    let path = written(&rt, b't', b'3', 592)?;
    let in_file = data_as(
        &rt,
        rt.alloc(),
        path.as_str(),
        FileKind::Regular { size: 592 },
    );
    let in_memory = data_as(&rt, rt.alloc(), path.as_str(), FileKind::Stream);
    fs::remove_file(&rt, path.as_str())?;
    let data = (Some([b'3'; 4]), Some([b'3'; 4]));
    assert_eq!(rt; in_file, data);
    assert_eq!(rt; in_memory, data);
    Ok(())
}
