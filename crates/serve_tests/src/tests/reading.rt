//! Data in a file that returns few bytes at a time and fails from a place on: a READ gets its bytes
//! or EIO, and the run continues.

use devices::{Contents, Unread};
use node_reader::Table;
use serve_core::Served;
use serve_test_kit::runs::{ran_from, sample_table};
use std::alloc::Global;
use std::test::Fail;
use std::thread::Threads;
use test_kit::sample_images::sample;
use test_kit::script::{script, script_replies};

/// The reply with EIO to the script's READ, which is its third request.
const UNREAD: [u8; 16] = [16, 0, 0, 0, 251, 255, 255, 255, 3, 0, 0, 0, 0, 0, 0, 0];

/// A file of these bytes that returns at most three at once, and fails from a place on.
#[derive(Drop)]
struct Slow<'a> {
    bytes: &'a [u8],
    fails_at: u32,
}

impl Contents for Slow<'_> {
    ghost use Rattle.devices.specs.Sources.{unknown};

    ghost source = { λ _. unknown };

    fn size(&self) -> u64 {
        self.bytes.len() as u64
    }

    fn read_at(&self, room: &mut [u8], offset: u64) -> Result<usize, Unread> {
        let bytes = self.bytes;
        if u64::from(self.fails_at) <= offset {
            return Err(Unread);
        }
        if bytes.len() as u64 <= offset {
            return Ok(0);
        }
        let rest = &bytes[offset as usize..];
        let count = rest.len().min(room.len()).min(3);
        room[..count].copy_from_slice(&rest[..count]);
        Ok(count)
    }
}

/// Whether the script gets these replies over a table whose layer is in such a file: with the bytes
/// that its READ asks for, or with EIO instead.
fn is_told<R: Threads + Sync>(
    rt: &R,
    global: Global,
    table: &Table<Global>,
    file: Slow<'_>,
    is_read: bool,
) -> Option<bool> {
    let stream = script(global).ok()?;
    let wanted = wanted(global, is_read)?;
    let files = [file];
    let served = Served {
        table,
        files: &files,
    };
    let ran = ran_from(rt, global, served, &stream)?;
    Some(ran.end().is_ok() && ran.put == wanted)
}

/// The replies to the script, or those with EIO for the READ.
fn wanted(global: Global, is_read: bool) -> Option<Vec<u8>> {
    let replies = script_replies(global).ok()?;
    if is_read {
        return Some(replies);
    }
    let mut other = replies.get(..224)?.to_vec(global).ok()?;
    other.extend_from_slice(&UNREAD).ok()?;
    other.extend_from_slice(replies.get(1144..)?).ok()?;
    Some(other)
}

/// The first place at which a file fails and the script gets wrong replies. The requested data
/// begin at 128, and are read from 4,096 to their end at 5,000.
fn wrong_place<R: Threads + Sync>(
    rt: &R,
    global: Global,
    table: &Table<Global>,
    bytes: &[u8],
) -> Option<u32> {
    for (fails_at, is_read) in [(5128, true), (5127, false), (4224, false)] {
        let file = Slow { bytes, fails_at };
        if is_told(rt, global, table, file, is_read) != Some(true) {
            return Some(fails_at);
        }
    }
    None
}

/// The same over the sample image, which has these bytes; none if there is no table of it.
fn wrong_over<R: Threads + Sync>(rt: &R, global: Global, bytes: &[u8]) -> Option<Option<u32>> {
    let table = sample_table(rt, global)?;
    Some(wrong_place(rt, global, &table, bytes))
}

#[test]
fn what_a_file_gives_is_told(rt: HostRuntime) -> Result<(), Fail> {
    let image = sample(rt.alloc()).ok().ok_or("an image")?;
    let wrong = wrong_over(&rt, rt.alloc(), &image);
    drop(image);
    assert_eq!(rt; wrong, Some(None));
    Ok(())
}
