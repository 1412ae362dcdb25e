//! Files that are read in full.

ghost use Rattle.std.specs.Prelude.{◌≡◌, IfSome, OnOk, IfOk, IfErr};
ghost use Rattle.std.specs.Io.KnownBytes.{IsAtEnd};
ghost use Rattle.devices.specs.Counting.{no_pulls};
ghost use Rattle.romfs_files.specs.Files.{AreBytesOf};
ghost use Rattle.romfs_files.specs.Reading.{IsReadFault, IsReadThrough};

use devices::limits::{MAX_TURNS, PULL_SIZE};
use devices::{Source, Tap};
use romfs_kept::GatherFault;
use std::alloc::Allocator;
use std::fs::OpenFile;
use std::io::Read;

/// Reads a file to its end. If it reports its length, memory is taken once. `Unread` if a read
/// fails, or if 2^40 reads meet no end.
pub fn read_file<F: Read + OpenFile + Drop, A: Allocator>(
    alloc: A,
    file: F,
) -> Result<Vec<u8, A>, GatherFault>
    ensures ok { IfOk result (AreBytesOf (F.remaining file)) }
    ensures err { IfErr result IsReadFault }
{
    let length = told_length(&file);
    read_all(alloc, &mut Tap::new(file), length)
}

// Reads a new source to its end. `Unread` if the last pull failed, or if 2^40 pulls met no end.
// Memory is taken once if the source has no more than `length` bytes.
fn read_all<S: Source, A: Allocator>(
    alloc: A,
    source: &mut S,
    length: usize,
) -> Result<Vec<u8, A>, GatherFault>
    requires { (S.state source.old).counts ≡ no_pulls }
    ensures bytes { IfOk result (λ bytes.
        IfSome (S.state source.old).left (λ known. bytes.items ≡ known)) }
    ensures end { OnOk result (IsAtEnd (S.state source.new).left) }
    ensures pulls { IsReadThrough (S.state source.new).counts result }
    ensures err { IfErr result IsReadFault }
{
    let mut bytes = Vec::with_capacity(alloc, length)?;
    let mut room = [0u8; PULL_SIZE];
    for _pull in 0..MAX_TURNS {
        match source.pull(&mut room) {
            Ok(0) => return Ok(bytes),
            Ok(count) => bytes.extend_from_slice(&room[..count])?,
            Err(_) => return Err(GatherFault::Unread),
        }
    }
    Err(GatherFault::Unread)
}

// The length that a file reports; 0 if it reports none.
fn told_length<F: OpenFile>(file: &F) -> usize {
    match file.metadata() {
        Ok(metadata) => metadata.len() as usize,
        Err(_) => 0,
    }
}
