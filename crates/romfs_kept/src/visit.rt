//! A header that is read and added, with its name and the target of a symbolic link.
//!
//! Most names are short, so a header is read with 16 bytes of its name first, then with 48, and
//! then with all that a name may have.

ghost use Rattle.std.specs.Prelude.{◌≡◌, ◌+◌, ◌*◌, ◌/◌, ◌%◌, ◌≤◌, length, min, IfOk, OnOk, IfErr};
ghost use Rattle.romfs_format.specs.declared.limits.TheConstants.{MAX_TARGET_SIZE};
ghost use Rattle.romfs_format.specs.declared.head.Kind.TheVariants.{SymLink};
ghost use Rattle.romfs_format.specs.Fields.{kind_of, word};
ghost use Rattle.romfs_kept.specs.Reads.{IsCause, IsReadAt, IsEndIn, IsHeadRead, AreAdded};
ghost use Rattle.romfs_kept.specs.Walk.{HasAddedTarget, HasVisited};

use crate::fault::GatherFault;
use crate::pieces::{Piece, add_row};
use crate::reader::Reader;
use devices::Contents;
use romfs_format::Kind;
use romfs_format::limits::{HEAD_SIZE, MAX_TARGET_SIZE};
use romfs_format::read::{kind_of, padded, word};
use romfs_held::BLOCK_SIZE;
use std::alloc::Allocator;

/// A header and its name, if the name has at most 15 bytes.
const SHORT: usize = 32;

/// The same, if it has at most 47.
const MIDDLE: usize = 64;

/// The same, for all names.
const LONG: usize = 272;

/// The bytes of blocks that a target has at most.
const TARGET: usize = 4096;

/// The first words of a header.
#[derive(Clone, Copy)]
pub struct Words {
    pub first: u32,
    pub second: u32,
    pub third: u32,
}

/// Reads the header at a place, its name and its target, and adds them.
pub fn visit<S: Contents, A: Allocator>(
    reader: &mut Reader<'_, S, A>,
    at: u32,
    pieces: &mut Vec<Piece, A>,
) -> Result<Words, GatherFault>
    requires { at % 16 ≡ 0 }
    ensures same { reader.new ≡ reader.old }
    ensures known { IfOk result (λ words. HasVisited S.source reader.new at
        pieces.old.items pieces.new.items words.first words.second) }
    ensures err { IfErr result (IsCause (S.source reader.new.source)) }
{
    let mut short = [0u8; SHORT];
    if let Some(count) = read_head(reader, at, &mut short)? {
        return keep(reader, at, &short[..count], pieces);
    }
    let mut middle = [0u8; MIDDLE];
    if let Some(count) = read_head(reader, at, &mut middle)? {
        return keep(reader, at, &middle[..count], pieces);
    }
    let mut long = [0u8; LONG];
    let end = read_head(reader, at, &mut long)?;
    let count = end.unwrap_or(LONG);
    keep(reader, at, &long[..count], pieces)
}

/// Reads as many bytes of a header and its name as a room has, and returns the end of what is kept,
/// if the name ends among them.
fn read_head<S: Contents, A: Allocator>(
    reader: &mut Reader<'_, S, A>,
    at: u32,
    room: &mut [u8],
) -> Result<Option<usize>, GatherFault>
    requires long { 16 ≤ length room.old }
    requires few { length room.old ≤ 272 }
    requires whole { length room.old % 16 ≡ 0 }
    ensures same { reader.new ≡ reader.old }
    ensures room { OnOk result (IsReadAt S.source reader.new at room.new) }
    ensures end { IfOk result (IsEndIn room.new) }
    ensures err { IfErr result (IsCause (S.source reader.new.source)) }
{
    reader.read(at, room)?;
    Ok(end_in(room))
}

/// The end of what is kept of a header and its name: the end of the block in which the name ends,
/// if it ends among them.
fn end_in(near: &[u8]) -> Option<usize>
    requires whole { length near.now % 16 ≡ 0 }
    ensures { IsEndIn near.now result }
{
    for i in HEAD_SIZE..near.len() {
        if near[i] == 0 {
            return Some(i / BLOCK_SIZE * BLOCK_SIZE + BLOCK_SIZE);
        }
    }
    None
}

/// Adds a header and its name, and reads and adds its target.
fn keep<S: Contents, A: Allocator>(
    reader: &mut Reader<'_, S, A>,
    at: u32,
    head: &[u8],
    pieces: &mut Vec<Piece, A>,
) -> Result<Words, GatherFault>
    requires at { at % 16 ≡ 0 }
    requires long { 16 ≤ length head.now }
    requires few { length head.now ≤ 272 }
    requires whole { length head.now % 16 ≡ 0 }
    requires head { IsHeadRead S.source reader.old at head.now }
    ensures same { reader.new ≡ reader.old }
    ensures known { IfOk result (λ words. HasVisited S.source reader.new at
        pieces.old.items pieces.new.items words.first words.second) }
    ensures err { IfErr result (IsCause (S.source reader.new.source)) }
{
    add_row(pieces, at / 16, head)?;
    reader.note_used(head.len());
    let words = words_of(head);
    keep_target(reader, at as usize + head.len(), words, pieces)?;
    Ok(words)
}

/// The first words of a header.
fn words_of(head: &[u8]) -> Words
    requires { 16 ≤ length head.now }
    ensures first { result.first ≡ word head.now 0 }
    ensures second { result.second ≡ word head.now 4 }
    ensures third { result.third ≡ word head.now 8 }
{
    Words {
        first: word(head, 0),
        second: word(head, 4),
        third: word(head, 8),
    }
}

/// Reads and adds the target that begins at a place, if the words are those of a symbolic link.
fn keep_target<S: Contents, A: Allocator>(
    reader: &mut Reader<'_, S, A>,
    from: usize,
    words: Words,
    pieces: &mut Vec<Piece, A>,
) -> Result<(), GatherFault>
    requires from { from % 16 ≡ 0 }
    ensures same { reader.new ≡ reader.old }
    ensures known { OnOk result (HasAddedTarget S.source reader.new from words.first
        words.third pieces.old.items pieces.new.items) }
    ensures err { IfErr result (IsCause (S.source reader.new.source)) }
{
    let count = target_len(words, (reader.size() as usize).saturating_sub(from));
    if count == 0 {
        return Ok(());
    }
    let len = padded(count);
    if len <= MIDDLE {
        let mut room = [0u8; MIDDLE];
        keep_row(reader, from as u32, &mut room[..len], pieces)?;
        return Ok(());
    }
    let mut room = [0u8; TARGET];
    keep_row(reader, from as u32, &mut room[..len], pieces)?;
    Ok(())
}

/// How many bytes of a target are kept: as many as the image has, unless it is too long; none of a
/// header that is not a symbolic link.
fn target_len(words: Words, room: usize) -> usize
    ensures link { kind_of (words.first % 8) ≡ SymLink → words.third ≤ MAX_TARGET_SIZE →
        result ≡ min words.third room }
    ensures within { result ≤ room }
    ensures few { result ≤ MAX_TARGET_SIZE }
{
    match kind_of(words.first) {
        Kind::SymLink if words.third <= MAX_TARGET_SIZE => (words.third as usize).min(room),
        _ => 0,
    }
}

/// Reads as many bytes as a room has from a place on, and adds them.
pub fn keep_row<S: Contents, A: Allocator>(
    reader: &mut Reader<'_, S, A>,
    at: u32,
    room: &mut [u8],
    pieces: &mut Vec<Piece, A>,
) -> Result<(), GatherFault>
    requires at { at % 16 ≡ 0 }
    requires few { length room.old ≤ 4096 }
    ensures same { reader.new ≡ reader.old }
    ensures room { OnOk result (IsReadAt S.source reader.new at room.new) }
    ensures known { OnOk result (AreAdded S.source reader.new (at / 16)
        (length room.old / 16) pieces.old.items pieces.new.items) }
    ensures err { IfErr result (IsCause (S.source reader.new.source)) }
{
    reader.read(at, room)?;
    add_row(pieces, at / 16, room)?;
    reader.note_used(room.len());
    Ok(())
}
