//! The rows of a directory that answer READDIR and READDIRPLUS.
//!
//! Rows have indices from 0: `.`, `..`, and then the children. The answer to a request has the rows
//! from its offset on that fit completely in its size. An answer holds their start and their room:
//! the last row is found while they are written, so each is read once, and no row before the offset
//! is read.

ghost use Rattle.std.specs.Prelude.{◌≡◌, ◌≤◌, ◌<◌, ◌+◌, length, min, slice_index};
ghost use Rattle.fuse_wire.specs.declared.limits.TheConstants.{MAX_DATA_SIZE};
ghost use Rattle.fuse_answer.specs.Answers.{DecidesAt};
ghost use Rattle.fuse_answer.specs.Listings.{listing_op, fits_at, is_cut_short, ListsRows, IsWhole, Fits, RowSize, name_lengths};

use crate::node::kind_of;
use crate::outcome::Answer;
use fuse_wire::limits::MAX_DATA_SIZE;
use fuse_wire::{Errno, dirent_size};
use node_reader::{Row, Table};
use reply_model::Agreement;
use romfs_format::Kind;
use std::alloc::Allocator;

/// The bytes of a `struct fuse_entry_out`, which precedes each row of READDIRPLUS.
const ENTRY_SIZE: usize = 128;

/// The rows of a directory that answer a request: those from the index `from` on, as many as fit
/// completely in `room` bytes.
#[derive(Drop)]
pub(crate) struct Listing<'a, A: Allocator> {
    pub(crate) with_entries: bool,
    pub(crate) number: u64,
    pub(crate) parent: u64,
    pub(crate) children: &'a [Row<A>],
    pub(crate) from: usize,
    pub(crate) room: usize,
}

/// The answer to READDIR, or to READDIRPLUS if rows have entries: the rows after the first `offset`
/// ones, as many as fit completely in the size.
#[inline(always)]
pub(crate) fn list<'a, A: Allocator>(
    table: &'a Table<A>,
    number: u64,
    offset: u64,
    size: u32,
    with_entries: bool,
) -> Result<Answer<'a, A>, Errno>
    ensures { (agreed : Agreement)
        → DecidesAt table.now agreed number (listing_op with_entries offset size) result }
{
    if kind_of(table, number)? != Kind::Directory {
        return Err(Errno::ENOTDIR);
    }
    if MAX_DATA_SIZE < size {
        return Err(Errno::EINVAL);
    }
    match listed(table, number, offset, size as usize, with_entries) {
        None => Err(Errno::ENOTDIR),
        Some(rows) if is_too_small(&rows) => Err(Errno::EINVAL),
        Some(rows) => Ok(Answer::Rows(rows)),
    }
}

/// How many rows a directory has.
#[inline(always)]
pub(crate) fn count<A: Allocator>(children: &[Row<A>]) -> usize
    ensures { result ≡ 2 + length children.now }
{
    2 + children.len()
}

/// Whether a row with this index exists, and there is room for it.
#[inline(always)]
pub(crate) fn fits<A: Allocator>(rows: &Listing<'_, A>, index: usize, room: usize) -> bool
    requires { room ≤ MAX_DATA_SIZE }
    ensures { result ≡ fits_at rows.now index room }
{
    index < count(rows.children)
        && row_size(rows.with_entries, name_length(rows.children, index), room).is_some()
}

/// Up to which index the rows of a listing fit in its room, and how many bytes they take.
#[inline(always)]
pub(crate) fn fit<A: Allocator>(rows: &Listing<'_, A>) -> (usize, usize)
    requires { IsWhole rows.now }
    ensures { Fits rows.now.with_entries rows.now.children.now rows.now.from rows.now.room
        result.0 result.1 }
{
    let end = count(rows.children);
    let mut until = rows.from;
    let mut room = rows.room;
    while until < end {
        match row_size(rows.with_entries, name_length(rows.children, until), room) {
            None => return (until, rows.room - room),
            Some(bytes) => {
                room -= bytes;
                until += 1;
            }
        }
    }
    (until, rows.room - room)
}

// The rows after the first `offset` ones that fit in the size; none if the number is not a
// directory's.
#[inline(always)]
fn listed<'a, A: Allocator>(
    table: &'a Table<A>,
    number: u64,
    offset: u64,
    size: usize,
    with_entries: bool,
) -> Option<Listing<'a, A>>
    requires { size ≤ MAX_DATA_SIZE }
    ensures { ListsRows table.now number offset size with_entries result }
{
    let parent = table.parent(number)?;
    let children = table.rows(number);
    let from = start(offset, children);
    Some(Listing {
        with_entries,
        number,
        parent,
        children,
        from,
        room: size,
    })
}

// Whether a row remains, but not even one fits in the room.
#[inline(always)]
fn is_too_small<A: Allocator>(rows: &Listing<'_, A>) -> bool
    requires { IsWhole rows.now }
    ensures { result ≡ is_cut_short rows.now }
{
    rows.from < count(rows.children) && !fits(rows, rows.from, rows.room)
}

// The index of the row after the first `offset` ones, or the index after the last row.
#[inline(always)]
fn start<A: Allocator>(offset: u64, children: &[Row<A>]) -> usize
    ensures { result ≡ min offset (2 + length children.now) }
{
    let rows = count(children);
    if offset < rows as u64 {
        offset as usize
    } else {
        rows
    }
}

// The length of the name of the row with this index.
#[inline(always)]
fn name_length<A: Allocator>(children: &[Row<A>], index: usize) -> usize
    requires { index < 2 + length children.now }
    ensures { result ≡ slice_index (name_lengths children.now) index }
{
    match index {
        0 => 1,
        1 => 2,
        _ => {
            let row = &children[index - 2];
            row.name().len()
        }
    }
}

// The size of a row whose name has this many bytes, if there is room for them.
#[inline(always)]
fn row_size(with_entries: bool, name_length: usize, room: usize) -> Option<usize>
    requires { room ≤ MAX_DATA_SIZE }
    ensures { RowSize with_entries name_length room result }
{
    if room < name_length {
        return None;
    }
    let entry = if with_entries { ENTRY_SIZE } else { 0 };
    let bytes = dirent_size(name_length) + entry;
    (bytes <= room).then_some(bytes)
}
