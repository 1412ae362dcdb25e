//! Rows of a directory as bytes, one after another.

ghost use Rattle.std.specs.Prelude.{◌≡◌, ◌≤◌, ◌<◌, ◌+◌, ◌/◌, ◌^◌, ◌++◌, ◌-◌, length, true, None, OnOk, OnErr, nat_lt, if◌then◌else◌, IfSome};
ghost use Rattle.std.specs.Option.{option_map_or};
ghost use Rattle.fuse_wire.specs.Replies.{reply_with};
ghost use Rattle.fuse_wire.specs.Appends.{Appends, MakesRoom, PutsUpTo};
ghost use Rattle.node_reader.specs.Readers.{attr_at};
ghost use Rattle.fuse_answer.specs.Listings.{IsWhole, IsLineAt, IsPaddedAt, IsRow, listed_data, listed_moves, row_bytes_at, size_of, type_at};
ghost use Rattle.reply_model.specs.Balances.{AreWithin, IsMoved};

use crate::balances::add_row;
use crate::listing::{Listing, count, fit, fits};
use fuse_wire::limits::OUT_HEADER_SIZE;
use fuse_wire::{
    Attr, Dirent, Replies, put_data_head, put_dirent, put_direntplus, put_short_direntplus,
    set_data_head,
};
use node_reader::Table;
use std::alloc::{AllocError, Allocator};

/// The names of the first two rows, followed by zeros.
const DOT: &[u8; 22] = b".\0\0\0\0\0\0\0\0\0\0\0\0\0\0\0\0\0\0\0\0\0";

const DOTS: &[u8; 22] = b"..\0\0\0\0\0\0\0\0\0\0\0\0\0\0\0\0\0\0\0\0";

/// Appends the reply with a directory's rows, in one growth: once there is room for it, nothing
/// fails. The lookup that a row gives is added to the balances when the row is appended.
#[inline(never)]
pub(crate) fn put_rows_and_move<A: Allocator, O: Allocator>(
    table: &Table<A>,
    unique: u64,
    rows: &Listing<'_, A>,
    out: &mut Replies<O>,
    balances: &mut [i128],
) -> Result<(), AllocError>
    requires whole { IsWhole rows.now }
    requires within { AreWithin (2 ^ 123) balances.old }
    ensures reply { Appends result out.old out.new
        (reply_with unique (listed_data table.now rows.now)) }
    ensures moves { OnOk result (IsMoved (listed_moves rows.now) balances.old balances.new) }
    ensures none { OnErr result (balances.new ≡ balances.old) }
{
    make_room(rows, out)?;
    let start = out.len();
    put_data_head(out, unique, 0)?;
    put_listed(table, rows, out, balances)?;
    set_data_head(out, start, unique);
    Ok(())
}

/// The number and the name of the row with this index.
pub(crate) fn line_at<'a, A: Allocator>(rows: &Listing<'a, A>, index: usize) -> (u64, &'a [u8])
    requires { index < 2 + length rows.now.children.now }
    ensures { IsLineAt rows.now index result.0 result.1.now }
{
    match index {
        0 => (rows.number, b".".as_slice()),
        1 => (rows.parent, b"..".as_slice()),
        _ => {
            let row = &rows.children[index - 2];
            (row.number, row.name())
        }
    }
}

// Makes room for a header and the rows. Their exact size is computed only if there is less room
// than rows may take, which is rare.
#[inline(always)]
fn make_room<A: Allocator, O: Allocator>(
    rows: &Listing<'_, A>,
    out: &mut Replies<O>,
) -> Result<(), AllocError>
    requires { IsWhole rows.now }
    ensures { MakesRoom result out.old out.new (16 + size_of rows.now) }
{
    if out.room_left() < OUT_HEADER_SIZE + rows.room {
        let (_, size) = fit(rows);
        out.make_room(OUT_HEADER_SIZE + size)?;
    }
    Ok(())
}

// Appends the rows, if there is room for them, and adds the lookups that they give: up to the first
// row that does not fit in the rest of the listing's room, or to the last.
#[inline(always)]
fn put_listed<A: Allocator, O: Allocator>(
    table: &Table<A>,
    rows: &Listing<'_, A>,
    out: &mut Replies<O>,
    balances: &mut [i128],
) -> Result<(), AllocError>
    requires whole { IsWhole rows.now }
    requires room { length out.old.items + size_of rows.now ≤ out.old.room }
    requires within { AreWithin (2 ^ 123) balances.old }
    ensures rows { Appends result out.old out.new (listed_data table.now rows.now) }
    ensures moves { OnOk result (IsMoved (listed_moves rows.now) balances.old balances.new) }
{
    let most = out.len() + rows.room;
    let mut index = rows.from;
    while index < count(rows.children) {
        if !put_short(table, rows, index, out, most) {
            if !fits(rows, index, most - out.len()) {
                return Ok(());
            }
            put_any(table, rows, index, out)?;
        }
        add_row(rows, index, balances);
        index += 1;
    }
    Ok(())
}

// Appends the row of READDIRPLUS with this index if its name is short and the replies then have at
// most this many bytes. Otherwise, or without room, returns false and appends nothing.
#[inline(always)]
fn put_short<A: Allocator, O: Allocator>(
    table: &Table<A>,
    rows: &Listing<'_, A>,
    index: usize,
    out: &mut Replies<O>,
    most: usize,
) -> bool
    requires { IsRow rows.now index }
    ensures { PutsUpTo most result out.old out.new (row_bytes_at table.now rows.now index) }
{
    if !rows.with_entries {
        return false;
    }
    let Some(padded) = padded_at(rows, index) else {
        return false;
    };
    if index < 2 {
        let (row, entry) = row_at(table, rows, index);
        return put_short_direntplus(out, entry.as_ref(), &row, padded, most);
    }
    let (ino, name) = line_at(rows, index);
    let Some(attr) = table.attr(ino) else {
        return false;
    };
    let off = index as u64 + 1;
    let row = Dirent {
        ino,
        off,
        file_type: attr.mode / 4096,
        name,
    };
    put_short_direntplus(out, Some(&attr), &row, padded, most)
}

// Appends the row with this index.
fn put_any<A: Allocator, O: Allocator>(
    table: &Table<A>,
    rows: &Listing<'_, A>,
    index: usize,
    out: &mut Replies<O>,
) -> Result<(), AllocError>
    requires there { IsRow rows.now index }
    requires short { length (row_bytes_at table.now rows.now index) < 2 ^ 32 }
    ensures { Appends result out.old out.new (row_bytes_at table.now rows.now index) }
{
    let (row, entry) = row_at(table, rows, index);
    if rows.with_entries {
        put_direntplus(out, entry.as_ref(), &row)
    } else {
        put_dirent(out, &row)
    }
}

// The row with this index, and its entry.
#[inline(always)]
fn row_at<'a, A: Allocator>(
    table: &Table<A>,
    rows: &Listing<'a, A>,
    index: usize,
) -> (Dirent<'a>, Option<Attr>)
    requires { IsRow rows.now index }
    ensures line { IsLineAt rows.now index result.0.ino result.0.name.now }
    ensures place { result.0.off ≡ index + 1 }
    ensures kind { result.0.file_type ≡ type_at table.now result.0.ino }
    ensures entry { result.1
        ≡ (if nat_lt 2 (index + 1) then attr_at table.now result.0.ino else None) }
{
    let (ino, name) = line_at(rows, index);
    let attr = table.attr(ino);
    let row = Dirent {
        ino,
        off: index as u64 + 1,
        file_type: file_type(attr),
        name,
    };
    let entry = entry_of(row.off, attr);
    (row, entry)
}

// The name of the row with this index, followed by zeros, if it is short.
#[inline(always)]
fn padded_at<'a, A: Allocator>(rows: &Listing<'a, A>, index: usize) -> Option<&'a [u8; 22]>
    requires { index < 2 + length rows.now.children.now }
    ensures { IfSome result (λ padded. IsPaddedAt rows.now index padded.now) }
{
    match index {
        0 => Some(DOT),
        1 => Some(DOTS),
        _ => {
            let row = &rows.children[index - 2];
            row.padded_name()
        }
    }
}

// The upper bits of a node's mode.
fn file_type(attr: Option<Attr>) -> u32
    ensures { result ≡ option_map_or (λ a. a.mode / 2 ^ 12) attr 0 }
{
    match attr {
        Some(attr) => attr.mode / 4096,
        None => 0,
    }
}

// The entry of a row; the first two, which are `.` and `..`, have none.
fn entry_of(off: u64, attr: Option<Attr>) -> Option<Attr>
    ensures { result ≡ (if nat_lt 2 off then attr else None) }
{
    if 2 < off { attr } else { None }
}
