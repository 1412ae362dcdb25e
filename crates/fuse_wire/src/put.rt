//! Replies and rows as bytes. Each writer appends exactly its bytes; if the vector has no room for
//! them and cannot grow, it is unchanged.
#![tactic(auto, unfolding(crate::specs::Replies::reply_with), using(crate::proofs::Sizes::sizes))]

ghost use Rattle.std.specs.Prelude.{◌≡◌, ◌++◌, ◌<◌, ◌≤◌, ◌+◌, ◌-◌, ◌^◌, [], length, take, drop, vec_len, IsFalse};
ghost use Rattle.std.specs.Option.{option_copied, option_map_or};
ghost use Rattle.fuse_wire.specs.Structures.{zeros, init_out, entry_out, negative_entry_out, attr_out, open_out, getxattr_out, statfs_out, dirent_size, padding, row_bytes, plus_row_bytes};
ghost use Rattle.fuse_wire.specs.Replies.{reply_head, reply_with, error_reply};
ghost use Rattle.fuse_wire.specs.Appends.{Appends, PutsUpTo, IsTooMuch};
ghost use Rattle.fuse_wire.specs.declared.put.TheConstants.{DIRENT_FRONT_SIZE, SHORT_ROW_SIZE};

use crate::limits::OUT_HEADER_SIZE;
use crate::replies::{Replies, clear_behind};
use crate::structure::{set_bytes, set_zeros};
use crate::structures::{
    ATTR_OUT_SIZE, COMPAT_22_INIT_OUT_SIZE, ENTRY_OUT_SIZE, GETXATTR_OUT_SIZE, INIT_OUT_SIZE,
    OPEN_OUT_SIZE, STATFS_OUT_SIZE, attr_out, dirent_front, entry_out, error_head, getxattr_out,
    head, init_out, negative_entry_out, open_out, statfs_out,
};
use crate::{Attr, Dirent, Errno, InitOut};
use std::alloc::{AllocError, Allocator};

/// The size of a `struct fuse_dirent` before its name.
const DIRENT_FRONT_SIZE: usize = 24;

/// The bytes over which a row with a short name is set: the entry, the front, and the name with the
/// zeros after it.
pub const SHORT_ROW_SIZE: usize = 176;

/// The padding after a name, up to a multiple of 8 bytes: fewer than these.
const PADDING: [u8; 8] = [0; 8];

/// Appends a reply without data: a `struct fuse_out_header` of 16 bytes alone, with no error.
pub fn put_head<A: Allocator>(out: &mut Replies<A>, unique: u64) -> Result<(), AllocError>
    ensures { Appends result out.old out.new (reply_with unique []) }
{
    put_data_head(out, unique, 0)
}

/// Appends the header of a reply with `size` bytes of data, which follow: a `struct
/// fuse_out_header` of 16 bytes, with no error.
pub fn put_data_head<A: Allocator>(
    out: &mut Replies<A>,
    unique: u64,
    size: usize,
) -> Result<(), AllocError>
    requires { 16 + size < 2 ^ 32 }
    ensures { Appends result out.old out.new (reply_head unique size) }
{
    out.stand(OUT_HEADER_SIZE)?;
    out.len = head(out.bytes.as_mut_slice(), out.len, unique, size);
    Ok(())
}

/// Sets the header of the last reply, which begins at this place: the length of the data after it,
/// and no error.
#[inline(always)]
pub fn set_data_head<A: Allocator>(out: &mut Replies<A>, start: usize, unique: u64)
    requires there { start + 16 ≤ length out.old.items }
    requires size { length out.old.items < start + 2 ^ 32 }
    ensures items { out.new.items ≡ take start out.old.items
        ++ reply_with unique (drop (start + 16) out.old.items) }
    ensures room { out.new.room ≡ out.old.room }
{
    let size = out.len - start - OUT_HEADER_SIZE;
    let front = &mut out.bytes.as_mut_slice()[start..start + OUT_HEADER_SIZE];
    let _ = head(front, 0, unique, size);
}

/// Appends the reply with an error: a `struct fuse_out_header` of 16 bytes alone, with the negated
/// number.
pub fn put_error<A: Allocator>(
    out: &mut Replies<A>,
    unique: u64,
    errno: Errno,
) -> Result<(), AllocError>
    ensures { Appends result out.old out.new (error_reply unique errno) }
{
    out.stand(OUT_HEADER_SIZE)?;
    out.len = error_head(out.bytes.as_mut_slice(), out.len, unique, errno);
    Ok(())
}

/// Appends a reply with these bytes of data after its header, in one growth.
pub fn put_data<A: Allocator>(
    out: &mut Replies<A>,
    unique: u64,
    bytes: &[u8],
) -> Result<(), AllocError>
    requires { 16 + length bytes.now < 2 ^ 32 }
    ensures { Appends result out.old out.new (reply_with unique bytes.now) }
{
    let mut reply = [0; OUT_HEADER_SIZE];
    let end = head(&mut reply, 0, unique, bytes.len());
    put_three(out, &reply[..end], bytes, &[])
}

/// Appends the reply to an INIT that is not refused (`struct fuse_init_out`): 80 bytes, or 40 if
/// the client speaks a minor version below 23.
pub fn put_init<A: Allocator>(
    out: &mut Replies<A>,
    unique: u64,
    init: &InitOut,
) -> Result<(), AllocError>
    ensures { Appends result out.old out.new (reply_with unique (init_out init.now)) }
{
    let mut reply = [0; OUT_HEADER_SIZE + INIT_OUT_SIZE];
    let at = head(&mut reply, 0, unique, init_out_size(init));
    let end = init_out(&mut reply, at, init);
    out.append(&reply[..end])
}

// The size of the answer to an INIT.
fn init_out_size(init: &InitOut) -> usize
    ensures size { result ≡ length (init_out init.now) }
    ensures most { result ≤ 64 }
{
    match *init {
        InitOut::Terms { minor, .. } if minor < 23 => COMPAT_22_INIT_OUT_SIZE,
        _ => INIT_OUT_SIZE,
    }
}

/// Appends the reply that names a node, of 144 bytes (`struct fuse_entry_out`).
pub fn put_entry<A: Allocator>(
    out: &mut Replies<A>,
    unique: u64,
    node: &Attr,
) -> Result<(), AllocError>
    ensures { Appends result out.old out.new (reply_with unique (entry_out node.now)) }
{
    out.stand(OUT_HEADER_SIZE + ENTRY_OUT_SIZE)?;
    let bytes = out.bytes.as_mut_slice();
    let at = head(bytes, out.len, unique, ENTRY_OUT_SIZE);
    out.len = entry_out(bytes, at, node);
    Ok(())
}

/// Appends the reply that no entry has the name, of 144 bytes (`struct fuse_entry_out`, with a
/// nodeid of 0): for an hour the client need not ask again.
pub fn put_negative_entry<A: Allocator>(out: &mut Replies<A>, unique: u64) -> Result<(), AllocError>
    ensures { Appends result out.old out.new (reply_with unique negative_entry_out) }
{
    out.stand(OUT_HEADER_SIZE + ENTRY_OUT_SIZE)?;
    let bytes = out.bytes.as_mut_slice();
    let at = head(bytes, out.len, unique, ENTRY_OUT_SIZE);
    out.len = negative_entry_out(bytes, at);
    Ok(())
}

/// Appends the reply with a node's attributes, of 120 bytes (`struct fuse_attr_out`).
pub fn put_attr<A: Allocator>(
    out: &mut Replies<A>,
    unique: u64,
    node: &Attr,
) -> Result<(), AllocError>
    ensures { Appends result out.old out.new (reply_with unique (attr_out node.now)) }
{
    out.stand(OUT_HEADER_SIZE + ATTR_OUT_SIZE)?;
    let bytes = out.bytes.as_mut_slice();
    let at = head(bytes, out.len, unique, ATTR_OUT_SIZE);
    out.len = attr_out(bytes, at, node);
    Ok(())
}

/// Appends the reply to an OPEN or OPENDIR, of 32 bytes (`struct fuse_open_out`), with handle 0 and
/// these flags ([`FOPEN_KEEP_CACHE`](crate::flags::FOPEN_KEEP_CACHE),
/// [`FOPEN_CACHE_DIR`](crate::flags::FOPEN_CACHE_DIR), both or none).
pub fn put_open<A: Allocator>(
    out: &mut Replies<A>,
    unique: u64,
    open_flags: u32,
) -> Result<(), AllocError>
    ensures { Appends result out.old out.new (reply_with unique (open_out open_flags)) }
{
    out.stand(OUT_HEADER_SIZE + OPEN_OUT_SIZE)?;
    let bytes = out.bytes.as_mut_slice();
    let at = head(bytes, out.len, unique, OPEN_OUT_SIZE);
    out.len = open_out(bytes, at, open_flags);
    Ok(())
}

/// Appends the reply with the length of an extended attribute, or of the list of their names, of 24
/// bytes (`struct fuse_getxattr_out`).
pub fn put_xattr_size<A: Allocator>(
    out: &mut Replies<A>,
    unique: u64,
    size: u32,
) -> Result<(), AllocError>
    ensures { Appends result out.old out.new (reply_with unique (getxattr_out size)) }
{
    let mut reply = [0; OUT_HEADER_SIZE + GETXATTR_OUT_SIZE];
    let at = head(&mut reply, 0, unique, GETXATTR_OUT_SIZE);
    let end = getxattr_out(&mut reply, at, size);
    out.append(&reply[..end])
}

/// Appends the reply to a STATFS, of 96 bytes (`struct fuse_statfs_out`): all blocks of 512 bytes,
/// none free, and the number of nodes.
pub fn put_statfs<A: Allocator>(
    out: &mut Replies<A>,
    unique: u64,
    blocks: u64,
    files: u64,
) -> Result<(), AllocError>
    ensures { Appends result out.old out.new (reply_with unique (statfs_out blocks files)) }
{
    out.stand(OUT_HEADER_SIZE + STATFS_OUT_SIZE)?;
    let bytes = out.bytes.as_mut_slice();
    let at = head(bytes, out.len, unique, STATFS_OUT_SIZE);
    out.len = statfs_out(bytes, at, blocks, files);
    Ok(())
}

/// The bytes of a row of READDIR whose name has this many bytes (`FUSE_DIRENT_SIZE`), a multiple of
/// 8. A row of READDIRPLUS has 128 more.
#[inline(always)]
pub fn dirent_size(name_len: usize) -> usize
    requires { name_len < 2 ^ 32 }
    ensures { result ≡ dirent_size name_len }
{
    (DIRENT_FRONT_SIZE + name_len + 7) / 8 * 8
}

/// Appends a row of READDIR (`struct fuse_dirent`): 24 bytes, the name, and zeros up to a multiple
/// of 8.
#[tactic(auto, unfolding(crate::specs::Structures::dirent), using(crate::proofs::Sizes::sizes))]
#[inline(always)]
pub fn put_dirent<A: Allocator>(out: &mut Replies<A>, row: &Dirent<'_>) -> Result<(), AllocError>
    requires { length row.now.name.now < 2 ^ 32 }
    ensures { Appends result out.old out.new (row_bytes row.now) }
{
    let mut front = [0; DIRENT_FRONT_SIZE];
    let end = dirent_front(&mut front, 0, row);
    put_row(out, &front[..end], row.name)
}

/// Appends a row of READDIRPLUS (`struct fuse_direntplus`): the node's entry, or 128 zeros for `.`
/// and `..`, which have none, and the row of READDIR.
#[inline(always)]
pub fn put_direntplus<A: Allocator>(
    out: &mut Replies<A>,
    entry: Option<&Attr>,
    row: &Dirent<'_>,
) -> Result<(), AllocError>
    requires { length row.now.name.now < 2 ^ 32 }
    ensures { Appends result out.old out.new (plus_row_bytes (option_copied entry.entry) row.now) }
{
    let mut front = [0; ENTRY_OUT_SIZE + DIRENT_FRONT_SIZE];
    let at = entry_or_zeros(&mut front, 0, entry);
    let end = dirent_front(&mut front, at, row);
    put_row(out, &front[..end], row.name)
}

/// Appends a row of READDIRPLUS whose name has at most 22 bytes; the name is also given padded with
/// zeros to 22. Returns false, and appends nothing, only if the replies would then have more than
/// `most` bytes, or there is no room for [`SHORT_ROW_SIZE`] more.
#[inline(always)]
pub fn put_short_direntplus<A: Allocator>(
    out: &mut Replies<A>,
    entry: Option<&Attr>,
    row: &Dirent<'_>,
    padded: &[u8; 22],
    most: usize,
) -> bool
    requires short { length row.now.name.now ≤ 22 }
    requires padded { padded.now ≡ row.now.name.now ++ zeros (22 - length row.now.name.now) }
    ensures row { PutsUpTo most result out.old out.new
        (plus_row_bytes (option_copied entry.entry) row.now) }
    ensures too_much { IsFalse result → IsTooMuch most SHORT_ROW_SIZE out.old
        (plus_row_bytes (option_copied entry.entry) row.now) }
{
    if most < out.len + ENTRY_OUT_SIZE + dirent_size(row.name.len()) {
        return false;
    }
    let behind = out.bytes.len() - out.len;
    if behind < SHORT_ROW_SIZE {
        if out.bytes.capacity() - out.len < SHORT_ROW_SIZE {
            return false;
        }
        clear_behind(&mut out.bytes, SHORT_ROW_SIZE - behind);
    }
    out.len = set_direntplus(out.bytes.as_mut_slice(), out.len, entry, row, padded);
    true
}

// Sets such a row over existing bytes, from a place on, and returns its end. The bytes set after
// the end are unspecified.
#[tactic(auto, unfolding(crate::specs::Structures::dirent), using(crate::proofs::Sizes::sizes))]
#[inline(always)]
fn set_direntplus(
    bytes: &mut [u8],
    at: usize,
    entry: Option<&Attr>,
    row: &Dirent<'_>,
    padded: &[u8; 22],
) -> usize
    requires room { at + SHORT_ROW_SIZE ≤ length bytes.old }
    requires short { length row.now.name.now ≤ 22 }
    requires padded { padded.now ≡ row.now.name.now ++ zeros (22 - length row.now.name.now) }
    ensures row { take result bytes.new
        ≡ take at bytes.old ++ plus_row_bytes (option_copied entry.entry) row.now }
    ensures size { length bytes.new ≡ length bytes.old }
    ensures end { result ≡ at + (128 + dirent_size (length row.now.name.now)) }
    ensures short { result ≤ at + SHORT_ROW_SIZE }
{
    let at = entry_or_zeros(bytes, at, entry);
    let end = at + dirent_size(row.name.len());
    let at = dirent_front(bytes, at, row);
    let at = set_bytes(bytes, at, padded);
    let _ = set_zeros::<2>(bytes, at);
    end
}

// The entry of a row of READDIRPLUS, or zeros.
#[inline(always)]
fn entry_or_zeros(fields: &mut [u8], at: usize, entry: Option<&Attr>) -> usize
    requires { at + 128 ≤ length fields.old }
    ensures fields { take result fields.new
        ≡ take at fields.old ++ option_map_or entry_out (option_copied entry.entry) (zeros 128) }
    ensures size { length fields.new ≡ length fields.old }
    ensures end { result ≡ at + 128 }
{
    match entry {
        Some(node) => entry_out(fields, at, node),
        None => set_zeros::<ENTRY_OUT_SIZE>(fields, at),
    }
}

// Appends the front of a row, its name, and zeros.
#[tactic(auto, using(crate::proofs::Padding::padding_is))]
#[inline(always)]
fn put_row<A: Allocator>(out: &mut Replies<A>, front: &[u8], name: &[u8]) -> Result<(), AllocError>
    requires front { length front.now ≤ 152 }
    requires name { length name.now < 2 ^ 32 }
    ensures { Appends result out.old out.new (front.now ++ name.now ++ padding (length name.now)) }
{
    let padding = padding(name.len());
    if out.room_left() < front.len() + name.len() + PADDING.len() {
        return put_three(out, front, name, &PADDING[..padding]);
    }
    put_in_room(out, front, name, padding);
    Ok(())
}

// The same with room for more zeros than needed: sets eight at once, then cuts them to these.
#[inline(always)]
fn put_in_room<A: Allocator>(out: &mut Replies<A>, front: &[u8], name: &[u8], padding: usize)
    requires few { padding ≤ 8 }
    requires front { length front.now ≤ 152 }
    requires name { length name.now < 2 ^ 32 }
    requires room { length out.old.items + length front.now + length name.now + 8
        ≤ out.old.room }
    ensures items { out.new.items ≡ out.old.items ++ front.now ++ name.now ++ zeros padding }
    ensures room { out.old.room ≤ out.new.room }
{
    let wanted = front.len() + name.len() + PADDING.len();
    let missing = wanted.saturating_sub(out.bytes.len() - out.len);
    if 0 < missing {
        clear_behind(&mut out.bytes, missing);
    }
    out.len = set_padded(out.bytes.as_mut_slice(), out.len, front, name, padding);
}

// Sets the front of a row, its name, and zeros over existing bytes, and returns their end.
#[inline(always)]
fn set_padded(bytes: &mut [u8], at: usize, front: &[u8], name: &[u8], padding: usize) -> usize
    requires few { padding ≤ 8 }
    requires room { at + (length front.now + length name.now + 8) ≤ length bytes.old }
    ensures row { take result bytes.new
        ≡ take at bytes.old ++ front.now ++ name.now ++ zeros padding }
    ensures size { length bytes.new ≡ length bytes.old }
    ensures end { result ≡ at + (length front.now + length name.now + padding) }
{
    let at = set_bytes(bytes, at, front);
    let at = set_bytes(bytes, at, name);
    let _ = set_zeros::<8>(bytes, at);
    at + padding
}

// How many zeros follow a name of this many bytes.
#[inline(always)]
fn padding(name_len: usize) -> usize
    requires { name_len < 2 ^ 32 }
    ensures value { result ≡ dirent_size name_len - (DIRENT_FRONT_SIZE + name_len) }
    ensures few { result ≤ 7 }
{
    dirent_size(name_len) - (DIRENT_FRONT_SIZE + name_len)
}

// Appends three runs of bytes, one after another, in one growth.
#[tactic(auto)]
#[inline(always)]
fn put_three<A: Allocator>(
    out: &mut Replies<A>,
    first: &[u8],
    second: &[u8],
    third: &[u8],
) -> Result<(), AllocError>
    requires { length first.now + length second.now + length third.now < 2 ^ 33 }
    ensures { Appends result out.old out.new (first.now ++ second.now ++ third.now) }
{
    out.make_room(first.len() + second.len() + third.len())?;
    let _ = out.append(first);
    let _ = out.append(second);
    let _ = out.append(third);
    Ok(())
}
