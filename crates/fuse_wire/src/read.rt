//! Replies whose data are read straight into them.

ghost use Rattle.std.specs.Prelude.{◌≡◌, ◌+◌, ◌<◌, ◌≤◌, ◌^◌, ◌++◌, ℕ, List, length, take};
ghost use Rattle.fuse_wire.specs.Replies.{reply_with};
ghost use Rattle.fuse_wire.specs.Told.{Fills, AppendsTold, TakesTold, read_from};

use crate::Errno;
use crate::limits::OUT_HEADER_SIZE;
use crate::replies::Replies;
use crate::structures::{error_head, head};
use devices::{Contents, fill};
use std::alloc::{AllocError, Allocator};

/// Appends a reply with this many bytes of data after its header, read from a place on, in one
/// growth; if there are some and they cannot be read in full, appends the reply with EIO. Data are
/// read straight into the reply, and no other memory of the replies is exposed.
///
/// In the clause `bytes` are the data that the reply is defined to have, and only their number
/// matters: the data that are appended are those that reads returned, whatever `bytes` are.
///
/// `AllocError` only if there is no room for the reply and memory is refused; nothing changes then,
/// and nothing is read.
pub fn put_read<A: Allocator, D: Contents>(
    out: &mut Replies<A>,
    unique: u64,
    from: &D,
    place: u64,
    size: usize,
) -> Result<(), AllocError>
    requires few { 16 + size < 2 ^ 32 }
    requires end { place + size < 2 ^ 64 }
    ensures { (bytes : List ℕ) → length bytes ≡ size →
        AppendsTold result out.old out.new (read_from (D.source from.now) place) unique
        (reply_with unique bytes) }
{
    out.stand(OUT_HEADER_SIZE + size)?;
    out.len = set_read(out.bytes.as_mut_slice(), out.len, unique, from, place, size);
    Ok(())
}

// The same over existing bytes. Returns the place after the reply.
fn set_read<D: Contents>(
    fields: &mut [u8],
    at: usize,
    unique: u64,
    from: &D,
    place: u64,
    size: usize,
) -> usize
    requires few { 16 + size < 2 ^ 32 }
    requires end { place + size < 2 ^ 64 }
    requires room { at + (16 + size) ≤ length fields.old }
    ensures length { length fields.new ≡ length fields.old }
    ensures within { result ≤ length fields.new }
    ensures told { (bytes : List ℕ) → length bytes ≡ size →
        TakesTold (read_from (D.source from.now) place) unique (reply_with unique bytes)
        (take at fields.old) (take result fields.new) }
{
    let behind = head(fields, at, unique, size);
    if fill_at(fields, behind, from, place, size) {
        behind + size
    } else {
        error_head(fields, at, unique, Errno::EIO)
    }
}

// Fills the bytes from a place on; false if there are some and they cannot be read in full.
fn fill_at<D: Contents>(fields: &mut [u8], at: usize, from: &D, place: u64, size: usize) -> bool
    requires end { place + size < 2 ^ 64 }
    requires room { at + size ≤ length fields.old }
    ensures length { length fields.new ≡ length fields.old }
    ensures filled { Fills (D.source from.now) place size result (take at fields.old)
        (take (at + size) fields.new) }
{
    if size == 0 {
        return true;
    }
    fill(from, &mut fields[at..at + size], place).is_ok()
}
