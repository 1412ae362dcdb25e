//! Bytes of a source that were read at once.

ghost use Rattle.std.specs.Prelude.{◌≡◌, ◌+◌, ◌<◌, ◌≤◌, ◌^◌, length, IsTrue, OnOk, IfErr};
ghost use Rattle.romfs_kept.specs.Reads.{AreWithin, IsCause, IsHeld};

use crate::fault::GatherFault;
use crate::grain::Grain;
use devices::{Contents, fill};
use std::alloc::Allocator;

/// The least bytes of a window.
const LEAST: usize = 64;

/// The most bytes of a window that is longer than the request.
const MOST: usize = 65_536;

/// Bytes that were read at once.
#[derive(Drop)]
pub struct Window<A: Allocator> {
    /// Where windows begin and end.
    pub grain: Grain,
    /// Their place.
    pub start: usize,
    pub bytes: Vec<u8, A>,
    /// How many bytes were kept since they were read.
    pub used: usize,
}

impl<A: Allocator> Window<A> {
    /// A window of no bytes.
    pub fn new(alloc: A, grain: Grain) -> Window<A>
        ensures { length result.bytes.items ≡ 0 }
    {
        Window {
            grain,
            start: 0,
            bytes: Vec::new(alloc),
            used: 0,
        }
    }
}

/// Makes sure that this many bytes from a place on are in the window. If that fails, none are.
pub fn look_at<S: Contents, A: Allocator>(
    source: &S,
    window: &mut Window<A>,
    size: u32,
    from: usize,
    count: usize,
) -> Result<(), GatherFault>
    requires few { from + count ≤ size }
    requires within { AreWithin (S.source source.now) size }
    requires held { IsHeld (S.source source.now) window.old.start window.old.bytes.items }
    ensures held { IsHeld (S.source source.now) window.new.start window.new.bytes.items }
    ensures low { OnOk result (window.new.start ≤ from) }
    ensures high { OnOk result (from + count ≤ window.new.start + length window.new.bytes.items) }
    ensures err { IfErr result (IsCause (S.source source.now)) }
{
    if covers(window, from, count) {
        return Ok(());
    }
    let wanted = next_len(window.bytes.len(), window.used).max(count);
    let start = window.grain.bound_before(from);
    let end = window.grain.bound_behind(from + wanted).min(size as usize);
    window.start = start;
    window.used = 0;
    match load(source, &mut window.bytes, start, end - start) {
        Ok(()) => Ok(()),
        Err(fault) => {
            window.bytes.clear();
            Err(fault)
        }
    }
}

/// Whether this many bytes from a place on are in the window.
fn covers<A: Allocator>(window: &Window<A>, from: usize, count: usize) -> bool
    requires few { from + count < 2 ^ 32 }
    ensures { IsTrue result → (window.now.start ≤ from)
        × (from + count ≤ window.now.start + length window.now.bytes.items) }
{
    window.start <= from && from + count - window.start <= window.bytes.len()
}

/// How long the next window is, by the length of this one and how much of it was kept.
fn next_len(len: usize, used: usize) -> usize
    ensures { result ≤ MOST }
{
    if used >= len - len / 4 {
        len.saturating_mul(2).max(LEAST).min(MOST)
    } else {
        LEAST
    }
}

/// Reads this many bytes from a place on, and replaces earlier ones.
pub fn load<S: Contents, A: Allocator>(
    source: &S,
    bytes: &mut Vec<u8, A>,
    at: usize,
    count: usize,
) -> Result<(), GatherFault>
    requires few { at + count < 2 ^ 43 }
    requires within { AreWithin (S.source source.now) (at + count) }
    ensures long { OnOk result (length bytes.new.items ≡ count) }
    ensures held { OnOk result (IsHeld (S.source source.now) at bytes.new.items) }
    ensures err { IfErr result (IsCause (S.source source.now)) }
{
    // bytes already in the window are not cleared, since the read overwrites them
    bytes.resize(count, 0)?;
    load_room(source, &mut bytes[..], at as u64)
}

/// Fills a room with the bytes from a place on.
fn load_room<S: Contents>(source: &S, room: &mut [u8], at: u64) -> Result<(), GatherFault>
    requires few { at + length room.old < 2 ^ 43 }
    requires within { AreWithin (S.source source.now) (at + length room.old) }
    ensures held { OnOk result (IsHeld (S.source source.now) at room.new) }
    ensures err { IfErr result (IsCause (S.source source.now)) }
{
    match fill(source, room, at) {
        Ok(()) => Ok(()),
        Err(_) => Err(GatherFault::Unread),
    }
}
