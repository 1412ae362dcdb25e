//! The attribute trailer of an image that stays in its file.
//!
//! It follows the full size, where the walk does not look. It is read at once, and put after what
//! the walk kept.

ghost use Rattle.std.specs.Prelude.{◌≡◌, ◌+◌, ◌*◌, ◌/◌, ◌<◌, ◌≤◌, ◌^◌, length, IfOk, IfErr, IfSome, IsTrue, MatchOption};
ghost use Rattle.romfs_kept.specs.Gathered.{IsCauseWithTrailer, IsGatheredWithTrailer};
ghost use Rattle.romfs_kept.specs.Reads.{IsCause};
ghost use Rattle.romfs_kept.specs.Tails.{BeginsTrailer, BeginsWith, IsNoTail, IsPartEnd, IsRoom};
ghost use Rattle.romfs_kept.specs.Tails.{IsTail, IsTailCause, IsTailEnd, end_of};

use crate::fault::GatherFault;
use crate::gathering::gather;
use crate::grain::Grain;
use crate::window::load;
use devices::Contents;
use romfs_format::limits::{HEAD_SIZE, PART_HEAD_SIZE, ROW_SIZE, TRAILER_HEAD_SIZE};
use romfs_format::read::{padded, word};
use romfs_held::Kept;
use std::alloc::Allocator;

/// The letters with which a trailer begins.
const LETTERS: &[u8; 8] = b"-attr01-";

/// The letters with which its second part begins.
const PART_LETTERS: &[u8; 8] = b"-attr02-";

/// The end of the word that has this part's size.
const PART_SIZE_END: usize = 12;

/// Nothing is kept from here on: places are numbers of 32 bits.
const PLACES: u64 = 1 << 32;

/// Keeps what [`gather`] keeps of an image, and after it the attribute trailer, if there is one:
/// all of it; or only its head if it is cut off, or has more rows than there are places for
/// headers, which breaks it in any case. Only the letters of a second part that is cut off are
/// kept.
///
/// The errors are those of `gather`, and `Far` only if what would be kept of the trailer ends at
/// 2^32 or beyond. It takes at most five more reads, and the trailer's bytes twice while they are
/// put after the others.
pub fn gather_with_trailer<S: Contents, A: Allocator + Copy>(
    alloc: A,
    source: &S,
    grain: Grain,
) -> Result<Kept<A>, GatherFault>
    ensures ok { IfOk result (IsGatheredWithTrailer (S.source source.now)) }
    ensures err { IfErr result (IsCauseWithTrailer (S.source source.now)) }
{
    let front = gather(alloc, source, grain)?;
    let full = front.held().len() as u32;
    match read_trailer(alloc, source, full)? {
        None => Ok(front),
        Some(tail) => Ok(front.followed(padded(full as usize) as u32, &tail)?),
    }
}

/// Reads what is kept of the trailer of an image of this full size, if it has one.
fn read_trailer<S: Contents, A: Allocator>(
    alloc: A,
    source: &S,
    full: u32,
) -> Result<Option<Vec<u8, A>>, GatherFault>
    ensures ok { IfOk result (λ read. MatchOption read
        (IsNoTail (S.source source.now) full)
        (λ tail. IsTail (S.source source.now) full tail.items)) }
    ensures small { IfOk result (λ read. IfSome read
        (λ tail. (full + 15) / 16 * 16 + length tail.items < 2 ^ 32)) }
    ensures err { IfErr result (IsTailCause (S.source source.now) full) }
{
    let place = padded(full as usize);
    let room = source.size().saturating_sub(place as u64);
    let mut tail = Vec::new(alloc);
    if !begins_trailer(source, &mut tail, place, room)? {
        return Ok(None);
    }
    let end = tail_end(source, &mut tail, place, room, full)?;
    let count = room.min(end);
    if place as u64 + count >= PLACES {
        return Err(GatherFault::Far);
    }
    load(source, &mut tail, place, count as usize)?;
    Ok(Some(tail))
}

/// Whether a place, followed by this many bytes, has the letters of a trailer.
fn begins_trailer<S: Contents, A: Allocator>(
    source: &S,
    tail: &mut Vec<u8, A>,
    place: usize,
    room: u64,
) -> Result<bool, GatherFault>
    requires place { place ≤ 2 ^ 32 }
    requires room { IsRoom (S.source source.now) place room }
    ensures ok { IfOk result (λ yes. BeginsTrailer (S.source source.now) place yes) }
    ensures some { IfOk result (λ yes. IsTrue yes → 8 ≤ room) }
    ensures err { IfErr result (IsCause (S.source source.now)) }
{
    if place as u64 == PLACES {
        return Ok(false);
    }
    begins_with(source, tail, place, room, LETTERS)
}

/// Whether a place, followed by this many bytes, has these eight letters.
fn begins_with<S: Contents, A: Allocator>(
    source: &S,
    tail: &mut Vec<u8, A>,
    place: usize,
    room: u64,
    letters: &[u8; 8],
) -> Result<bool, GatherFault>
    requires place { place < 2 ^ 42 }
    requires room { IsRoom (S.source source.now) place room }
    ensures ok { IfOk result (λ yes. BeginsWith (S.source source.now) place letters.now yes) }
    ensures some { IfOk result (λ yes. IsTrue yes → 8 ≤ room) }
    ensures err { IfErr result (IsCause (S.source source.now)) }
{
    if room < 8 {
        return Ok(false);
    }
    load(source, tail, place, 8)?;
    Ok(tail.starts_with(letters))
}

/// How many bytes of a trailer are kept.
fn tail_end<S: Contents, A: Allocator>(
    source: &S,
    tail: &mut Vec<u8, A>,
    place: usize,
    room: u64,
    full: u32,
) -> Result<u64, GatherFault>
    requires place { place ≤ 2 ^ 32 }
    requires room { IsRoom (S.source source.now) place room }
    ensures ok { IfOk result (IsTailEnd (S.source source.now) place full) }
    ensures small { IfOk result (λ end. end < 2 ^ 41) }
    ensures err { IfErr result (IsCause (S.source source.now)) }
{
    if room < TRAILER_HEAD_SIZE as u64 {
        return Ok(TRAILER_HEAD_SIZE as u64);
    }
    load(source, tail, place, TRAILER_HEAD_SIZE)?;
    match end_of(word(tail, 8), room, full) {
        None => Ok(TRAILER_HEAD_SIZE as u64),
        Some(end) => {
            let more = part_end(source, tail, place + end as usize, room - end)?;
            Ok(end + more)
        }
    }
}

/// The end of this many rows, if there are as many bytes, and no more rows than an image has places
/// for headers.
fn end_of(rows: u32, room: u64, full: u32) -> Option<u64>
    ensures value { result ≡ end_of rows room full }
    ensures small { IfSome result (λ end. end < 2 ^ 40) }
{
    let end = TRAILER_HEAD_SIZE as u64 + ROW_SIZE as u64 * u64::from(rows);
    if end <= room && rows as usize <= padded(full as usize) / HEAD_SIZE {
        Some(end)
    } else {
        None
    }
}

/// How many bytes are kept of a part that may begin at a place, which this many bytes follow.
fn part_end<S: Contents, A: Allocator>(
    source: &S,
    tail: &mut Vec<u8, A>,
    place: usize,
    room: u64,
) -> Result<u64, GatherFault>
    requires place { place < 2 ^ 42 }
    requires room { IsRoom (S.source source.now) place room }
    ensures ok { IfOk result (IsPartEnd (S.source source.now) place) }
    ensures small { IfOk result (λ end. end < 2 ^ 32) }
    ensures err { IfErr result (IsCause (S.source source.now)) }
{
    if !begins_with(source, tail, place, room, PART_LETTERS)? {
        return Ok(0);
    }
    if room < PART_SIZE_END as u64 {
        return Ok(8);
    }
    load(source, tail, place, PART_SIZE_END)?;
    let size = u64::from(word(tail, 8));
    if PART_HEAD_SIZE as u64 <= size && size <= room {
        Ok(size)
    } else {
        Ok(8)
    }
}
