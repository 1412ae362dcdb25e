//! Blocks that are kept of an image, and reading in them.
//!
//! The numbers of the kept blocks rise, and their bytes follow one another: bytes that are adjacent
//! in the image are adjacent here, and a name is a slice. `numbers` finds a block. Calls for single
//! fields are marked as cold, which keeps the path to a slice short for readers of `read`.

ghost use Rattle.std.specs.Prelude.{◌≡◌, ◌+◌, ◌*◌, ◌/◌, ◌^◌, ◌<◌, ◌≤◌, ◌%◌, length, take, drop, get_or, slice_index, min, ℕ, List, IfSome};
ghost use Rattle.std.specs.Option.{option_map};
ghost use Rattle.romfs_format.specs.declared.limits.TheConstants.{HEAD_SIZE};
ghost use Rattle.romfs_format.specs.Fields.{word as word_of, text_at as text_of, text_end, ended, name_field as field_of, word_sum};
ghost use Rattle.romfs_format.specs.Heads.{head_of, name_of};
ghost use Rattle.romfs_format.specs.Trailer.{long_word as long_word_of};
ghost use Rattle.romfs_held.specs.Blocks.{Rises, AreInRow, IsRun, IsKept, IsFront, IsSumOfSome, CopiesSome, filled, byte_of};

use crate::numbers::Numbers;
use byteorder::{BigEndian, ByteOrder};
use memchr::memchr;
use romfs_format::head::Head;
use romfs_format::limits::{HEAD_SIZE, NAME_FIELD_SIZE};
use romfs_format::read::{cleared, kind_of, padded, word, word_sum};

/// The bytes of a block. Headers, and the names after them, are complete blocks.
pub const BLOCK_SIZE: usize = 16;

/// How many blocks a run has at most: as many as a header and its name can reach into.
const RUN_BLOCKS: usize = 18;

/// How many values a word has.
const WORDS: u64 = 0x1_0000_0000;

/// How many blocks from the one at a position on have numbers that rise by one, at most
/// [`RUN_BLOCKS`].
fn row(blocks: &[u32], at: usize, block: u32) -> usize
    requires rises { Rises blocks.now }
    requires at { at < length blocks.now }
    requires is { slice_index blocks.now at ≡ block }
    requires block { block < 2 ^ 28 }
    ensures { AreInRow blocks.now at block result }
{
    let last = at + (RUN_BLOCKS - 1);
    if last < blocks.len() && blocks[last] == block + (RUN_BLOCKS as u32 - 1) {
        return RUN_BLOCKS;
    }
    row_by_steps(blocks, at, block)
}

/// The same, one by one.
fn row_by_steps(blocks: &[u32], at: usize, block: u32) -> usize
    requires at { at < length blocks.now }
    requires is { slice_index blocks.now at ≡ block }
    requires block { block < 2 ^ 28 }
    ensures { AreInRow blocks.now at block result }
{
    let mut count = 1;
    while count < RUN_BLOCKS
        && at + count < blocks.len()
        && blocks[at + count] == block + count as u32
    {
        count += 1;
    }
    count
}

/// The kept bytes from a place on, as far as they go without a gap, or farther than a header and
/// its name can.
fn run<'a>(blocks: &Numbers<'_>, bytes: &'a [u8], at: u32) -> &'a [u8]
    requires { IsKept blocks.now.all.now bytes.now }
    ensures { IsRun blocks.now.all.now bytes.now at result.now }
{
    let block = at / 16;
    let position = blocks.rank(block);
    let all = blocks.all;
    if position == all.len() {
        return &[];
    }
    if all[position] != block {
        return &[];
    }
    let count = row(all, position, block);
    let from = position * BLOCK_SIZE + at as usize % BLOCK_SIZE;
    &bytes[from..(position + count) * BLOCK_SIZE]
}

/// The kept bytes from a place on, up to the end of its block; none if that is not kept.
#[inline(always)]
fn rest_of_block<'a>(blocks: &Numbers<'_>, bytes: &'a [u8], at: u32) -> &'a [u8]
    requires { IsKept blocks.now.all.now bytes.now }
    ensures { (i : ℕ) → i < length result.now →
        byte_of blocks.now.all.now bytes.now (at + i) ≡ get_or result.now i 0 }
{
    let block = at / 16;
    let position = blocks.rank(block);
    let all = blocks.all;
    if position == all.len() || all[position] != block {
        return &[];
    }
    let from = position * BLOCK_SIZE + at as usize % BLOCK_SIZE;
    &bytes[from..(position + 1) * BLOCK_SIZE]
}

/// The byte at a place.
fn byte_in(blocks: &Numbers<'_>, bytes: &[u8], at: u32) -> u8
    requires { IsKept blocks.now.all.now bytes.now }
    ensures { result ≡ byte_of blocks.now.all.now bytes.now at }
{
    let block = at / 16;
    let position = blocks.rank(block);
    let all = blocks.all;
    if position == all.len() {
        return 0;
    }
    if all[position] != block {
        return 0;
    }
    bytes[position * BLOCK_SIZE + at as usize % BLOCK_SIZE]
}

/// The big-endian word at a place.
#[cold]
pub(crate) fn word_in(blocks: &Numbers<'_>, bytes: &[u8], size: u32, at: u32) -> u32
    requires kept { IsKept blocks.now.all.now bytes.now }
    requires at { at + 4 ≤ size }
    ensures { result ≡ word_of (filled size blocks.now.all.now bytes.now) at }
{
    let near = rest_of_block(blocks, bytes, at);
    if near.len() >= 4 {
        return BigEndian::read_u32(near);
    }
    word_by_bytes(blocks, bytes, size, at)
}

/// The same, byte by byte.
#[inline(never)]
fn word_by_bytes(blocks: &Numbers<'_>, bytes: &[u8], size: u32, at: u32) -> u32
    requires kept { IsKept blocks.now.all.now bytes.now }
    requires at { at + 4 ≤ size }
    ensures { result ≡ word_of (filled size blocks.now.all.now bytes.now) at }
{
    // only the clauses name the size
    let _ = size;
    BigEndian::read_u32(&[
        byte_in(blocks, bytes, at),
        byte_in(blocks, bytes, at + 1),
        byte_in(blocks, bytes, at + 2),
        byte_in(blocks, bytes, at + 3),
    ])
}

/// The big-endian number in the eight bytes at a place.
#[tactic(auto, using(crate::proofs::Views::long_by_words))]
pub(crate) fn long_word_in(blocks: &Numbers<'_>, bytes: &[u8], size: u32, at: u32) -> u64
    requires kept { IsKept blocks.now.all.now bytes.now }
    requires at { at + 8 ≤ size }
    ensures { result ≡ long_word_of (filled size blocks.now.all.now bytes.now) at }
{
    let high = word_in(blocks, bytes, size, at);
    let low = word_in(blocks, bytes, size, at + 4);
    u64::from(high) * WORDS + u64::from(low)
}

/// The first bytes, as many as are looked at for a name that begins there.
fn name_field(near: &[u8], room: usize) -> &[u8]
    ensures { result.now ≡ take (min room 256) near.now }
{
    &near[..near.len().min(room).min(NAME_FIELD_SIZE)]
}

/// The end of the name that begins at a place, from the bytes there and the number of bytes up to
/// the image's end.
fn end_in(near: &[u8], room: usize) -> Option<usize>
    ensures value { (a : List ℕ) (at : ℕ) → length a ≡ at + room → IsFront a at 256 near.now →
        option_map (λ end. take end near.now) result ≡ ended (field_of a at) }
    ensures within { IfSome result (λ end. end ≤ length near.now) }
{
    let field = name_field(near, room);
    let found = memchr(0, field);
    if found.is_some() {
        return found;
    }
    if field.len() == room.min(NAME_FIELD_SIZE) {
        return None;
    }
    Some(field.len())
}

/// The name whose field begins at a place, by the bytes from there on.
pub fn text_in(near: &[u8], at: u32, size: u32) -> Option<&[u8]>
    requires { at ≤ size }
    ensures value { (a : List ℕ) → length a ≡ size → IsFront a at 256 near.now →
        option_map (λ text. text.now) result ≡ text_of a at }
    ensures within { IfSome result (λ text. text_end at text.now ≤ size) }
{
    match end_in(near, (size - at) as usize) {
        None => None,
        Some(end) => {
            let text = &near[..end];
            if at as usize + padded(end + 1) <= size as usize {
                Some(text)
            } else {
                None
            }
        }
    }
}

/// The length of the name of the header at a place, from the bytes of the name on; 0 if it has no
/// end.
fn name_len_in(near: &[u8], at: u32, size: u32) -> u32
    requires { at + HEAD_SIZE ≤ size }
    ensures { (a : List ℕ) → length a ≡ size → IsFront a (at + HEAD_SIZE) 256 near.now →
        result ≡ length (name_of a at) }
{
    match text_in(near, at + HEAD_SIZE as u32, size) {
        Some(name) => name.len() as u32,
        None => 0,
    }
}

/// The header at a place, from its words and the length of its name.
fn head_with(at: u32, first: u32, spec: u32, size: u32, name_len: u32) -> Head
    requires { at + HEAD_SIZE < 2 ^ 32 }
    ensures { (a : List ℕ) → first ≡ word_of a at → spec ≡ word_of a (at + 4) →
        size ≡ word_of a (at + 8) → name_len ≡ length (name_of a at) → result ≡ head_of a at }
{
    Head {
        offset: at,
        next: cleared(first),
        kind: kind_of(first),
        exec: first / 8 % 2 == 1,
        spec,
        size,
        name_at: at + HEAD_SIZE as u32,
        name_len,
    }
}

/// The header at a place, by the bytes from there on.
fn head_in(near: &[u8], at: u32, size: u32) -> Head
    requires near { HEAD_SIZE ≤ length near.now }
    requires inside { at + HEAD_SIZE ≤ size }
    ensures { (a : List ℕ) → length a ≡ size → IsFront a at 272 near.now → result ≡ head_of a at }
{
    let name_len = name_len_in(&near[HEAD_SIZE..], at, size);
    head_with(at, word(near, 0), word(near, 4), word(near, 8), name_len)
}

/// The byte at a place, of an image of this size.
#[tactic(auto, using(crate::proofs::Fronts::filled_at))]
#[cold]
pub(crate) fn byte_of_blocks(blocks: &Numbers<'_>, bytes: &[u8], size: u32, at: u32) -> u8
    requires kept { IsKept blocks.now.all.now bytes.now }
    requires at { at < size }
    ensures { result ≡ get_or (filled size blocks.now.all.now bytes.now) at 0 }
{
    byte_in(blocks, bytes, at)
}

/// A header, and its name: empty if it has no end.
#[derive(Clone, Copy)]
pub struct NamedHead<'a> {
    pub head: Head,
    pub name: &'a [u8],
}

/// The header at a place, of an image of this size.
#[cold]
pub(crate) fn head_of_blocks(blocks: &Numbers<'_>, bytes: &[u8], size: u32, at: u32) -> Head
    requires kept { IsKept blocks.now.all.now bytes.now }
    requires inside { at + HEAD_SIZE ≤ size }
    ensures { result ≡ head_of (filled size blocks.now.all.now bytes.now) at }
{
    let near = run(blocks, bytes, at);
    if near.len() >= HEAD_SIZE {
        return head_in(near, at, size);
    }
    let name = run(blocks, bytes, at + HEAD_SIZE as u32);
    let name_len = name_len_in(name, at, size);
    head_in_blocks(blocks, bytes, size, at, name_len)
}

/// The same, by the length of its name.
#[cold]
pub(crate) fn head_in_blocks(
    blocks: &Numbers<'_>,
    bytes: &[u8],
    size: u32,
    at: u32,
    name_len: u32,
) -> Head
    requires kept { IsKept blocks.now.all.now bytes.now }
    requires inside { at + HEAD_SIZE ≤ size }
    requires name { name_len ≡ length (name_of (filled size blocks.now.all.now bytes.now) at) }
    ensures { result ≡ head_of (filled size blocks.now.all.now bytes.now) at }
{
    let near = rest_of_block(blocks, bytes, at);
    if near.len() >= HEAD_SIZE {
        return head_with(at, word(near, 0), word(near, 4), word(near, 8), name_len);
    }
    let first = word_in(blocks, bytes, size, at);
    let spec = word_in(blocks, bytes, size, at + 4);
    let data_size = word_in(blocks, bytes, size, at + 8);
    head_with(at, first, spec, data_size, name_len)
}

/// The same with its name, usually from one run.
#[cold]
pub(crate) fn named_of_blocks<'a>(
    blocks: &Numbers<'_>,
    bytes: &'a [u8],
    size: u32,
    at: u32,
    name_len: u32,
) -> NamedHead<'a>
    requires kept { IsKept blocks.now.all.now bytes.now }
    requires inside { at + HEAD_SIZE ≤ size }
    requires name { name_len ≡ length (name_of (filled size blocks.now.all.now bytes.now) at) }
    ensures head { result.head ≡ head_of (filled size blocks.now.all.now bytes.now) at }
    ensures name { result.name.now ≡ name_of (filled size blocks.now.all.now bytes.now) at }
{
    let near = run(blocks, bytes, at);
    if near.len() < HEAD_SIZE + name_len as usize {
        return NamedHead {
            head: head_in_blocks(blocks, bytes, size, at, name_len),
            name: name_of_blocks(blocks, bytes, size, at, name_len),
        };
    }
    let name = &near[HEAD_SIZE..];
    NamedHead {
        head: head_with(at, word(near, 0), word(near, 4), word(near, 8), name_len),
        name: &name[..name_len as usize],
    }
}

/// The name whose field begins at a place, of an image of this size.
#[cold]
pub(crate) fn text_of_blocks<'a>(
    blocks: &Numbers<'_>,
    bytes: &'a [u8],
    size: u32,
    at: u32,
) -> Option<&'a [u8]>
    requires kept { IsKept blocks.now.all.now bytes.now }
    requires at { at ≤ size }
    ensures value { option_map (λ text. text.now) result
        ≡ text_of (filled size blocks.now.all.now bytes.now) at }
    ensures within { IfSome result (λ text. text_end at text.now ≤ size) }
{
    text_in(run(blocks, bytes, at), at, size)
}

/// The name of the header at a place in an image of this size, by its length; empty if it has no
/// end.
#[cold]
pub(crate) fn name_of_blocks<'a>(
    blocks: &Numbers<'_>,
    bytes: &'a [u8],
    size: u32,
    at: u32,
    name_len: u32,
) -> &'a [u8]
    requires kept { IsKept blocks.now.all.now bytes.now }
    requires inside { at + HEAD_SIZE ≤ size }
    requires name { name_len ≡ length (name_of (filled size blocks.now.all.now bytes.now) at) }
    ensures { result.now ≡ name_of (filled size blocks.now.all.now bytes.now) at }
{
    let near = run(blocks, bytes, at + HEAD_SIZE as u32);
    if name_len as usize <= near.len() {
        return &near[..name_len as usize];
    }
    match text_of_blocks(blocks, bytes, size, at + HEAD_SIZE as u32) {
        Some(name) => name,
        None => &[],
    }
}

/// This many bytes from a place on, of an image of this size, if they are kept without a gap and
/// are no more than a header and its name can have.
#[tactic(auto, using(crate::proofs::Sums::run_part))]
pub(crate) fn slice_of_blocks<'a>(
    blocks: &Numbers<'_>,
    bytes: &'a [u8],
    size: u32,
    at: u32,
    len: usize,
) -> Option<&'a [u8]>
    requires kept { IsKept blocks.now.all.now bytes.now }
    requires within { at + len ≤ size }
    ensures { IfSome result (λ part.
        part.now ≡ take len (drop at (filled size blocks.now.all.now bytes.now))) }
{
    let near = run(blocks, bytes, at);
    if len <= near.len() {
        Some(&near[..len])
    } else {
        None
    }
}

/// The sum of the complete words in this many bytes from a place on, in an image of this size.
pub(crate) fn sum_in(blocks: &Numbers<'_>, bytes: &[u8], size: u32, at: u32, len: u32) -> u32
    requires kept { IsKept blocks.now.all.now bytes.now }
    requires within { at + len ≤ size }
    ensures { result
        ≡ word_sum (take len (drop at (filled size blocks.now.all.now bytes.now))) % 2 ^ 32 }
{
    match slice_of_blocks(blocks, bytes, size, at, len as usize) {
        Some(part) => word_sum(part),
        None => sum_of_words(blocks, bytes, size, at, len),
    }
}

/// The same, run by run, and word by word where nothing is kept.
fn sum_of_words(blocks: &Numbers<'_>, bytes: &[u8], size: u32, at: u32, len: u32) -> u32
    requires kept { IsKept blocks.now.all.now bytes.now }
    requires within { at + len ≤ size }
    ensures { result
        ≡ word_sum (take len (drop at (filled size blocks.now.all.now bytes.now))) % 2 ^ 32 }
{
    let mut sum: u32 = 0;
    let mut done: u32 = 0;
    while len - done >= 4 {
        let some = sum_of_some(blocks, bytes, size, at + done, len - done);
        sum = sum.wrapping_add(some.sum);
        done += some.len;
    }
    sum
}

/// The sum of some words, and how many bytes they have.
#[derive(Clone, Copy)]
pub(crate) struct Summed {
    pub(crate) sum: u32,
    pub(crate) len: u32,
}

/// The sum of the first words of these bytes: those of a run, or otherwise one.
fn sum_of_some(blocks: &Numbers<'_>, bytes: &[u8], size: u32, at: u32, len: u32) -> Summed
    requires kept { IsKept blocks.now.all.now bytes.now }
    requires within { at + len ≤ size }
    requires long { 4 ≤ len }
    ensures { IsSumOfSome (filled size blocks.now.all.now bytes.now) at len result.sum result.len }
{
    let near = run(blocks, bytes, at);
    let count = near.len().min(len as usize) / 4 * 4;
    if count == 0 {
        return Summed {
            sum: word_in(blocks, bytes, size, at),
            len: 4,
        };
    }
    Summed {
        sum: word_sum(&near[..count]),
        len: count as u32,
    }
}

/// Puts bytes from a place on, of an image of this size, at the front of a room: those of a run, or
/// otherwise one that is 0. Returns how many.
#[cold]
pub(crate) fn copy_some_of_blocks(
    blocks: &Numbers<'_>,
    bytes: &[u8],
    size: u32,
    at: u32,
    room: &mut [u8],
) -> usize
    requires kept { IsKept blocks.now.all.now bytes.now }
    requires at { at < size }
    requires room { 0 < length room.old }
    ensures { CopiesSome (filled size blocks.now.all.now bytes.now) at result room.old room.new }
{
    let near = run(blocks, bytes, at);
    if near.is_empty() {
        room[0] = 0;
        return 1;
    }
    let count = near.len().min(room.len()).min((size - at) as usize);
    room[..count].copy_from_slice(&near[..count]);
    count
}
