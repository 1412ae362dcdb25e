//! Fields of an image that is held.

ghost use Rattle.std.specs.Prelude.{◌≡◌, ◌+◌, ◌<◌, ◌≤◌, ◌%◌, ◌^◌, ◌↔◌, IfSome, IsTrue, length, take, drop, get_or, nat_eq};
ghost use Rattle.std.specs.List.{starts_with as begins_with};
ghost use Rattle.std.specs.Option.{option_map};
ghost use Rattle.romfs_format.specs.declared.limits.TheConstants.{HEAD_SIZE};
ghost use Rattle.romfs_format.specs.Fields.{root, word, text_end, text_at, word_sum};
ghost use Rattle.romfs_format.specs.Heads.{head_of, name_of};
ghost use Rattle.romfs_format.specs.Rules.{StartsWith};
ghost use Rattle.romfs_format.specs.Trailer.{long_word as long_word_of};
ghost use Rattle.romfs_held.specs.Blocks.{CopiesSome};

use crate::blocks::{
    NamedHead, byte_of_blocks, copy_some_of_blocks, head_of_blocks, long_word_in, name_of_blocks,
    named_of_blocks, slice_of_blocks, sum_in, text_of_blocks, word_in,
};
use crate::held::{Form, Held};
use romfs_format::limits::HEAD_SIZE;
use romfs_format::{Head, read as fields};

/// The byte at a place.
#[inline(always)]
#[tactic(auto, using(crate::proofs::Fronts::filled_long))]
pub fn byte_at(image: &Held<'_>, at: usize) -> u8
    requires { at < length image.now }
    ensures { result ≡ get_or image.now at 0 }
{
    match image.form {
        Form::Whole(bytes) => bytes[at],
        Form::Sparse {
            size,
            blocks,
            bytes,
        } => byte_of_blocks(&blocks, bytes, size, at as u32),
    }
}

/// Whether an image begins with some bytes.
pub fn starts_with(image: &Held<'_>, bytes: &[u8]) -> bool
    requires { length bytes.now ≤ length image.now }
    ensures { IsTrue result ↔ StartsWith image.now bytes.now }
{
    for at in 0..bytes.len() {
        if byte_at(image, at) != bytes[at] {
            return false;
        }
    }
    true
}

/// Whether a place has these bytes.
pub fn stand_at(image: &Held<'_>, at: usize, bytes: &[u8]) -> bool
    requires { at ≤ length image.now }
    ensures { result ≡ begins_with nat_eq (drop at image.now) bytes.now }
{
    if image.len() - at < bytes.len() {
        return false;
    }
    for number in 0..bytes.len() {
        if byte_at(image, at + number) != bytes[number] {
            return false;
        }
    }
    true
}

/// The big-endian word at a place.
#[inline(always)]
#[tactic(auto, using(crate::proofs::Fronts::filled_long))]
pub fn word(image: &Held<'_>, at: usize) -> u32
    requires { at + 4 ≤ length image.now }
    ensures { result ≡ word image.now at }
{
    match image.form {
        Form::Whole(bytes) => fields::word(bytes, at),
        Form::Sparse {
            size,
            blocks,
            bytes,
        } => word_in(&blocks, bytes, size, at as u32),
    }
}

/// The big-endian number in the eight bytes at a place.
#[tactic(auto, using(crate::proofs::Fronts::filled_long))]
pub fn long_word(image: &Held<'_>, at: usize) -> u64
    requires { at + 8 ≤ length image.now }
    ensures { result ≡ long_word_of image.now at }
{
    match image.form {
        Form::Whole(bytes) => fields::long_word(bytes, at),
        Form::Sparse {
            size,
            blocks,
            bytes,
        } => long_word_in(&blocks, bytes, size, at as u32),
    }
}

/// The name whose field begins at a place of the accessible bytes; none if it has no end, or its
/// padding ends beyond them.
#[inline(always)]
#[tactic(auto, using(crate::proofs::Fronts::filled_long))]
pub fn text_at<'a>(image: &Held<'a>, at: usize) -> Option<&'a [u8]>
    requires at { at ≤ length image.now }
    requires small { length image.now < 2 ^ 32 }
    ensures value { option_map (λ text. text.now) result ≡ text_at image.now at }
    ensures within { IfSome result (λ text. text_end at text.now ≤ length image.now) }
{
    match image.form {
        Form::Whole(bytes) => fields::text_at(bytes, at),
        Form::Sparse {
            size,
            blocks,
            bytes,
        } => text_of_blocks(&blocks, bytes, size, at as u32),
    }
}

/// The sum of the complete words in this many bytes from a place on.
#[tactic(auto, using(crate::proofs::Fronts::filled_long))]
pub fn sum(image: &Held<'_>, at: usize, len: usize) -> u32
    requires { at + len ≤ length image.now }
    ensures { result ≡ word_sum (take len (drop at image.now)) % 2 ^ 32 }
{
    match image.form {
        Form::Whole(bytes) => {
            let rest = &bytes[at..];
            fields::word_sum(&rest[..len])
        }
        Form::Sparse {
            size,
            blocks,
            bytes,
        } => sum_in(&blocks, bytes, size, at as u32, len as u32),
    }
}

/// The header at a place.
#[inline(always)]
#[tactic(auto, using(crate::proofs::Fronts::filled_long))]
pub fn head_at(image: &Held<'_>, at: u32) -> Head
    requires inside { at + HEAD_SIZE ≤ length image.now }
    requires small { length image.now < 2 ^ 32 }
    ensures { result ≡ head_of image.now at }
{
    match image.form {
        Form::Whole(bytes) => fields::head_at(bytes, at),
        Form::Sparse {
            size,
            blocks,
            bytes,
        } => head_of_blocks(&blocks, bytes, size, at),
    }
}

/// The same with its name, whose length is known.
#[inline(always)]
#[tactic(auto, using(crate::proofs::Fronts::filled_long))]
pub fn named_head<'a>(image: &Held<'a>, at: u32, name_len: u32) -> NamedHead<'a>
    requires inside { at + HEAD_SIZE ≤ length image.now }
    requires small { length image.now < 2 ^ 32 }
    requires name { name_len ≡ length (name_of image.now at) }
    ensures head { result.head ≡ head_of image.now at }
    ensures name { result.name.now ≡ name_of image.now at }
{
    match image.form {
        Form::Whole(bytes) => NamedHead {
            head: fields::head_named(bytes, at, name_len),
            name: name_in_slice(bytes, at, name_len),
        },
        Form::Sparse {
            size,
            blocks,
            bytes,
        } => named_of_blocks(&blocks, bytes, size, at, name_len),
    }
}

/// The name of the header at a place, with known length, so its end is not searched in a slice.
/// Empty if it has no end.
#[inline(always)]
#[tactic(auto, using(crate::proofs::Fronts::filled_long))]
pub fn name_of<'a>(image: &Held<'a>, at: u32, name_len: u32) -> &'a [u8]
    requires inside { at + HEAD_SIZE ≤ length image.now }
    requires name { name_len ≡ length (name_of image.now at) }
    ensures { result.now ≡ name_of image.now at }
{
    match image.form {
        Form::Whole(bytes) => name_in_slice(bytes, at, name_len),
        Form::Sparse {
            size,
            blocks,
            bytes,
        } => name_of_blocks(&blocks, bytes, size, at, name_len),
    }
}

/// This many bytes from a place on, if all bytes of the image are held, or if these are held
/// without a gap and are no more than a header and its name can have; otherwise none.
#[inline(always)]
#[tactic(auto, using(crate::proofs::Fronts::filled_long))]
pub fn slice_at<'a>(image: &Held<'a>, at: usize, len: usize) -> Option<&'a [u8]>
    requires { at + len ≤ length image.now }
    ensures { IfSome result (λ bytes. bytes.now ≡ take len (drop at image.now)) }
{
    match image.form {
        Form::Whole(bytes) => {
            let rest = &bytes[at..];
            Some(&rest[..len])
        }
        Form::Sparse {
            size,
            blocks,
            bytes,
        } => slice_of_blocks(&blocks, bytes, size, at as u32, len),
    }
}

/// Puts bytes from a place on at the front of a room, and returns how many: at least one.
#[tactic(auto, using(crate::proofs::Fronts::filled_long))]
pub fn copy_some(image: &Held<'_>, at: usize, room: &mut [u8]) -> usize
    requires at { at < length image.now }
    requires room { 0 < length room.old }
    ensures { CopiesSome image.now at result room.old room.new }
{
    match image.form {
        Form::Whole(bytes) => {
            let rest = &bytes[at..];
            let count = room.len().min(rest.len());
            room[..count].copy_from_slice(&rest[..count]);
            count
        }
        Form::Sparse {
            size,
            blocks,
            bytes,
        } => copy_some_of_blocks(&blocks, bytes, size, at as u32, room),
    }
}

/// The place of the root.
#[tactic(auto, unfolding(romfs_format::specs::Fields::root))]
pub fn root_of(image: &Held<'_>) -> u32
    requires long { HEAD_SIZE ≤ length image.now }
    requires small { length image.now < 2 ^ 32 }
    ensures { result ≡ root image.now }
{
    match text_at(image, HEAD_SIZE) {
        None => 0,
        Some(name) => (HEAD_SIZE + fields::padded(name.len() + 1)) as u32,
    }
}

/// The name of a header in a slice, by its length.
#[inline(always)]
#[tactic(auto, using(crate::proofs::NameBytes::name_within))]
fn name_in_slice(bytes: &[u8], at: u32, name_len: u32) -> &[u8]
    requires inside { at + HEAD_SIZE ≤ length bytes.now }
    requires name { name_len ≡ length (name_of bytes.now at) }
    ensures { result.now ≡ name_of bytes.now at }
{
    let rest = &bytes[at as usize + HEAD_SIZE..];
    &rest[..name_len as usize]
}
