//! Fields of an image's bytes.

ghost use Rattle.std.specs.Prelude.{◌≡◌, ◌+◌, ◌<◌, ◌≤◌, ◌%◌, ◌^◌, IfSome, length, take};
ghost use Rattle.std.specs.Option.{option_map};
ghost use Rattle.romfs_format.specs.declared.limits.TheConstants.{HEAD_SIZE};
ghost use Rattle.romfs_format.specs.Fields.{root, word, padded, cleared, text_end, kind_of, text_at};
ghost use Rattle.romfs_format.specs.Fields.{name_field, ended, is_dot_name, word_sum, data_at, header_bytes};
ghost use Rattle.romfs_format.specs.Heads.{head_of, name_of};
ghost use Rattle.romfs_format.specs.Trailer.{long_word};

use crate::head::{Head, Kind};
use crate::limits::{HEAD_SIZE, NAME_FIELD_SIZE};
use byteorder::{BigEndian, ByteOrder};
use memchr::memchr;

/// Among how many bytes most names end.
const NEAR: usize = 32;

/// The big-endian word at a place.
#[tactic(auto, unfolding(crate::specs::Fields::word))]
pub fn word(bytes: &[u8], at: usize) -> u32
    requires { at + 4 ≤ length bytes.now }
    ensures { result ≡ word bytes.now at }
{
    BigEndian::read_u32(&bytes[at..])
}

/// The big-endian number in the eight bytes at a place.
#[tactic(auto, unfolding(crate::specs::Trailer::long_word))]
pub fn long_word(bytes: &[u8], at: usize) -> u64
    requires { at + 8 ≤ length bytes.now }
    ensures { result ≡ long_word bytes.now at }
{
    BigEndian::read_u64(&bytes[at..])
}

/// A length rounded up to a multiple of 16, as names and data are padded.
pub fn padded(len: usize) -> usize
    requires { len ≤ 2 ^ 63 }
    ensures value { result ≡ padded len }
    ensures near { (len ≤ result) × (result ≤ len + 15) }
{
    (len + 15) / 16 * 16
}

/// A word with its low 4 bits cleared, as it names a header.
pub fn cleared(word: u32) -> u32
    ensures { result ≡ cleared word }
{
    word / 16 * 16
}

/// The kind in the first word of a header.
pub fn kind_of(word: u32) -> Kind
    ensures { result ≡ kind_of (word % 8) }
{
    match word % 8 {
        0 => Kind::HardLink,
        1 => Kind::Directory,
        2 => Kind::Regular,
        3 => Kind::SymLink,
        4 => Kind::Block,
        5 => Kind::Character,
        6 => Kind::Socket,
        _ => Kind::Fifo,
    }
}

/// The name whose field begins at a place of the accessible bytes; none if it has no end, or its
/// padding ends beyond them.
pub fn text_at(image: &[u8], at: usize) -> Option<&[u8]>
    requires at { at ≤ length image.now }
    requires small { length image.now < 2 ^ 32 }
    ensures value { option_map (λ text. text.now) result ≡ text_at image.now at }
    ensures within { IfSome result (λ text. text_end at text.now ≤ length image.now) }
{
    match ended(name_field(image, at)) {
        None => None,
        Some(text) => {
            let end = at + padded(text.len() + 1);
            if end <= image.len() { Some(text) } else { None }
        }
    }
}

/// Whether a name is `.` or `..`.
pub fn is_dot_name(name: &[u8]) -> bool
    ensures { result ≡ is_dot_name name.now }
{
    name == b".".as_slice() || name == b"..".as_slice()
}

/// A header with its name, up to where the padding of the name ends.
#[tactic(auto, unfolding(crate::specs::Fields::header_bytes))]
pub fn header_bytes<'a>(image: &'a [u8], at: usize, name: &[u8]) -> &'a [u8]
    requires within { data_at at name.now ≤ length image.now }
    requires small { length image.now < 2 ^ 32 }
    ensures { result.now ≡ header_bytes image.now at name.now }
{
    let rest = &image[at..];
    &rest[..HEAD_SIZE + padded(name.len() + 1)]
}

/// The sum of the complete words of some bytes.
pub fn word_sum(bytes: &[u8]) -> u32
    ensures { result ≡ word_sum bytes.now % 2 ^ 32 }
{
    let mut sum: u32 = 0;
    let mut rest = bytes;
    while rest.len() >= 4 {
        sum = sum.wrapping_add(BigEndian::read_u32(rest));
        rest = &rest[4..];
    }
    sum
}

/// The header at a place.
pub fn head_at(image: &[u8], at: u32) -> Head
    requires inside { at + HEAD_SIZE ≤ length image.now }
    requires small { length image.now < 2 ^ 32 }
    ensures { result ≡ head_of image.now at }
{
    head_named(image, at, name_len(image, at))
}

/// The same, with the length of its name, which is known.
pub fn head_named(image: &[u8], at: u32, name_len: u32) -> Head
    requires inside { at + HEAD_SIZE ≤ length image.now }
    requires small { length image.now < 2 ^ 32 }
    requires name { name_len ≡ length (name_of image.now at) }
    ensures { result ≡ head_of image.now at }
{
    let place = at as usize;
    let first = word(image, place);
    Head {
        offset: at,
        next: cleared(first),
        kind: kind_of(first),
        exec: first / 8 % 2 == 1,
        spec: word(image, place + 4),
        size: word(image, place + 8),
        name_at: at + HEAD_SIZE as u32,
        name_len,
    }
}

/// The place of the root.
#[tactic(auto, unfolding(crate::specs::Fields::root))]
pub fn root_of(image: &[u8]) -> u32
    requires long { HEAD_SIZE ≤ length image.now }
    requires small { length image.now < 2 ^ 32 }
    ensures { result ≡ root image.now }
{
    match text_at(image, HEAD_SIZE) {
        None => 0,
        Some(name) => (HEAD_SIZE + padded(name.len() + 1)) as u32,
    }
}

/// The bytes among which a name ends.
#[tactic(auto, unfolding(crate::specs::Fields::name_field))]
fn name_field(image: &[u8], at: usize) -> &[u8]
    requires { at ≤ length image.now }
    ensures { result.now ≡ name_field image.now at }
{
    let rest = &image[at..];
    if rest.len() < NAME_FIELD_SIZE {
        rest
    } else {
        &rest[..NAME_FIELD_SIZE]
    }
}

/// The bytes before the first zero byte, if there is one.
pub fn ended(field: &[u8]) -> Option<&[u8]>
    ensures { option_map (λ text. text.now) result ≡ ended field.now }
{
    match first_zero(field) {
        Some(end) => Some(&field[..end]),
        None => None,
    }
}

/// The place of the first zero byte, if there is one. Most names are short, so the first bytes are
/// searched alone.
fn first_zero(field: &[u8]) -> Option<usize>
    ensures value { option_map (λ end. take end field.now) result ≡ ended field.now }
    ensures within { IfSome result (λ end. end < length field.now) }
{
    if NEAR <= field.len() {
        let near = memchr(0, &field[..NEAR]);
        if near.is_some() {
            return near;
        }
    }
    memchr(0, field)
}

/// The length of the name of the header at a place; 0 if it has no end.
fn name_len(image: &[u8], at: u32) -> u32
    requires inside { at + HEAD_SIZE ≤ length image.now }
    requires small { length image.now < 2 ^ 32 }
    ensures { result ≡ length (name_of image.now at) }
{
    match text_at(image, at as usize + HEAD_SIZE) {
        Some(name) => name.len() as u32,
        None => 0,
    }
}
