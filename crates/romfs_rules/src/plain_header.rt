//! Headers that break no rule by their own bytes.
//!
//! A plain header must keep a little more than the rules: a hard link leads directly to its end,
//! and each name is ended, even the root's. A header that is not plain may still be sound.

ghost use Rattle.std.specs.Prelude.{◌≡◌, ◌+◌, ◌<◌, ◌≤◌, ◌↔◌, ◌^◌, length, IsTrue, IfSome, Some};
ghost use Rattle.romfs_format.specs.declared.limits.TheConstants.{HEAD_SIZE};
ghost use Rattle.romfs_format.specs.Fields.{IsInside, text_at, data_at};
ghost use Rattle.romfs_format.specs.Rules.{HasData, IsDevice, EndsOutside, HasLongTarget, HasLargeMajor};
ghost use Rattle.romfs_rules.specs.Marks.{Opens};
ghost use Rattle.romfs_rules.specs.Plain.{HasPlainBody, IsPlainEnd, IsPlainMember, IsPlainHeader, HasFields, IsFound};

use crate::header::is_bad_name;
use crate::plain::{Folder, Found};
use crate::slot::is_inside;
use crate::volume::Volume;
use romfs_format::head::{Head, Kind};
use romfs_format::limits::{HEAD_SIZE, MAX_MAJOR, MAX_NAMES, MAX_TARGET_SIZE};
use romfs_format::read::{cleared, is_dot_name, padded};
use romfs_held::read::{named_head, text_at};
use romfs_sets::hash_of;

/// What is found at a header in the chain of a directory, if the header breaks no rule by its own
/// bytes; none if it may break some.
#[inline(always)]
pub(crate) fn find_plain(volume: &Volume, folder: Folder, at: usize) -> Option<Found>
    requires { IsInside volume.now.bytes.now at }
    ensures { IfSome result (λ found. IsFound volume.now.bytes.now folder at found) }
{
    let name = text_at(volume.bytes, at + HEAD_SIZE)?;
    let head = head_by(volume, at, name);
    if is_plain(volume, folder, at, head, name) {
        Some(Found {
            hash: hash_of(name),
            next: head.next,
            opens: opens_by(volume, at, head, name),
        })
    } else {
        None
    }
}

// The fields of a header with this name.
#[tactic(auto, using(crate::proofs::PlainHeads::named, crate::proofs::PlainHeads::fields))]
#[inline(always)]
fn head_by(volume: &Volume, at: usize, name: &[u8]) -> Head
    requires inside { at + HEAD_SIZE ≤ length volume.now.bytes.now }
    requires text { text_at volume.now.bytes.now (at + HEAD_SIZE) ≡ Some name.now }
    requires within { data_at at name.now ≤ length volume.now.bytes.now }
    ensures { HasFields volume.now.bytes.now at result }
{
    named_head(volume.bytes, at as u32, name.len() as u32).head
}

// Whether a header with this name opens as a directory.
#[inline(always)]
fn opens_by(volume: &Volume, at: usize, head: Head, name: &[u8]) -> bool
    requires inside { IsInside volume.now.bytes.now at }
    requires head { HasFields volume.now.bytes.now at head }
    requires text { text_at volume.now.bytes.now (at + HEAD_SIZE) ≡ Some name.now }
    ensures { IsTrue result ↔ Opens volume.now.bytes.now at }
{
    // only the clauses name the image
    let _ = volume;
    head.kind == Kind::Directory && !is_dot_name(name)
}

// Whether a header with this name, in the chain of a directory, breaks no rule by its own bytes.
#[inline(always)]
fn is_plain(volume: &Volume, folder: Folder, at: usize, head: Head, name: &[u8]) -> bool
    requires inside { IsInside volume.now.bytes.now at }
    requires head { HasFields volume.now.bytes.now at head }
    requires text { text_at volume.now.bytes.now (at + HEAD_SIZE) ≡ Some name.now }
    requires within { data_at at name.now ≤ length volume.now.bytes.now }
    ensures { IsTrue result → IsPlainHeader volume.now.bytes.now folder at }
{
    if folder.names >= u32::from(MAX_NAMES) {
        return false;
    }
    if at == volume.root {
        folder.header as usize == volume.root
    } else {
        is_dot_name(name) || is_plain_member(volume, at, head, name)
    }
}

// Whether a member with this name breaks no rule by its own bytes, and as a hard link leads
// directly to its end.
#[inline(always)]
fn is_plain_member(volume: &Volume, at: usize, head: Head, name: &[u8]) -> bool
    requires at { at + HEAD_SIZE ≤ length volume.now.bytes.now }
    requires head { HasFields volume.now.bytes.now at head }
    requires name { data_at at name.now ≤ length volume.now.bytes.now }
    ensures { IsTrue result → IsPlainMember volume.now.bytes.now at name.now }
{
    if is_bad_name(name) || !has_plain_body(volume, at, head, name) {
        return false;
    }
    if head.kind == Kind::HardLink {
        is_plain_end(volume, cleared(head.spec) as usize)
    } else {
        true
    }
}

// Whether hard links that lead here end here, at a header that breaks no rule.
fn is_plain_end(volume: &Volume, at: usize) -> bool
    requires at { at < 2 ^ 32 }
    ensures { IsTrue result → IsPlainEnd volume.now.bytes.now at }
{
    if !is_inside(volume, at) {
        return false;
    }
    let Some(name) = text_at(volume.bytes, at + HEAD_SIZE) else {
        return false;
    };
    let head = head_by(volume, at, name);
    if head.kind == Kind::HardLink || head.kind == Kind::Directory {
        return false;
    }
    has_plain_body(volume, at, head, name)
}

// Whether the data, the target and the major number of a header with this name break no rule.
#[inline(always)]
fn has_plain_body(volume: &Volume, at: usize, head: Head, name: &[u8]) -> bool
    requires at { at + HEAD_SIZE ≤ length volume.now.bytes.now }
    requires head { HasFields volume.now.bytes.now at head }
    requires name { data_at at name.now ≤ length volume.now.bytes.now }
    ensures { IsTrue result → HasPlainBody volume.now.bytes.now at name.now }
{
    if is_of_data(volume, at, head) && ends_outside(volume, at, head, name) {
        return false;
    }
    !is_long_link(volume, at, head) && !is_large_device(volume, at, head)
}

// Whether a header is that of a regular file or a symbolic link.
#[inline(always)]
fn is_of_data(volume: &Volume, at: usize, head: Head) -> bool
    requires { HasFields volume.now.bytes.now at head }
    ensures { IsTrue result ↔ HasData volume.now.bytes.now at }
{
    // only the clauses name the image
    let _ = volume;
    matches!(head.kind, Kind::Regular | Kind::SymLink)
}

// Whether the data of a header with this name ends beyond the image.
#[inline(always)]
fn ends_outside(volume: &Volume, at: usize, head: Head, name: &[u8]) -> bool
    requires head { HasFields volume.now.bytes.now at head }
    requires name { data_at at name.now ≤ length volume.now.bytes.now }
    ensures { IsTrue result ↔ EndsOutside volume.now.bytes.now at name.now }
{
    let start = at + HEAD_SIZE + padded(name.len() + 1);
    volume.bytes.len() < start + head.size as usize
}

// Whether a header is that of a symbolic link with a target that is too long.
#[inline(always)]
fn is_long_link(volume: &Volume, at: usize, head: Head) -> bool
    requires { HasFields volume.now.bytes.now at head }
    ensures { IsTrue result ↔ HasLongTarget volume.now.bytes.now at }
{
    let _ = volume;
    head.kind == Kind::SymLink && head.size > MAX_TARGET_SIZE
}

// Whether a header is that of a device with a major number that is too large.
#[inline(always)]
fn is_large_device(volume: &Volume, at: usize, head: Head) -> bool
    requires { HasFields volume.now.bytes.now at head }
    ensures { IsTrue result ↔ HasLargeMajor volume.now.bytes.now at }
{
    is_of_device(volume, at, head) && head.spec / 65536 > MAX_MAJOR
}

// Whether a header is that of a device.
#[inline(always)]
fn is_of_device(volume: &Volume, at: usize, head: Head) -> bool
    requires { HasFields volume.now.bytes.now at head }
    ensures { IsTrue result ↔ IsDevice volume.now.bytes.now at }
{
    let _ = volume;
    matches!(head.kind, Kind::Block | Kind::Character)
}
