//! Names of headers, as classes of their numbers, for the rule that a directory holds a name once.
//! Bad names are left to `header`.
//!
//! Most names occur once. The names of all headers are therefore hashed first, and those whose hash
//! occurs once are left out of the sort that finds equal ones.

ghost use Rattle.std.specs.Prelude.{◌≡◌, ◌+◌, ◌<◌, ◌≤◌, ◌^◌, ℕ, IfOk, IsTrue, MatchOption, length, get_or, slice_index};
ghost use Rattle.std.specs.Option.{option_map};
ghost use Rattle.romfs_format.specs.declared.limits.TheConstants.{HEAD_SIZE};
ghost use Rattle.romfs_sets.specs.Once.{AreSeenOnce};
ghost use Rattle.romfs_sets.specs.Names.{HoldTheShared};
ghost use Rattle.romfs_rules.specs.Names.{kept_name, kept_names, AreClassesOf, AreNameHashes, HaveNamesApart, HaveTheirsAlone};

use crate::volume::Volume;
use romfs_format::limits::HEAD_SIZE;
use romfs_format::read::is_dot_name;
use romfs_held::read::text_at;
use romfs_sets::{NumberedName, classes, hash_of, seen_once};
use std::alloc::{AllocError, Allocator};

/// The classes of headers by their names and hashes, each a number of a header, with one more for
/// none; None only if no two headers have the same name.
pub(crate) fn name_classes_by<A: Allocator + Copy>(
    alloc: A,
    volume: &Volume,
    heads: &[u32],
    hashes: &[u64],
) -> Result<Option<Vec<u32, A>>, AllocError>
    requires few { length heads.now < 2 ^ 32 }
    requires inside { (i : ℕ) → i < length heads.now →
        get_or heads.now i 0 + HEAD_SIZE ≤ length volume.now.bytes.now }
    requires hashes { AreNameHashes
        (kept_names volume.now.bytes.now heads.now) (length heads.now) hashes.now }
    ensures { IfOk result (λ classes. MatchOption classes
        (HaveNamesApart volume.now.bytes.now heads.now)
        (λ some. AreClassesOf volume.now.bytes.now heads.now some.items)) }
{
    let once = seen_once(alloc, hashes)?;
    let named = named_headers(alloc, volume, heads, &once)?;
    classes(alloc, named, heads.len())
}

/// The same by their names alone.
pub(crate) fn name_classes_of<A: Allocator + Copy>(
    alloc: A,
    volume: &Volume,
    heads: &[u32],
) -> Result<Option<Vec<u32, A>>, AllocError>
    requires few { length heads.now < 2 ^ 32 }
    requires inside { (i : ℕ) → i < length heads.now →
        get_or heads.now i 0 + HEAD_SIZE ≤ length volume.now.bytes.now }
    ensures { IfOk result (λ classes. MatchOption classes
        (HaveNamesApart volume.now.bytes.now heads.now)
        (λ some. AreClassesOf volume.now.bytes.now heads.now some.items)) }
{
    let hashes = name_hashes(alloc, volume, heads)?;
    name_classes_by(alloc, volume, heads, &hashes)
}

/// Whether no two hashes are equal, each compared with each.
pub(crate) fn have_hashes_apart(hashes: &[u64]) -> bool
    ensures { IsTrue result → (i j : ℕ) → i < length hashes.now → j < length hashes.now
        → slice_index hashes.now i ≡ slice_index hashes.now j → i ≡ j }
{
    for high in 0..hashes.len() {
        if hashes[..high].contains(&hashes[high]) {
            return false;
        }
    }
    true
}

// The hash of each header's name, and 0 if it has none.
fn name_hashes<A: Allocator + Copy>(
    alloc: A,
    volume: &Volume,
    heads: &[u32],
) -> Result<Vec<u64, A>, AllocError>
    requires inside { (i : ℕ) → i < length heads.now →
        get_or heads.now i 0 + HEAD_SIZE ≤ length volume.now.bytes.now }
    ensures { IfOk result (λ hashes. AreNameHashes
        (kept_names volume.now.bytes.now heads.now) (length heads.now) hashes.items) }
{
    let mut hashes = Vec::with_capacity(alloc, heads.len())?;
    for at in heads {
        let hash = match kept_name(volume, *at as usize) {
            Some(name) => hash_of(name),
            None => 0,
        };
        hashes.push(hash)?;
    }
    Ok(hashes)
}

// The headers that have a name, each with it, except those whose name is known to occur once.
fn named_headers<'a, A: Allocator + Copy>(
    alloc: A,
    volume: &Volume<'a>,
    heads: &[u32],
    once: &[bool],
) -> Result<Vec<NumberedName<'a>, A>, AllocError>
    requires few { length heads.now < 2 ^ 32 }
    requires inside { (i : ℕ) → i < length heads.now →
        get_or heads.now i 0 + HEAD_SIZE ≤ length volume.now.bytes.now }
    requires sized { length once.now ≡ length heads.now }
    requires once { HaveTheirsAlone
        (kept_names volume.now.bytes.now heads.now) (length heads.now) once.now }
    ensures { IfOk result (λ named. HoldTheShared
        (kept_names volume.now.bytes.now heads.now) (length heads.now) named.items) }
{
    let mut named = Vec::new(alloc);
    for (number, at) in heads.iter().enumerate() {
        if once[number] {
            continue;
        }
        if let Some(name) = kept_name(volume, *at as usize) {
            named.push(NumberedName {
                hash: hash_of(name),
                name,
                number: number as u32,
            })?;
        }
    }
    Ok(named)
}

// The name that a header has wherever it is a member: not the root's, nor `.` or `..`.
fn kept_name<'a>(volume: &Volume<'a>, at: usize) -> Option<&'a [u8]>
    requires inside { at + HEAD_SIZE ≤ length volume.now.bytes.now }
    ensures { option_map (λ name. name.now) result ≡ kept_name volume.now.bytes.now at }
{
    if at == volume.root {
        return None;
    }
    let name = text_at(volume.bytes, at + HEAD_SIZE)?;
    if is_dot_name(name) { None } else { Some(name) }
}
