//! The walk over the headers of an image.
//!
//! It begins at the root and follows each header: to the header after it, the first header of a
//! directory, the destination of a hard link. Each place inside is noted by its slot of 16 bytes
//! when it is first named, and visited once, so loops end. A place outside leads nowhere.

ghost use Rattle.std.specs.Prelude.{◌≡◌, ◌≢◌, ◌+◌, ◌%◌, ◌<◌, ◌≤◌, ◌/◌, ◌^◌, [], false, length, get_or, min, not, count_by, ℕ, List, IsTrue, IsFalse, IfOk, OnOk, IfErr, if◌then◌else◌, nat_le};
ghost use Rattle.romfs_format.specs.declared.head.Kind.TheVariants.{Directory, HardLink};
ghost use Rattle.romfs_format.specs.declared.limits.TheConstants.{HEAD_SIZE};
ghost use Rattle.romfs_format.specs.Fields.{root, word, kind_of};
ghost use Rattle.romfs_kept.specs.Reads.{IsCause, HasBytesAt};
ghost use Rattle.romfs_kept.specs.Gathered.{IsGathered, IsReach};
ghost use Rattle.romfs_kept.specs.Walk.{HasFront, is_noted, HasPushed, HasWalked};

use crate::fault::GatherFault;
use crate::grain::Grain;
use crate::packing::pack;
use crate::pieces::Piece;
use crate::reader::Reader;
use crate::visit::{keep_row, visit};
use devices::Contents;
use romfs_format::Kind;
use romfs_format::limits::{HEAD_SIZE, SUMMED_SIZE};
use romfs_format::read::{cleared, kind_of, padded, word};
use romfs_held::blocks::text_in;
use romfs_held::{BLOCK_SIZE, Kept};
use romfs_sets::SparseSlots;
use std::alloc::{AllocError, Allocator};

/// Keeps the first 512 bytes of an image, and each header that the root leads to, with its name
/// and, for a symbolic link, its target. Bytes after the full size are not looked at. Nothing is
/// judged: what leads outside or in a loop is followed no further, and bytes that are not an image
/// are gathered like any others.
///
/// `Unread` only if a read failed, or if the bytes end before the reported size; `Memory` only if
/// memory was refused. A read of bytes in memory never fails. One under a digest fails only if a
/// read of the files does, or if they are not the named ones.
///
/// A header is read once. It takes two reads at most, each extended to the grain of the source, and
/// a third for the target of a symbolic link whose name has 48 bytes or more; adjacent headers take
/// fewer. Memory is taken in proportion to headers, names and targets, and a byte for each 2,048 of
/// the image. It takes n log n steps, in any order of headers.
pub fn gather<S: Contents, A: Allocator + Copy>(
    alloc: A,
    source: &S,
    grain: Grain,
) -> Result<Kept<A>, GatherFault>
    ensures ok { IfOk result (IsGathered (S.source source.now)) }
    ensures err { IfErr result (IsCause (S.source source.now)) }
{
    let mut reader = begin(alloc, source, grain)?;
    let mut pieces = Vec::new(alloc);
    let root = keep_front(&mut reader, &mut pieces)?;
    walk(alloc, &mut reader, root, &mut pieces)?;
    Ok(pack(alloc, reader.size(), pieces)?)
}

/// A reader of all bytes that are looked at.
fn begin<'s, S: Contents, A: Allocator>(
    alloc: A,
    source: &'s S,
    grain: Grain,
) -> Result<Reader<'s, S, A>, GatherFault>
    ensures source { IfOk result (λ reader. reader.source ≡ source.now) }
    ensures reach { IfOk result (λ reader. IsReach (S.source source.now) reader.size) }
    ensures err { IfErr result (IsCause (S.source source.now)) }
{
    let whole = source.size().min(u64::from(u32::MAX)) as u32;
    let mut reader = Reader::new(alloc, source, whole, grain);
    let mut front = [0u8; SUMMED_SIZE];
    reader.read(0, &mut front)?;
    reader.cut(whole.min(least(word(&front, 8))));
    Ok(reader)
}

/// A full size, or the size of a volume header if it is less.
fn least(full: u32) -> u32
    ensures value { result ≡ (if nat_le HEAD_SIZE full then full else HEAD_SIZE) }
    ensures small { full < 2 ^ 32 }
{
    if HEAD_SIZE as u32 <= full {
        full
    } else {
        HEAD_SIZE as u32
    }
}

/// Adds the first bytes, and returns the place of the root.
fn keep_front<S: Contents, A: Allocator>(
    reader: &mut Reader<'_, S, A>,
    pieces: &mut Vec<Piece, A>,
) -> Result<u32, GatherFault>
    requires empty { pieces.old.items ≡ [] }
    ensures same { reader.new ≡ reader.old }
    ensures front { IfOk result (λ root_at.
        HasFront S.source reader.new root_at pieces.new.items) }
    ensures even { IfOk result (λ root_at. root_at % 16 ≡ 0) }
    ensures err { IfErr result (IsCause (S.source reader.new.source)) }
{
    let mut front = [0u8; SUMMED_SIZE];
    keep_row(reader, 0, &mut front, pieces)?;
    Ok(root_in(&front, reader.size()))
}

/// The place of the root, from the first bytes.
#[tactic(auto, unfolding(romfs_format::specs::Fields::root))]
fn root_in(front: &[u8], size: u32) -> u32
    requires { length front.now ≡ 512 }
    ensures root { (xs : List ℕ) → length xs ≡ size → HasBytesAt xs 0 front.now →
        result ≡ root xs }
    ensures even { result % 16 ≡ 0 }
{
    if size < HEAD_SIZE as u32 {
        return 0;
    }
    match text_in(&front[HEAD_SIZE..], HEAD_SIZE as u32, size) {
        None => 0,
        Some(name) => (HEAD_SIZE + padded(name.len() + 1)) as u32,
    }
}

/// Looks at the root, and at all that it leads to.
fn walk<S: Contents, A: Allocator + Copy>(
    alloc: A,
    reader: &mut Reader<'_, S, A>,
    root: u32,
    pieces: &mut Vec<Piece, A>,
) -> Result<(), GatherFault>
    requires even { root % 16 ≡ 0 }
    requires front { HasFront S.source reader.old root pieces.old.items }
    ensures same { reader.new ≡ reader.old }
    ensures ok { OnOk result (HasWalked S.source reader.new pieces.new.items) }
    ensures err { IfErr result (IsCause (S.source reader.new.source)) }
{
    let size = reader.size();
    let mut todo = Vec::new(alloc);
    let mut noted = SparseSlots::new(alloc, size as usize / BLOCK_SIZE + 1)?;
    note(&mut todo, &mut noted, size, true, root)?;
    while let Some(at) = todo.pop() {
        let words = visit(reader, at, pieces)?;
        let next = cleared(words.first);
        let goes_on = follows_next(root, size, at, next);
        note(&mut todo, &mut noted, size, goes_on, next)?;
        let goes_down = follows_spec(root, size, at, words.first);
        note(
            &mut todo,
            &mut noted,
            size,
            goes_down,
            cleared(words.second),
        )?;
    }
    Ok(())
}

/// Lets a place wait, if requested, and if it is inside and was not noted before.
fn note<A: Allocator>(
    todo: &mut Vec<u32, A>,
    noted: &mut SparseSlots<A>,
    size: u32,
    test: bool,
    place: u32,
) -> Result<(), AllocError>
    requires even { place % 16 ≡ 0 }
    requires sized { length noted.old ≡ size / 16 + 1 }
    ensures pushed { OnOk result (HasPushed todo.old.items todo.new.items
        (is_noted size noted.old) (is_noted size noted.new) test place) }
    ensures count { OnOk result (length todo.new.items + count_by not noted.new
        ≡ length todo.old.items + count_by not noted.old) }
    ensures sized { OnOk result (length noted.new ≡ length noted.old) }
{
    if !test {
        return Ok(());
    }
    if !is_new(noted, size, place) {
        return Ok(());
    }
    noted.insert(place as usize / BLOCK_SIZE);
    todo.push(place)?;
    Ok(())
}

/// Whether a place is inside, and was not noted.
fn is_new<A: Allocator>(noted: &SparseSlots<A>, size: u32, place: u32) -> bool
    requires even { place % 16 ≡ 0 }
    requires sized { length noted.now ≡ size / 16 + 1 }
    ensures yes { IsTrue result → get_or noted.now (place / 16) false ≡ false }
    ensures low { IsTrue result → place / 16 < length noted.now }
    ensures no { IsFalse result → IsTrue (is_noted size noted.now place) }
{
    if place >= size {
        return false;
    }
    !noted.contains(place as usize / BLOCK_SIZE)
}

/// Whether the header after the one at a place is visited.
fn follows_next(root: u32, size: u32, at: u32, next: u32) -> bool
    ensures { root ≤ at → at + HEAD_SIZE ≤ size → next ≢ 0 → IsTrue result }
{
    root <= at && at as usize + HEAD_SIZE <= size as usize && next != 0
}

/// Whether the header that spec.info names is looked at.
fn follows_spec(root: u32, size: u32, at: u32, first: u32) -> bool
    ensures root { at ≡ root → IsTrue result }
    ensures directory { root ≤ at → at + HEAD_SIZE ≤ size →
        kind_of (first % 8) ≡ Directory → IsTrue result }
    ensures link { root ≤ at → at + HEAD_SIZE ≤ size →
        kind_of (first % 8) ≡ HardLink → IsTrue result }
{
    if at == root {
        return true;
    }
    if root <= at && at as usize + HEAD_SIZE <= size as usize {
        return match kind_of(first) {
            Kind::Directory => true,
            Kind::HardLink => true,
            _ => false,
        };
    }
    false
}
