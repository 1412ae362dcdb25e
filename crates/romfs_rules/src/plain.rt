//! Images that plainly keep every rule.
//!
//! Most images do, and then one walk down from the root shows it: each directory's chain is
//! followed once, each header is checked in its place, and none is reached twice. No other walk is
//! needed, and only one set. At anything unusual the walk ends, and the other modules find whether
//! a rule is broken, and which.

ghost use Rattle.std.specs.Prelude.{◌≡◌, ℕ, [], ◌+◌, ◌/◌, ◌<◌, ◌≤◌, ◌↔◌, ◌^◌, IfOk, IsTrue, length, get_or};
ghost use Rattle.romfs_format.specs.declared.limits.TheConstants.{HEAD_SIZE};
ghost use Rattle.romfs_format.specs.Fields.{IsInside};
ghost use Rattle.romfs_rules.specs.Marks.{IsFresh, Opens};
ghost use Rattle.romfs_rules.specs.Names.{kept_names, AreNameHashes, HaveNamesApart};
ghost use Rattle.romfs_rules.specs.Plain.{AddsFolder, PassesChain, PassesFolder, KeepsPlainly};

use crate::lead::{first_of, next_by};
use crate::names::{have_hashes_apart, name_classes_by};
use crate::plain_header::find_plain;
use crate::slot::is_inside;
use crate::volume::Volume;
use romfs_sets::SparseSlots;
use std::alloc::{AllocError, Allocator};
use std::marker::Model;

/// How many names are compared with one another, at most.
const FEW: usize = 16;

/// A directory that is still to come, and how many names lead to it.
#[derive(Clone, Copy)]
pub(crate) struct Folder {
    pub(crate) header: u32,
    pub(crate) names: u32,
}

/// What a walk needs to go on from a plain header.
#[derive(Clone, Copy)]
pub(crate) struct Found {
    /// The hash of its name.
    pub(crate) hash: u64,
    /// The place of the header after it; 0 if there is none.
    pub(crate) next: u32,
    /// Whether it opens as a directory.
    pub(crate) opens: bool,
}

/// Whether one walk finds that an image keeps all rules after the volume header.
pub(crate) fn is_plain_image<A: Allocator + Copy>(
    alloc: A,
    volume: &Volume,
) -> Result<bool, AllocError>
    ensures { IfOk result (λ plain. IsTrue plain → KeepsPlainly volume.now.bytes.now) }
{
    let mut walk = Walk {
        marks: SparseSlots::new(alloc, volume.bytes.len() / 16)?,
        todo: Vec::new(alloc),
        heads: Vec::new(alloc),
        hashes: Vec::new(alloc),
    };
    walk.todo.push(Folder {
        header: volume.root as u32,
        names: 0,
    })?;
    while let Some(folder) = walk.todo.pop() {
        if !walk.is_plain_folder(alloc, volume, folder)? {
            return Ok(false);
        }
    }
    Ok(true)
}

// A walk down from the root. A clause sees how far it has come.
#[derive(Drop)]
struct Walk<A: Allocator> {
    /// The headers that it has reached.
    marks: SparseSlots<A>,
    /// The directories that are still to come.
    todo: Vec<Folder, A>,
    /// The headers of the chain that it goes along.
    heads: Vec<u32, A>,
    /// The hashes of their names.
    hashes: Vec<u64, A>,
}

impl<A: Allocator> Model for Walk<A> {
    ghost use Rattle.romfs_rules.specs.Plain.{WalkState};

    ghost Value = { WalkState };

    ghost view = { λ held. record {
      marks = held.marks;
      todo = held.todo.items;
      heads = held.heads.items;
      hashes = held.hashes.items;
    } };
}

impl<A: Allocator + Copy> Walk<A> {
    // Follows the chain of a directory, and returns whether each header there is new and plain, and
    // no two members have the same name.
    fn is_plain_folder(
        &mut self,
        alloc: A,
        volume: &Volume,
        folder: Folder,
    ) -> Result<bool, AllocError>
        requires inside { IsInside volume.now.bytes.now folder.header }
        requires sized { length self.old.marks ≡ length volume.now.bytes.now / 16 }
        ensures { IfOk result (λ plain. IsTrue plain →
            PassesFolder volume.now.bytes.now folder self.old self.new) }
    {
        if !self.is_plain_chain(volume, folder)? {
            return Ok(false);
        }
        have_names_apart(alloc, volume, &self.heads, &self.hashes)
    }

    // The same of headers alone, for any names.
    fn is_plain_chain(&mut self, volume: &Volume, folder: Folder) -> Result<bool, AllocError>
        requires inside { IsInside volume.now.bytes.now folder.header }
        requires sized { length self.old.marks ≡ length volume.now.bytes.now / 16 }
        ensures { IfOk result (λ plain. IsTrue plain →
            PassesChain volume.now.bytes.now folder self.old self.new) }
    {
        self.heads.clear();
        self.hashes.clear();
        let mut next = first_of(volume, folder.header as usize);
        while let Some(head) = next {
            let at = head as usize;
            if !is_new(volume, at, &self.marks) {
                return Ok(false);
            }
            let Some(found) = find_plain(volume, folder, at) else {
                return Ok(false);
            };
            self.marks.insert(at / 16);
            self.heads.push(head)?;
            self.hashes.push(found.hash)?;
            push_below(volume, folder, at, found.opens, &mut self.todo)?;
            next = next_by(volume, at, found.next);
        }
        Ok(true)
    }
}

// Whether a header lies in the image, and has no mark.
fn is_new<A: Allocator>(volume: &Volume, at: usize, marks: &SparseSlots<A>) -> bool
    requires at { at < 2 ^ 32 }
    requires sized { length marks.now ≡ length volume.now.bytes.now / 16 }
    ensures { IsTrue result → IsFresh volume.now.bytes.now marks.now at }
{
    is_inside(volume, at) && !marks.contains(at / 16)
}

// Whether no two of these headers have the same name.
fn have_names_apart<A: Allocator + Copy>(
    alloc: A,
    volume: &Volume,
    heads: &[u32],
    hashes: &[u64],
) -> Result<bool, AllocError>
    requires few { length heads.now < 2 ^ 32 }
    requires inside { (i : ℕ) → i < length heads.now →
        get_or heads.now i 0 + HEAD_SIZE ≤ length volume.now.bytes.now }
    requires hashes { AreNameHashes
        (kept_names volume.now.bytes.now heads.now) (length heads.now) hashes.now }
    ensures { IfOk result (λ apart. IsTrue apart → HaveNamesApart volume.now.bytes.now heads.now) }
{
    if hashes.len() <= FEW && have_hashes_apart(hashes) {
        return Ok(true);
    }
    match name_classes_by(alloc, volume, heads, hashes)? {
        None => Ok(true),
        Some(_) => Ok(false),
    }
}

// Adds a header of a directory's chain, if it opens as a directory and is not the root's.
fn push_below<A: Allocator>(
    volume: &Volume,
    folder: Folder,
    at: usize,
    opens: bool,
    todo: &mut Vec<Folder, A>,
) -> Result<(), AllocError>
    requires inside { IsInside volume.now.bytes.now at }
    requires names { folder.names + 1 < 2 ^ 32 }
    requires opens { IsTrue opens ↔ Opens volume.now.bytes.now at }
    ensures { IfOk result
        (λ _. AddsFolder volume.now.bytes.now folder at todo.old.items todo.new.items) }
{
    if at != volume.root && opens {
        todo.push(Folder {
            header: at as u32,
            names: folder.names + 1,
        })?;
    }
    Ok(())
}
