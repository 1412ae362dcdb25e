//! Sets of slots that are few among many.
//!
//! The slots are cut into pages of 512, of which only those with a slot of the set are held: a bit
//! for each, in eight words. For each page its number among those is kept, from 1 upward:
//!
//! ```text
//! slots   ........ 1..1.... ........ ........ ......1. ........
//! pages   0        1        0        0        2        0
//! held    ........ 1..1.... ......1.
//! ```
//!
//! Number 0 is an empty page, for all pages that are not held. A set takes 4 bytes for each 512
//! slots, and 64 bytes for each 512 of which it has one; room for all is reserved at once, so
//! adding a slot never fails, but unused room is never touched.

ghost use Rattle.std.specs.Prelude.{◌≡◌, ◌+◌, ◌*◌, ◌<◌, ◌≤◌, ◌^◌, false, true, length, get_or, set, replicate, vec_capacity, IfOk};
ghost use Rattle.romfs_sets.specs.Pages.{ArePages, words_of};

use std::alloc::{AllocError, Allocator};
use std::marker::Model;

/// A set of slots, of those below a number, which are few. A clause sees whether each is in it.
#[derive(Drop)]
pub struct SparseSlots<A: Allocator> {
    /// By page, its number among those that are held; 0 if it has no slot of the set.
    pages: Vec<u32, A>,
    /// The pages that are held, in words, after an empty one.
    held: Vec<u64, A>,
    slots: usize,
}

impl<A: Allocator> Model for SparseSlots<A> {
    ghost use Rattle.std.specs.Prelude.{◌≡◌, ◌<◌, ◌≤◌, ◌+◌, ◌*◌, ◌/◌, ◌^◌, List, Bool, length, vec_capacity};
    ghost use Rattle.romfs_sets.specs.Sets.{bits};
    ghost use Rattle.romfs_sets.specs.Pages.{ArePages, words_of};

    ghost Value = { List Bool };

    ghost view = { λ set. bits set.slots (words_of set.pages.items set.held.items) };

    ghost invariant = { λ set. (length set.pages.items ≡ set.slots / 512 + 1) × (set.slots < 2 ^ 32)
        × ((length set.pages.items + 1) * 8 ≤ vec_capacity set.held)
        × ArePages set.pages.items set.held.items };
}

impl<A: Allocator + Copy> SparseSlots<A> {
    /// The empty set of slots below a number. `AllocError` only if memory was refused.
    pub fn new(alloc: A, slots: usize) -> Result<SparseSlots<A>, AllocError>
        requires { slots < 2 ^ 32 }
        ensures { IfOk result (λ empty. empty ≡ replicate slots false) }
    {
        let count = slots / 512 + 1;
        let pages = vec![in alloc; 0u32; count]?;
        let mut held = Vec::with_capacity(alloc, (count + 1) * 8)?;
        held.extend_from_slice(&[0u64; 8])?;
        Ok(SparseSlots { pages, held, slots })
    }
}

impl<A: Allocator> SparseSlots<A> {
    /// Whether a slot is in the set.
    pub fn contains(&self, slot: usize) -> bool
        requires { slot < length self.now }
        ensures { result ≡ get_or self.now slot false }
    {
        let page = self.pages[slot / 512] as usize;
        self.held[page * 8 + slot / 64 % 8] >> (slot % 64) & 1 == 1
    }

    /// Adds a slot.
    pub fn insert(&mut self, slot: usize)
        requires { slot < length self.old }
        ensures { self.new ≡ set self.old slot true }
    {
        let page = hold(&mut self.pages, &mut self.held, slot / 512);
        self.held[page * 8 + slot / 64 % 8] |= 1 << (slot % 64);
    }
}

// The number of a page, which is held from here on.
fn hold<A: Allocator>(pages: &mut Vec<u32, A>, held: &mut Vec<u64, A>, page: usize) -> usize
    requires page { page < length pages.old.items }
    requires few { length pages.old.items < 2 ^ 32 }
    requires room { (length pages.old.items + 1) * 8 ≤ vec_capacity held.old }
    requires pages { ArePages pages.old.items held.old.items }
    ensures pages { ArePages pages.new.items held.new.items }
    ensures same { words_of pages.new.items held.new.items
        ≡ words_of pages.old.items held.old.items }
    ensures sized { length pages.new.items ≡ length pages.old.items }
    ensures room { vec_capacity held.old ≤ vec_capacity held.new }
    ensures number { result ≡ get_or pages.new.items page 0 }
    ensures some { 0 < result }
{
    let number = pages[page] as usize;
    if number != 0 {
        return number;
    }
    let number = held.len() / 8;
    held.extend_from_slice(&[0u64; 8]).unwrap();
    pages[page] = number as u32;
    number
}
