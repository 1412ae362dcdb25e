//! Which headers are in the root's chain, and which in chains of other directories.
//!
//! Chains may merge, loop or be shared, so none but the root's is walked on its own: one list of
//! headers to come serves all other directories together. A header without a mark gets one, and
//! adds the header after it and, as a directory, its first. Each is thus passed once.

ghost use Rattle.std.specs.Prelude.{◌≡◌, ◌+◌, ◌/◌, ◌<◌, ◌++◌, false, length, replicate, IfOk};
ghost use Rattle.std.specs.Option.{option_to_list};
ghost use Rattle.romfs_format.specs.Fields.{IsInside};
ghost use Rattle.romfs_rules.specs.Marks.{AreInRootChain, AreElsewhere};
ghost use Rattle.romfs_rules.specs.Leads.{AreStarts, LeadsOn, Adds};
ghost use Rattle.romfs_rules.specs.InChains.{AreChains};

use crate::lead::{first_below, next_of};
use crate::slot::{is_fresh, no_marks};
use crate::volume::Volume;
use romfs_format::read::cleared;
use romfs_held::read::word;
use romfs_sets::SlotSet;
use std::alloc::{AllocError, Allocator};

/// The headers in chains. Which of them are in the root's and which elsewhere matters only for the
/// root's own header.
#[derive(Drop)]
pub(crate) struct Chains<A: Allocator> {
    /// The headers in the chain of some opened directory.
    pub(crate) headers: SlotSet<A>,
    /// Whether the root's header is in the chain of another directory.
    pub(crate) root_elsewhere: bool,
}

/// Finds the headers in the chains of all opened directories.
pub(crate) fn find_chains<A: Allocator + Copy>(
    alloc: A,
    volume: &Volume,
) -> Result<Chains<A>, AllocError>
    ensures { IfOk result (AreChains volume.now.bytes.now) }
{
    let root_chain = mark_root_chain(alloc, volume)?;
    let mut headers = mark_elsewhere(alloc, volume, &root_chain)?;
    let root_elsewhere = headers.contains(volume.root / 16);
    headers.add_all(&root_chain);
    Ok(Chains {
        headers,
        root_elsewhere,
    })
}

// Marks the headers of the root's chain, up to one that lies outside or repeats.
fn mark_root_chain<A: Allocator + Copy>(alloc: A, volume: &Volume) -> Result<SlotSet<A>, AllocError>
    ensures { IfOk result (AreInRootChain volume.now.bytes.now) }
{
    let mut marks = no_marks(alloc, volume)?;
    let mut at = cleared(word(volume.bytes, volume.root + 4)) as usize;
    while is_fresh(volume, at, &marks) {
        marks.insert(at / 16);
        at = cleared(word(volume.bytes, at)) as usize;
    }
    Ok(marks)
}

// Marks the headers of the chains of all opened directories but the root.
fn mark_elsewhere<A: Allocator + Copy>(
    alloc: A,
    volume: &Volume,
    root_chain: &SlotSet<A>,
) -> Result<SlotSet<A>, AllocError>
    requires root_chain { AreInRootChain volume.now.bytes.now root_chain.now }
    ensures { IfOk result (AreElsewhere volume.now.bytes.now) }
{
    let mut walk = ChainWalk {
        marks: no_marks(alloc, volume)?,
        todo: seeds(alloc, volume, root_chain)?,
    };
    walk.finish(volume)?;
    Ok(walk.marks)
}

// The first headers of the root's own directories.
fn seeds<A: Allocator + Copy>(
    alloc: A,
    volume: &Volume,
    root_chain: &SlotSet<A>,
) -> Result<Vec<u32, A>, AllocError>
    requires root_chain { AreInRootChain volume.now.bytes.now root_chain.now }
    ensures { IfOk result (λ todo. AreStarts volume.now.bytes.now todo.items) }
{
    let mut todo = Vec::new(alloc);
    let mut from = 0;
    while let Some(slot) = root_chain.next_from(from) {
        push_some(&mut todo, first_below(volume, slot * 16))?;
        from = slot + 1;
    }
    Ok(todo)
}

// A walk over chains.
#[derive(Drop)]
struct ChainWalk<A: Allocator> {
    /// The headers that it has reached.
    marks: SlotSet<A>,
    /// Those that are still to come.
    todo: Vec<u32, A>,
}

impl<A: Allocator> ChainWalk<A> {
    // Goes on until no header is to come.
    fn finish(&mut self, volume: &Volume) -> Result<(), AllocError>
        requires starts { AreStarts volume.now.bytes.now self.old.todo.items }
        requires unmarked { self.old.marks ≡ replicate (length volume.now.bytes.now / 16) false }
        ensures { IfOk result (λ _. AreElsewhere volume.now.bytes.now self.new.marks) }
    {
        while let Some(word) = self.todo.pop() {
            let at = word as usize;
            if !is_fresh(volume, at, &self.marks) {
                continue;
            }
            self.marks.insert(at / 16);
            follow(volume, at, &mut self.todo)?;
        }
        Ok(())
    }
}

// Adds what a header leads on to.
fn follow<A: Allocator>(
    volume: &Volume,
    at: usize,
    todo: &mut Vec<u32, A>,
) -> Result<(), AllocError>
    requires inside { IsInside volume.now.bytes.now at }
    ensures { IfOk result
        (λ _. Adds (LeadsOn volume.now.bytes.now at) todo.old.items todo.new.items) }
{
    push_some(todo, next_of(volume, at))?;
    push_some(todo, first_below(volume, at))?;
    Ok(())
}

// Adds a word, if there is one.
fn push_some<A: Allocator>(todo: &mut Vec<u32, A>, word: Option<u32>) -> Result<(), AllocError>
    ensures { IfOk result (λ _. todo.new.items ≡ todo.old.items ++ option_to_list word) }
{
    if let Some(word) = word {
        todo.push(word)?;
    }
    Ok(())
}
