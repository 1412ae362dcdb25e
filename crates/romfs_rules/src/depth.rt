//! Members whose paths have too many names.
//!
//! It is checked only if an image breaks no other rule. Then one number of names leads to each
//! header, so a walk down from the root carries that number with it and passes each header once.

ghost use Rattle.std.specs.Prelude.{◌≡◌, [], ◌+◌, ◌/◌, ◌<◌, ◌↔◌, ◌^◌, ◌++◌, false, length, replicate, IsTrue, IfOk};
ghost use Rattle.romfs_format.specs.Fields.{IsInside};
ghost use Rattle.romfs_format.specs.Rules.{BreaksHeader};
ghost use Rattle.romfs_format.specs.declared.rule.Profile.TheVariants.{Usual};
ghost use Rattle.romfs_rules.specs.Judge.{KeepsAllHeaderRules};
ghost use Rattle.romfs_rules.specs.Outside.{IsLeast};
ghost use Rattle.romfs_rules.specs.Leads.{Adds};
ghost use Rattle.romfs_rules.specs.Depth.{IsTooDeep, NotesDeep, waiting, LeadsDown};

use crate::lead::{first_below, first_of, next_of};
use crate::member::is_dotted;
use crate::slot::{is_fresh, no_marks};
use crate::volume::Volume;
use romfs_format::limits::MAX_NAMES;
use romfs_format::rule::Rule;
use romfs_sets::SlotSet;
use std::alloc::{AllocError, Allocator};

/// The least header whose path has more than [`MAX_NAMES`] names, in an image that breaks no other
/// rule.
pub(crate) fn find_deep<A: Allocator + Copy>(
    alloc: A,
    volume: &Volume,
) -> Result<Option<u32>, AllocError>
    requires keeps { KeepsAllHeaderRules Usual volume.now.bytes.now }
    ensures { IfOk result
        (λ deep. IsLeast (BreaksHeader Usual volume.now.bytes.now Rule.TooDeep) deep) }
{
    let mut walk = Descent {
        marks: no_marks(alloc, volume)?,
        todo: Vec::new(alloc),
    };
    walk.find_deep(volume)
}

// A header that is still to come, and how many names lead to the directory of its chain.
#[derive(Clone, Copy)]
struct Waiting {
    header: u32,
    names: u32,
}

// A walk down from the root.
#[derive(Drop)]
struct Descent<A: Allocator> {
    /// The headers that it has reached.
    marks: SlotSet<A>,
    /// Those that are still to come.
    todo: Vec<Waiting, A>,
}

impl<A: Allocator> Descent<A> {
    // The least header that is too deep, of all that the root leads to.
    fn find_deep(&mut self, volume: &Volume) -> Result<Option<u32>, AllocError>
        requires keeps { KeepsAllHeaderRules Usual volume.now.bytes.now }
        requires unmarked { self.old.marks ≡ replicate (length volume.now.bytes.now / 16) false }
        requires empty { self.old.todo.items ≡ [] }
        ensures { IfOk result
            (λ deep. IsLeast (BreaksHeader Usual volume.now.bytes.now Rule.TooDeep) deep) }
    {
        push_some(&mut self.todo, first_of(volume, volume.root), 0)?;
        let mut deep = None;
        while let Some(next) = self.todo.pop() {
            let at = next.header as usize;
            if !is_fresh(volume, at, &self.marks) {
                continue;
            }
            self.marks.insert(at / 16);
            deep = note(volume, deep, next);
            follow(volume, next, &mut self.todo)?;
        }
        Ok(deep)
    }
}

// The least header that is too deep, with one header more than before.
fn note(volume: &Volume, deep: Option<u32>, at: Waiting) -> Option<u32>
    requires inside { IsInside volume.now.bytes.now at.header }
    ensures { NotesDeep volume.now.bytes.now at deep result }
{
    if !is_too_deep(volume, at) {
        return deep;
    }
    match deep {
        None => Some(at.header),
        Some(least) => Some(least.min(at.header)),
    }
}

// Whether a header is a member, and its path has too many names.
fn is_too_deep(volume: &Volume, at: Waiting) -> bool
    requires inside { IsInside volume.now.bytes.now at.header }
    ensures { IsTrue result ↔ IsTooDeep volume.now.bytes.now at }
{
    let place = at.header as usize;
    at.names >= u32::from(MAX_NAMES) && place != volume.root && !is_dotted(volume, place)
}

// Adds what a header leads to.
#[tactic(auto, using(crate::proofs::Descent::led))]
fn follow<A: Allocator>(
    volume: &Volume,
    from: Waiting,
    todo: &mut Vec<Waiting, A>,
) -> Result<(), AllocError>
    requires inside { IsInside volume.now.bytes.now from.header }
    requires names { from.names + 1 < 2 ^ 32 }
    ensures { IfOk result
        (λ _. Adds (LeadsDown volume.now.bytes.now from) todo.old.items todo.new.items) }
{
    let at = from.header as usize;
    push_some(todo, next_of(volume, at), from.names)?;
    push_some(todo, first_below(volume, at), from.names + 1)?;
    Ok(())
}

// Adds a header, if there is one.
fn push_some<A: Allocator>(
    todo: &mut Vec<Waiting, A>,
    header: Option<u32>,
    names: u32,
) -> Result<(), AllocError>
    ensures { IfOk result (λ _. todo.new.items ≡ todo.old.items ++ waiting header names) }
{
    if let Some(header) = header {
        todo.push(Waiting { header, names })?;
    }
    Ok(())
}
