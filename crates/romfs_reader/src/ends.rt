//! Where many hard links end.
//!
//! Hard links may lead to one another in chains that many share: link -> link -> link -> file. Each
//! link that a search passes is therefore noted with the offset of the end found, and a later
//! search stops at the first noted one. A link that leads to the end itself is noted only if a
//! search reached it from another link.
//!
//! All searches of an image together take n log n steps in the headers that they start from and
//! pass.

ghost use Rattle.std.specs.Prelude.{◌≡◌, IfOk};
ghost use Rattle.romfs_format.specs.Links.{IsFinal};
ghost use Rattle.romfs_reader.specs.Images.{IsImage};
ghost use Rattle.romfs_reader.specs.Readers.{IsGiven};
ghost use Rattle.romfs_reader.specs.Ends.{AreEnds};

use romfs_format::head::{Head, Kind};
use romfs_format::read::cleared;
use romfs_held::Held;
use romfs_held::read::head_at;
use std::alloc::{AllocError, Allocator};
use std::collections::BTreeMap;
use std::marker::Model;

/// The ends of an image's hard links that were found so far. A clause sees the image's bytes.
#[derive(Drop)]
pub struct Ends<'a, A: Allocator> {
    image: Held<'a>,
    /// By the offset of a hard link, the offset where its chain ends.
    known: BTreeMap<u32, u32, A>,
}

impl<'a, A: Allocator> Model for Ends<'a, A> {
    ghost use Rattle.std.specs.Prelude.{List, ℕ};
    ghost use Rattle.romfs_reader.specs.Images.{IsImage};
    ghost use Rattle.romfs_reader.specs.Ends.{AreEnds};

    ghost Value = { List ℕ };

    ghost view = { λ held. held.image };

    ghost invariant = { λ held. IsImage held.image × AreEnds held.image held.known };
}

impl<'a, A: Allocator + Copy> Ends<'a, A> {
    /// No end is known at first.
    pub(crate) fn new(alloc: A, image: &Held<'a>) -> Ends<'a, A>
        requires { IsImage image.now }
        ensures { result ≡ image.now }
    {
        let known = BTreeMap::new(alloc);
        Ends {
            image: image.again(),
            known,
        }
    }

    /// The header that a hard link leads to, after any further hard links (romfs.rst, "spec.info").
    /// Any other header is returned. `AllocError` only if memory was refused.
    ///
    /// It takes some bytes for each hard link that it passes on the way to another one, and passes
    /// none of these twice.
    pub fn target(&mut self, head: &Head) -> Result<Head, AllocError>
        requires { IsGiven self.old head.now }
        ensures end { IfOk result (λ end. IsFinal self.old head.now.offset end.offset) }
        ensures given { IfOk result (λ end. IsGiven self.old end) }
        ensures same { self.new ≡ self.old }
    {
        let end = end_from(&self.image, &self.known, head);
        if cleared(head.spec) != end.offset {
            note(&self.image, &mut self.known, head, end.offset)?;
        }
        Ok(end)
    }
}

/// The end of the chain of hard links from a given header, by the first end that is known.
fn end_from<A: Allocator>(image: &Held<'_>, known: &BTreeMap<u32, u32, A>, head: &Head) -> Head
    requires image { IsImage image.now }
    requires given { IsGiven image.now head.now }
    requires known { AreEnds image.now known.now }
    ensures end { IsFinal image.now head.now.offset result.offset }
    ensures given { IsGiven image.now result }
{
    let mut at = *head;
    while at.kind == Kind::HardLink {
        if let Some(end) = known.get(&at.offset) {
            return head_at(image, *end);
        }
        at = head_at(image, cleared(at.spec));
    }
    at
}

/// Notes the end of each hard link from a header that is given on, up to one whose end is known.
fn note<A: Allocator + Copy>(
    image: &Held<'_>,
    known: &mut BTreeMap<u32, u32, A>,
    head: &Head,
    end: u32,
) -> Result<(), AllocError>
    requires image { IsImage image.now }
    requires given { IsGiven image.now head.now }
    requires end { IsFinal image.now head.now.offset end }
    requires known { AreEnds image.now known.old }
    ensures { AreEnds image.now known.new }
{
    let mut at = *head;
    while at.kind == Kind::HardLink && !known.contains_key(&at.offset) {
        known.insert(at.offset, end)?;
        at = head_at(image, cleared(at.spec));
    }
    Ok(())
}
