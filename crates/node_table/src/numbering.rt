//! Numbers of places, in the order of their first path.
//!
//! Usually each branch has a place of its own. Then its position gives its number, and no lists are
//! kept.

ghost use Rattle.std.specs.Prelude.{◌≡◌, ◌<◌, ◌^◌, length, slice_index, slice_set, IfOk, IsTrue};
ghost use Rattle.node_table.specs.Firsts.{AreFirsts, AreThemselves};
ghost use Rattle.node_table.specs.Numbering.{place_key, one_more, AreKeys, AreNumbered};

use crate::firsts::firsts_of;
use layer_paths::{Branch, Entry, Place};
use std::alloc::{AllocError, Allocator};
use std::marker::Model;

/// The places of branches, numbered from 1 in the order of their first branch. A contract sees
/// three lists: the position of each place's first branch among all branches; how many branches
/// have the place, capped at the maximum of its type; and the number of each branch's place.
#[derive(Drop)]
pub(crate) struct Numbered<A: Allocator> {
    form: Form<A>,
}

/// How numbers are stored.
#[derive(Drop)]
pub(crate) enum Form<A: Allocator> {
    /// This many branches, each with a place of its own.
    Apart(usize),
    /// Branches, some of which share a place.
    Shared {
        starts: Vec<usize, A>,
        paths: Vec<u32, A>,
        numbers: Vec<u64, A>,
    },
}

impl<A: Allocator> Model for Numbered<A> {
    ghost use Rattle.std.specs.Prelude.{◌<◌, ◌^◌, length};
    ghost use Rattle.node_table.specs.Numbering.{Numbering, numbering_of};

    ghost Value = { Numbering };

    ghost view = { λ held. numbering_of held.form };

    ghost invariant = { λ held. length (numbering_of held.form).numbers < 2 ^ 64 };
}

impl<A: Allocator> Numbered<A> {
    /// How many places there are.
    #[inline(always)]
    pub(crate) fn len(&self) -> usize
        ensures { result ≡ length self.now.starts }
    {
        match &self.form {
            Form::Apart(count) => *count,
            Form::Shared { starts, .. } => starts.len(),
        }
    }

    /// The position of the first branch of the place with this number, less one.
    #[inline(always)]
    pub(crate) fn start(&self, at: usize) -> usize
        requires { at < length self.now.starts }
        ensures { result ≡ slice_index self.now.starts at }
    {
        match &self.form {
            Form::Apart(_) => at,
            Form::Shared { starts, .. } => starts[at],
        }
    }

    /// How many branches have the place with this number, less one.
    #[inline(always)]
    pub(crate) fn paths(&self, at: usize) -> u32
        requires { at < length self.now.paths }
        ensures { result ≡ slice_index self.now.paths at }
    {
        match &self.form {
            Form::Apart(_) => 1,
            Form::Shared { paths, .. } => paths[at],
        }
    }

    /// The number of the place of the branch at this position.
    #[inline(always)]
    pub(crate) fn number(&self, branch: usize) -> u64
        requires { branch < length self.now.numbers }
        ensures { result ≡ slice_index self.now.numbers branch }
    {
        match &self.form {
            Form::Apart(_) => branch as u64 + 1,
            Form::Shared { numbers, .. } => numbers[branch],
        }
    }
}

// Numbers the places of these branches. It takes n log n steps.
pub(crate) fn number_places<A: Allocator + Copy>(
    alloc: A,
    visits: &[&Branch<Entry, A>],
) -> Result<Numbered<A>, AllocError>
    ensures { IfOk result (λ n. AreNumbered visits.now n.starts n.paths n.numbers) }
{
    let keys = keys_of(alloc, visits)?;
    let firsts = firsts_of(alloc, &keys)?;
    if are_themselves(&firsts) {
        return Ok(Numbered {
            form: Form::Apart(visits.len()),
        });
    }
    number_shared(alloc, visits, keys, &firsts)
}

// The same, from the keys of the places, and the first position of each key.
fn number_shared<A: Allocator + Copy>(
    alloc: A,
    visits: &[&Branch<Entry, A>],
    keys: Vec<u64, A>,
    firsts: &[usize],
) -> Result<Numbered<A>, AllocError>
    requires keys { AreKeys visits.now keys.items }
    requires firsts { AreFirsts keys.items firsts.now }
    ensures { IfOk result (λ n. AreNumbered visits.now n.starts n.paths n.numbers) }
{
    let mut starts = Vec::with_capacity(alloc, visits.len())?;
    let mut paths = Vec::with_capacity(alloc, visits.len())?;
    // the number of its place replaces each key
    let mut numbers = keys;
    for at in 0..visits.len() {
        let before = firsts[at];
        if before == at {
            starts.push(at)?;
            paths.push(1)?;
            numbers[at] = starts.len() as u64;
        } else {
            let number = numbers[before];
            count_one(&mut paths, (number - 1) as usize);
            numbers[at] = number;
        }
    }
    Ok(Numbered {
        form: Form::Shared {
            starts,
            paths,
            numbers,
        },
    })
}

// Whether each number of a list is that of its place.
fn are_themselves(firsts: &[usize]) -> bool
    ensures { IsTrue result → AreThemselves (length firsts.now) firsts.now }
{
    for (at, first) in firsts.iter().enumerate() {
        if *first != at {
            return false;
        }
    }
    true
}

// A place as one number.
fn place_key(place: Place) -> u64
    ensures value { result ≡ place_key place }
    ensures small { place.header < 2 ^ 32 }
{
    u64::from(place.layer) * 0x1_0000_0000 + u64::from(place.header)
}

// The places of branches, each as one number.
fn keys_of<A: Allocator + Copy>(
    alloc: A,
    visits: &[&Branch<Entry, A>],
) -> Result<Vec<u64, A>, AllocError>
    ensures { IfOk result (λ keys. AreKeys visits.now keys.items) }
{
    let mut keys = Vec::with_capacity(alloc, visits.len())?;
    for visit in visits {
        keys.push(place_key(visit.value().place))?;
    }
    Ok(keys)
}

// Counts one more path at a place.
fn count_one<A: Allocator>(paths: &mut Vec<u32, A>, at: usize)
    requires { at < length paths.old.items }
    ensures { paths.new.items
        ≡ slice_set paths.old.items at (one_more (slice_index paths.old.items at)) }
{
    let count = paths[at];
    paths[at] = count.saturating_add(1);
}
