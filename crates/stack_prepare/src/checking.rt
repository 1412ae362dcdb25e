//! Images, some of them checked at the same time.
//!
//! A list is cut in two, and so on; each half is checked in a call of its own, and the results are
//! joined: if both have a broken image, the lower half's is reported.

ghost use Rattle.std.specs.Prelude.{◌≡◌, ◌+◌, ◌≤◌, length, IfOk, IfErr};
ghost use Rattle.stack_prepare.specs.Layers.{AreRefused, IsFew, held_contents};
ghost use Rattle.stack_prepare.specs.Checking.{AreBoth, AreSeen, Checks, Joins};
ghost use denote.Param.Send.{IsSync, IsSend, Frees};
ghost use Rattle.stack_model.specs.declared.limits.TheConstants.{MAX_LAYERS};

use crate::refusal::Refusal;
use draw_board::{Gate, Work, forks_of};
use romfs_format::Profile;
use romfs_held::HeldImage;
use romfs_image::{CheckFault, Image, check_held};
use romfs_rows::{RowLists, Rows};
use std::alloc::Allocator;
use std::thread::{Threads, join};

/// Images that were checked, with the rows of attributes of each and their lists of extended
/// attributes, if the profile reads them.
#[derive(Drop)]
pub(crate) struct Checked<A: Allocator> {
    pub(crate) images: Vec<Image<A>, A>,
    pub(crate) rows: Vec<Rows<A>, A>,
    pub(crate) lists: Vec<RowLists<A>, A>,
}

/// The images, checked by the rules of a profile, in their order.
///
/// `Layer` names the lowest image that breaks a rule, counted from 0, and its fault. The gate is
/// passed before each check. As many parts of a list are checked at the same time as there are
/// processors, at most 16 ([`forks_of`]).
///
/// It requires 1 to 128 images.
pub(crate) fn check_all<R: Threads + Sync, A: Allocator + Copy + Send + Sync, G: Gate + Sync>(
    rt: &R,
    alloc: A,
    images: Vec<HeldImage<A>, A>,
    profile: Profile,
    gate: &G,
) -> Result<Checked<A>, Refusal>
    requires { IsFew (length images.items) }
    ensures ok { IfOk result (AreSeen profile images.items) }
    ensures err { IfErr result (AreRefused profile (held_contents images)) }
{
    let forks = forks_of(rt, images.len());
    check_from(rt, alloc, 0, images, profile, gate, forks)
}

/// A run of images whose lowest has the number `first`, checked: its halves at the same time, each
/// of which is cut once less, or one after another.
#[cycle(halves)]
fn check_from<R: Threads + Sync, A: Allocator + Copy + Send + Sync, G: Gate + Sync>(
    rt: &R,
    alloc: A,
    first: u16,
    mut images: Vec<HeldImage<A>, A>,
    profile: Profile,
    gate: &G,
    forks: u32,
) -> Result<Checked<A>, Refusal>
    requires { first + length images.items ≤ MAX_LAYERS }
    ensures { Checks first profile images.items result }
{
    if forks == 0 || images.len() < 2 {
        return check_in_turn(alloc, first, images, profile, gate);
    }
    let less = forks - 1;
    let half = images.len() / 2;
    let highs = images.split_off(half)?;
    let lows = images;
    let next = first + half as u16;
    // the lowest layer, mostly the largest, waits for no thread to start
    let (high, low) = join(
        rt,
        move || -> Result<Checked<A>, Refusal>
            requires { IsSync R.row × IsSync G.row × IsSync A.row × IsSend A.row
                × Frees A.Allocator A.dealloc_token × (next + length highs.items ≤ MAX_LAYERS) }
            ensures { Checks next profile highs.items result }
        { check_from(rt, alloc, next, highs, profile, gate, less) },
        move || -> Result<Checked<A>, Refusal>
            requires { IsSync R.row × IsSync G.row × IsSync A.row × IsSend A.row
                × Frees A.Allocator A.dealloc_token × (first + length lows.items ≤ MAX_LAYERS) }
            ensures { Checks first profile lows.items result }
        { check_from(rt, alloc, first, lows, profile, gate, less) },
    );
    together(low, high)
}

/// The result of two halves of a run: lack of memory in either, otherwise the lower one's broken
/// image, otherwise the upper one's.
fn together<A: Allocator>(
    low: Result<Checked<A>, Refusal>,
    high: Result<Checked<A>, Refusal>,
) -> Result<Checked<A>, Refusal>
    ensures { Joins low high result }
{
    match (low, high) {
        (Ok(all), Ok(rest)) => joined(all, rest),
        (_, Err(Refusal::Memory)) => Err(Refusal::Memory),
        (Err(refusal), _) => Err(refusal),
        (Ok(_), Err(refusal)) => Err(refusal),
    }
}

/// The images of both halves.
fn joined<A: Allocator>(low: Checked<A>, high: Checked<A>) -> Result<Checked<A>, Refusal>
    ensures ok { IfOk result (AreBoth low high) }
    ensures err { IfErr result (λ refusal. refusal ≡ Refusal.Memory) }
{
    let Checked {
        mut images,
        mut rows,
        mut lists,
    } = low;
    let Checked {
        images: mut more_images,
        rows: mut more_rows,
        lists: mut more_lists,
    } = high;
    images.append(&mut more_images)?;
    rows.append(&mut more_rows)?;
    lists.append(&mut more_lists)?;
    Ok(Checked {
        images,
        rows,
        lists,
    })
}

/// A run of images whose lowest has the number `first`, checked from the lowest up.
fn check_in_turn<A: Allocator + Copy, G: Gate>(
    alloc: A,
    first: u16,
    images: Vec<HeldImage<A>, A>,
    profile: Profile,
    gate: &G,
) -> Result<Checked<A>, Refusal>
    requires { first + length images.items ≤ MAX_LAYERS }
    ensures { Checks first profile images.items result }
{
    let mut checked = Vec::with_capacity(alloc, images.len())?;
    let mut rows = Vec::with_capacity(alloc, images.len())?;
    let mut lists = Vec::with_capacity(alloc, images.len())?;
    for image in images {
        let layer = first + checked.len() as u16;
        gate.pass(Work::Check, u32::from(layer));
        match check_held(alloc, image, profile) {
            Ok((sound, its_rows, its_lists)) => {
                checked.push(sound)?;
                rows.push(its_rows)?;
                lists.push(its_lists)?;
            }
            Err(CheckFault::Broken(fault)) => return Err(Refusal::Layer { layer, fault }),
            Err(CheckFault::Memory) => return Err(Refusal::Memory),
        }
    }
    Ok(Checked {
        images: checked,
        rows,
        lists,
    })
}
