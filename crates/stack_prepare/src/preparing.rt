//! Images, checked and stacked.

ghost use Rattle.std.specs.Prelude.{◌≡◌, true, map, IfOk, IfErr};
ghost use Rattle.romfs_held.specs.declared.image.HeldImage.TheVariants.{Whole};
ghost use Rattle.romfs_format.specs.declared.rule.Profile.{Profile};
ghost use Rattle.stack_prepare.specs.Layers.{contents_of, held_contents, are_whole, AreRefused, AreTooFewOrMany, IsFew};
ghost use Rattle.stack_prepare.specs.Preparing.{AreStacked};

use crate::bounds::SharedAllocator;
use crate::checking::{Checked, check_all};
use crate::refusal::Refusal;
use draw_board::Gate;
use node_table::{Attributes, Table, table_of_layers};
use romfs_format::Profile;
use romfs_held::HeldImage;
use stack_core::stack;
use stack_model::Owner;
use stack_model::limits::MAX_LAYERS;
use std::alloc::{AllocError, Allocator};
use std::thread::Threads;

/// Checks images by the rules of a profile and stacks them, the lowest layer first, into one table,
/// with the rows of attributes that the profile reads, and their extended attributes; everything
/// without a row belongs to `owner`. For images that stay in their files the table holds only what
/// is kept of their accessible bytes: where files have their data, it has zeros.
///
/// `Layers` exactly if there are none or more than 128, before anything else is done; otherwise
/// `Layer` names the lowest image that breaks a rule, and its fault. The gate is passed before each
/// check and each tree.
pub fn prepare<R: Threads + Sync, A: SharedAllocator, G: Gate + Sync>(
    rt: &R,
    alloc: A,
    images: Vec<HeldImage<A>, A>,
    profile: Profile,
    owner: Owner,
    gate: &G,
) -> Result<Table<A>, Refusal>
    ensures ok { IfOk result (AreStacked profile owner (held_contents images)) }
    ensures err { IfErr result (λ refusal. AreRefused profile (held_contents images) refusal) }
    ensures whole { IfOk result (λ table. table.whole ≡ are_whole images.items) }
{
    few(images.len())?;
    let Checked {
        images,
        rows,
        lists,
    } = check_all(rt, alloc, images, profile, gate)?;
    let tree = stack(rt, alloc, &images, gate)?;
    let attributes = Attributes { rows, lists, owner };
    Ok(table_of_layers(rt, alloc, tree, images, attributes)?)
}

/// Images that are held in full, 1 to 128 of them: `Layers` exactly if there are none or more, and
/// `Memory` only if memory is refused.
pub fn whole_images<A: Allocator + Copy>(
    alloc: A,
    images: Vec<Vec<u8, A>, A>,
) -> Result<Vec<HeldImage<A>, A>, Refusal>
    ensures bytes { IfOk result (λ held. held_contents held ≡ contents_of images) }
    ensures whole { IfOk result (λ held. are_whole held.items ≡ true) }
    ensures err { (profile : Profile) →
        IfErr result (λ refusal. AreRefused profile (contents_of images) refusal) }
{
    few(images.len())?;
    Ok(all_whole(alloc, images)?)
}

fn all_whole<A: Allocator + Copy>(
    alloc: A,
    images: Vec<Vec<u8, A>, A>,
) -> Result<Vec<HeldImage<A>, A>, AllocError>
    ensures { IfOk result (λ held. held.items ≡ map Whole images.items) }
{
    let mut held = Vec::with_capacity(alloc, images.len())?;
    for bytes in images {
        held.push(HeldImage::Whole(bytes))?;
    }
    Ok(held)
}

/// Whether this many layers can be stacked.
fn few(count: usize) -> Result<(), Refusal>
    ensures ok { IfOk result (λ _. IsFew count) }
    ensures err { IfErr result (AreTooFewOrMany count) }
{
    if count == 0 || MAX_LAYERS < count {
        return Err(Refusal::Layers {
            count: count as u64,
        });
    }
    Ok(())
}
