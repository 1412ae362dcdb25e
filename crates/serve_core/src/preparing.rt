//! Images, checked and stacked before serving.

ghost use Rattle.std.specs.Prelude.{◌≡◌, true, IfOk, IfErr};
ghost use Rattle.stack_model.specs.declared.owner.TheConstants.Owner.{ROOT};
ghost use Rattle.stack_prepare.specs.Layers.{contents_of};
ghost use Rattle.stack_prepare.specs.Preparing.{AreStacked};
ghost use Rattle.serve_core.specs.Stops.{IsRefusal};

use crate::stop::Stop;
use draw_board::Gate;
use romfs_format::Profile;
use stack_prepare::{Owner, SharedAllocator, Table, whole_images};
use std::thread::Threads;

/// Checks images by the usual profile's rules and stacks them, the lowest layer first, into one
/// table, as [`stack_prepare::prepare`] does.
///
/// `Layers` exactly if there are none or more than 128, before anything else is done; otherwise
/// `Layer` names the lowest image that breaks a rule, and its fault. The gate is passed before each
/// check and each tree.
pub fn prepare<R: Threads + Sync, A: SharedAllocator, G: Gate + Sync>(
    rt: &R,
    alloc: A,
    images: Vec<Vec<u8, A>, A>,
    gate: &G,
) -> Result<Table<A>, Stop>
    ensures ok { IfOk result (AreStacked Profile.Usual ROOT (contents_of images)) }
    ensures err { IfErr result (IsRefusal Profile.Usual (contents_of images)) }
    ensures whole { IfOk result (λ table. table.whole ≡ true) }
{
    prepare_as(rt, alloc, images, Profile::Usual, gate)
}

/// The same, by the rules of a profile; a profile with attributes reads the images' rows.
pub fn prepare_as<R: Threads + Sync, A: SharedAllocator, G: Gate + Sync>(
    rt: &R,
    alloc: A,
    images: Vec<Vec<u8, A>, A>,
    profile: Profile,
    gate: &G,
) -> Result<Table<A>, Stop>
    ensures ok { IfOk result (AreStacked profile ROOT (contents_of images)) }
    ensures err { IfErr result (IsRefusal profile (contents_of images)) }
    ensures whole { IfOk result (λ table. table.whole ≡ true) }
{
    let images = whole_images(alloc, images)?;
    Ok(stack_prepare::prepare(rt, alloc, images, profile, Owner::ROOT, gate)?)
}
