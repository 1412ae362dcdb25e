//! Streams over images.

ghost use Rattle.std.specs.Prelude.{◌≡◌};
ghost use Rattle.devices.specs.States.{devices};
ghost use Rattle.stack_prepare.specs.Layers.{contents_of};
ghost use Rattle.serve_loop.specs.Serving.{AreReady};
ghost use Rattle.serve_core.specs.Headline.{call, ServesBetween};

use crate::preparing::prepare_as;
use crate::running::run;
use crate::stop::Stop;
use crate::terms::{Counted, Terms};
use devices::{Sink, Source};
use draw_board::Gate;
use romfs_format::Profile;
use serve_loop::Done;
use stack_prepare::SharedAllocator;
use std::thread::Threads;

/// Checks images by the usual profile's rules, stacks them, the lowest layer first, and serves the
/// source's stream over them, as [`run`](crate::run) does.
///
/// `Layers` exactly if there are no images or more than 128, and `Layer` names the lowest broken
/// image and its fault. Then, and if memory runs out before the table is complete, no device is
/// called. With no turns the result for good images is `Turns`.
pub fn serve<R: Threads + Sync, A: SharedAllocator, S: Source, K: Sink, G: Gate + Sync>(
    rt: &R,
    alloc: A,
    images: Vec<Vec<u8, A>, A>,
    source: &mut S,
    sink: &mut K,
    terms: &Terms<'_, G>,
) -> Result<Done<A>, Stop>
    requires devices { AreReady terms.now.turns
        (devices (S.state source.old) (K.state sink.old)) }
    requires counted { terms.now.counted ≡ Counted.AllNodes }
    ensures { ServesBetween
        (call Profile.Usual (contents_of images) terms.now.first terms.now.turns) result
        (devices (S.state source.old) (K.state sink.old))
        (devices (S.state source.new) (K.state sink.new)) }
{
    serve_as(rt, alloc, images, Profile::Usual, source, sink, terms)
}

/// The same, by the rules of a profile; a profile with attributes reads the images' rows.
pub fn serve_as<R: Threads + Sync, A: SharedAllocator, S: Source, K: Sink, G: Gate + Sync>(
    rt: &R,
    alloc: A,
    images: Vec<Vec<u8, A>, A>,
    profile: Profile,
    source: &mut S,
    sink: &mut K,
    terms: &Terms<'_, G>,
) -> Result<Done<A>, Stop>
    requires devices { AreReady terms.now.turns
        (devices (S.state source.old) (K.state sink.old)) }
    requires counted { terms.now.counted ≡ Counted.AllNodes }
    ensures { ServesBetween (call profile (contents_of images) terms.now.first terms.now.turns)
        result
        (devices (S.state source.old) (K.state sink.old))
        (devices (S.state source.new) (K.state sink.new)) }
{
    let table = prepare_as(rt, alloc, images, profile, terms.gate)?;
    run(rt, alloc, &table, source, sink, terms)
}
