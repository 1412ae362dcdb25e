//! Images that are refused, and the strict profile.

use romfs_format::{ImageFault, Profile, Rule};
use romfs_image::sample::seal;
use serve_core::{Stop, prepare_as};
use serve_test_kit::runs::{Outcome, Run, Seen, WHOLE, serve_of};
use stack_core::FreePass;
use std::alloc::{AllocError, Global};
use std::test::Fail;
use std::thread::Threads;
use test_kit::sample_images::{alone, empty, samples};

/// The layers of a row.
#[derive(Clone, Copy)]
enum Layers {
    None,
    BadSumOverEmpty,
    BadHeader,
    Sample,
}

/// The empty image with another checksum of the volume.
fn bad_sum(alloc: Global) -> Result<Vec<u8>, AllocError> {
    let mut image = empty(alloc)?;
    if let Some(byte) = image.get_mut(15) {
        *byte = 7;
    }
    Ok(image)
}

/// The empty image with the checksum 0 of the root's header, and the matching checksum of the
/// volume.
fn bad_header(alloc: Global) -> Result<Vec<u8>, AllocError> {
    let mut image = empty(alloc)?;
    for place in 44..48 {
        if let Some(byte) = image.get_mut(place) {
            *byte = 0;
        }
    }
    seal(&mut image);
    Ok(image)
}

fn images_of(alloc: Global, layers: Layers) -> Option<Vec<Vec<u8>>> {
    match layers {
        Layers::None => Some(Vec::new(alloc)),
        Layers::BadSumOverEmpty => bad_over_empty(alloc).ok(),
        Layers::BadHeader => alone(alloc, bad_header(alloc).ok()?).ok(),
        Layers::Sample => samples(alloc, 1),
    }
}

fn bad_over_empty(alloc: Global) -> Result<Vec<Vec<u8>>, AllocError> {
    let mut images = alone(alloc, empty(alloc)?)?;
    images.push(bad_sum(alloc)?)?;
    Ok(images)
}

/// The outcome for which no device was called.
fn untouched(stop: Stop) -> Outcome {
    (Err(stop), 0, 0, 0)
}

fn fault(layer: u16, rule: Rule, place: u32) -> Stop {
    let fault = ImageFault { rule, place };
    Stop::Layer { layer, fault }
}

const SERVED: Outcome = (Ok((12, 1531)), 1531, 2, 2);

/// The result of serving these layers by a profile.
fn served<R: Threads + Sync>(
    rt: &R,
    global: Global,
    layers: Layers,
    profile: Profile,
) -> Option<Seen> {
    let images = images_of(global, layers)?;
    let row = Run {
        piece: 999,
        ..WHOLE
    };
    serve_of(rt, global, global, images, profile, false, row, None)
}

#[test]
fn refused_images_touch_no_device(rt: HostRuntime) {
    for (layers, profile, wanted) in [
        (
            Layers::None,
            Profile::Usual,
            untouched(Stop::Layers { count: 0 }),
        ),
        (
            Layers::BadSumOverEmpty,
            Profile::Usual,
            untouched(fault(1, Rule::BadSum, 12)),
        ),
        (
            Layers::BadHeader,
            Profile::Strict,
            untouched(fault(0, Rule::HeaderSum, 32)),
        ),
        (Layers::Sample, Profile::Strict, SERVED),
    ] {
        let seen = served(&rt, rt.alloc(), layers, profile);
        assert!(rt; seen == Some(Seen::of(wanted)));
    }
}

#[test]
fn a_strict_table_has_all_nodes(rt: HostRuntime) -> Result<(), Fail> {
    let images = samples(rt.alloc(), 1).ok_or("the sample image")?;
    let table = prepare_as(&rt, rt.alloc(), images, Profile::Strict, &FreePass);
    assert!(rt; table.is_ok_and(|table| table.len() == 6));
    Ok(())
}
