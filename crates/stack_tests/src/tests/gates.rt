//! Trees of layers are made at the same time, but of no more parts than there are processors, and
//! at most 16, each after its gate.

use super::stacks::wrong_of;
use romfs_image::Image;
use stack_core::{Gate, Work, stack};
use std::alloc::Global;
use std::test::Fail;
use std::thread::Threads;
use test_kit::gates::{Crowd, Holding, MANY, Noting, Recording, parts_of_layers};
use test_kit::refusing::Refusing;
use test_kit::sample_images::layers;

/// A gate at which the lowest tree waits for the next one, and that counts both.
#[derive(Drop)]
struct Both {
    holding: Holding,
    recording: Recording,
}

impl Gate for Both {
    fn pass(&self, work: Work, number: u32) {
        self.recording.pass(work, number);
        self.holding.pass(work, number);
    }
}

#[test]
fn the_lowest_tree_waits_for_the_next(rt: HostRuntime) {
    let gate = Both {
        holding: Holding::new(Work::Tree, 0b1, 0b10, MANY),
        recording: Recording::new(),
    };
    // The sample image on the empty one.
    let stack = (" + 1#big 1*d 2-x 1@l 1$null", "", "1f!/big 1f!/d/x");
    let wrong = wrong_of(&rt, rt.alloc(), stack, &gate);
    assert!(rt; wrong == Ok(None) && !gate.holding.is_given_up());
    assert_eq!(rt; gate.recording.seen(), (0, 0x11, 0));
}

/// 128 layers of nothing.
const LAYERS: &str = "\
++++++++++++++++++++++++++++++++++++++++++++++++++++++++++++++++\
+++++++++++++++++++++++++++++++++++++++++++++++++++++++++++++++";

#[test]
fn some_parts_are_stacked_at_a_time(rt: HostRuntime) {
    let parts = parts_of_layers(&rt);
    let gate = Crowd::new(Work::Tree, parts);
    let wrong = wrong_of(&rt, rt.alloc(), (LAYERS, "", "7d."), &gate);
    assert!(rt; wrong == Ok(None) && gate.seen() == (128, parts) && parts <= 16);
}

/// Whether these layers have a tree that shows something.
fn is_made<'a, R: Threads + Sync>(
    rt: &R,
    memory: &'a Refusing<Global>,
    images: &[Image<&'a Refusing<Global>>],
    gate: &Noting<'_>,
) -> bool {
    if images.is_empty() || 128 < images.len() {
        return false;
    }
    match stack(rt, memory, images, gate) {
        Ok(tree) => !tree.children(&[]).is_empty(),
        Err(_) => false,
    }
}

#[test]
fn a_tree_is_made_behind_its_gate(rt: HostRuntime) -> Result<(), Fail> {
    let memory = Refusing::new(rt.alloc(), 0);
    let gate = Noting::new(&memory);
    let images = layers(&memory, "1/a 2-c")?;
    let begun = memory.requests();
    let is_made = is_made(&rt, &memory, &images, &gate);
    drop(images);
    // The list of the borrowed images is taken before.
    let listed = begun.wrapping_add(1);
    assert!(rt; is_made && listed < memory.requests() && gate.before() == listed);
    Ok(())
}
