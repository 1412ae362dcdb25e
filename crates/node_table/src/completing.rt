//! What headers and images add to the tree: modes and device numbers of nodes, and blocks.

ghost use Rattle.std.specs.Prelude.{◌≡◌, ◌≤◌, length, map};
ghost use Rattle.std.specs.List.{AllByRecursion};
ghost use Rattle.stack_model.specs.declared.limits.TheConstants.{MAX_LAYERS};
ghost use Rattle.romfs_reader.specs.Images.{IsImage};
ghost use Rattle.stack_model.specs.Attributes.{blocks_all, mode_of, rdev_of};
ghost use Rattle.node_table.specs.Building.{completed};

use node_reader::Node;
use rayon::prelude::*;
use romfs_reader::{ImageView, Kind};
use std::thread::Threads;

/// With fewer nodes than this, the caller completes them alone: a thread costs more.
const MANY: usize = 0x2_0000;

// Completes all nodes, in several threads if there are many.
pub(crate) fn complete_all<R: Threads + Sync>(rt: &R, nodes: &mut [Node])
    ensures { nodes.new ≡ map completed nodes.old }
{
    if nodes.len() < MANY {
        complete_each(nodes);
        return;
    }
    par_for_each_mut(
        rt,
        nodes,
        |_at: usize, node: &mut Node|
            ensures { node.new ≡ completed node.old }
        { complete(node) },
    );
}

// The full sizes of images in blocks of 512 bytes, each rounded up, then summed.
pub(crate) fn blocks_of(images: &[ImageView<'_>]) -> u64
    requires { length images.now ≤ MAX_LAYERS }
    ensures blocks { result ≡ blocks_all images.now }
    ensures sound { AllByRecursion IsImage images.now }
{
    let mut blocks = 0;
    for image in images {
        blocks += (u64::from(image.full()) + 511) / 512;
    }
    blocks
}

// Type and permissions.
fn mode_of(kind: Kind, exec: bool) -> u16
    ensures { result ≡ mode_of kind exec }
{
    match kind {
        Kind::Directory => if exec { 0o040_755 } else { 0o040_644 },
        Kind::Regular => if exec { 0o100_755 } else { 0o100_644 },
        Kind::SymLink => 0o120_777,
        Kind::Block => 0o060_600,
        Kind::Character => 0o020_600,
        Kind::Socket => 0o140_644,
        Kind::Fifo => 0o010_644,
        Kind::HardLink => 0,
    }
}

// The numbers of a device, as the kernel's new_encode_dev encodes them.
fn rdev_of(kind: Kind, spec: u32) -> u32
    ensures { result ≡ rdev_of kind spec }
{
    match kind {
        Kind::Block | Kind::Character => {
            let major = spec / 0x1_0000;
            let minor = spec % 0x1_0000;
            (minor & 0xff) | (major * 0x100) | ((minor & 0xf_ff00) * 0x1000)
        }
        _ => 0,
    }
}

// Sets the mode and the device numbers from what the header said.
fn complete(node: &mut Node)
    ensures { node.new ≡ completed node.old }
{
    node.mode = mode_of(node.kind, node.exec);
    node.rdev = rdev_of(node.kind, node.rdev);
}

// The same, one node after another.
fn complete_each(nodes: &mut [Node])
    ensures { nodes.new ≡ map completed nodes.old }
{
    for node in nodes.iter_mut() {
        complete(node);
    }
}
