//! The tree of a list of layers.

ghost use Rattle.std.specs.Prelude.{◌≡◌, ◌+◌, ◌<◌, ◌≤◌, ◌∷◌, [], length, map, IfOk};
ghost use Rattle.std.specs.Option.{option_map};
ghost use Rattle.std.specs.Thread.{IsSync};
ghost use denote.Param.Send.{IsSend, Frees};
ghost use Rattle.stack_model.specs.declared.limits.TheConstants.{MAX_LAYERS};
ghost use Rattle.romfs_reader.specs.Images.{bytes_of};
ghost use Rattle.layer_paths.specs.Trees.{IsTreeOf, entry_at};

use draw_board::{Gate, Work, forks_of};
use layer_tree::{Place, Tree, lay, tree_of};
use romfs_reader::{Image, ImageView, views_of};
use std::alloc::{AllocError, Allocator};
use std::thread::{Threads, join};

/// The tree of a list of layers, the lowest first, as [`stack_views`] makes it from borrowed
/// images.
pub fn stack<R: Threads + Sync, A: Allocator + Copy + Send + Sync, G: Gate + Sync>(
    rt: &R,
    alloc: A,
    images: &[Image<A>],
    gate: &G,
) -> Result<Tree<A>, AllocError>
    requires some { 1 ≤ length images.now }
    requires few { length images.now ≤ MAX_LAYERS }
    ensures { IfOk result (λ tree. IsTreeOf 0 (bytes_of images.now) tree) }
{
    stack_views(rt, alloc, &views_of(alloc, images)?, gate)
}

/// The tree of a list of layers, the lowest first.
///
/// The list is cut in two, and so on, and as many parts are stacked at the same time as there are
/// processors, at most 16 ([`forks_of`]). The gate is passed with `Work::Tree` and the layer's
/// number before its tree is made. Images are only read. A path that all of n layers have is
/// visited log n times. `AllocError` only if memory is refused, in any thread.
pub fn stack_views<R: Threads + Sync, A: Allocator + Copy + Send + Sync, G: Gate + Sync>(
    rt: &R,
    alloc: A,
    images: &[ImageView<'_>],
    gate: &G,
) -> Result<Tree<A>, AllocError>
    requires some { 1 ≤ length images.now }
    requires few { length images.now ≤ MAX_LAYERS }
    ensures { IfOk result (λ tree. IsTreeOf 0 images.now tree) }
{
    let forks = forks_of(rt, images.len());
    stack_from(rt, alloc, 0, images, gate, forks)
}

/// The place of the entry that a path shows; none if the path is not visible.
pub fn shown<A: Allocator>(tree: &Tree<A>, path: &[&[u8]]) -> Option<Place>
    ensures { result
        ≡ option_map (λ entry. entry.place) (entry_at tree.now (map (λ name. name.now) path.now)) }
{
    tree.entry(path).map(|entry| entry.place)
}

// The tree of a run of layers whose lowest has the number `first`: from its halves, made at the
// same time as long as it may still be cut.
#[cycle(halves)]
fn stack_from<R: Threads + Sync, A: Allocator + Copy + Send + Sync, G: Gate + Sync>(
    rt: &R,
    alloc: A,
    first: u16,
    images: &[ImageView<'_>],
    gate: &G,
    forks: u32,
) -> Result<Tree<A>, AllocError>
    requires some { 1 ≤ length images.now }
    requires few { first + length images.now ≤ MAX_LAYERS }
    ensures { IfOk result (λ tree. IsTreeOf first images.now tree) }
{
    if forks == 0 || images.len() == 1 {
        return stack_in_turn(alloc, first, images, gate);
    }
    let half = images.len() / 2;
    let (lows, highs) = images.split_at(half);
    let next = first + half as u16;
    let less = forks - 1;
    // the lowest layer, mostly the largest, waits for no thread to start
    let (high, low) = join(
        rt,
        move || -> Result<Tree<A>, AllocError>
            requires { IsSync R.row × IsSync G.row × IsSync A.row × IsSend A.row
                × Frees A.Allocator A.dealloc_token
                × (1 ≤ length highs.now) × (next + length highs.now ≤ MAX_LAYERS) }
            ensures { IfOk result (λ tree. IsTreeOf next highs.entry.now tree) }
        { stack_from(rt, alloc, next, highs, gate, less) },
        move || -> Result<Tree<A>, AllocError>
            requires { IsSync R.row × IsSync G.row × IsSync A.row × IsSend A.row
                × Frees A.Allocator A.dealloc_token
                × (1 ≤ length lows.now) × (first + length lows.now ≤ MAX_LAYERS) }
            ensures { IfOk result (λ tree. IsTreeOf first lows.entry.now tree) }
        { stack_from(rt, alloc, first, lows, gate, less) },
    );
    lay(alloc, low?, high?)
}

// The same, with one half after the other.
fn stack_in_turn<A: Allocator + Copy, G: Gate>(
    alloc: A,
    first: u16,
    images: &[ImageView<'_>],
    gate: &G,
) -> Result<Tree<A>, AllocError>
    requires some { 1 ≤ length images.now }
    requires few { first + length images.now ≤ MAX_LAYERS }
    ensures { IfOk result (λ tree. IsTreeOf first images.now tree) }
{
    if let [image] = images {
        gate.pass(Work::Tree, u32::from(first));
        return tree_of(alloc, image, first);
    }
    let (lows, highs) = images.split_at(images.len() / 2);
    let after = first + lows.len() as u16;
    let low = stack_in_turn(alloc, first, lows, gate)?;
    let high = stack_in_turn(alloc, after, highs, gate)?;
    lay(alloc, low, high)
}
