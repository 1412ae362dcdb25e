//! A table made from a tree.

ghost use Rattle.std.specs.Prelude.{◌≡◌, ◌≤◌, length, IfOk};
ghost use Rattle.std.specs.List.{AllByRecursion};
ghost use Rattle.stack_model.specs.declared.limits.TheConstants.{MAX_LAYERS};
ghost use Rattle.romfs_reader.specs.Images.{IsImage, all_whole, bytes_of};
ghost use Rattle.layer_paths.specs.Trees.{IsTreeOf};
ghost use Rattle.node_reader.specs.Stacked.{IsTableOf, IsTableWith};
ghost use Rattle.stack_model.specs.Attributes.{blocks_all};
ghost use Rattle.node_table.specs.Agreement.{AreMade};

use crate::building::{TableParts, make};
use crate::completing::{blocks_of, complete_all};
use crate::numbering::number_places;
use crate::walk::{Walked, count_branches, walk};
use layer_paths::Tree;
use node_reader::{Attributes, Table};
use romfs_reader::{Image, ImageView, views_of};
use std::alloc::{AllocError, Allocator};
use std::thread::Threads;

/// What is made from the tree of a stack.
pub trait OfTree: Sized {
    /// The allocator.
    type Memory;

    /// The tree.
    type Tree;

    /// The images of the layers, the lowest first.
    type Images;

    ghost use Rattle.std.specs.Thread.{IsSync};

    // Holds for a tree and the images that it is the tree of.
    ghost fits: { Self.Tree → Self.Images → Type 0 };

    /// What is made from this tree and these images.
    fn of<R: Threads + Sync>(
        rt: &R,
        alloc: Self::Memory,
        tree: Self::Tree,
        images: Self::Images,
    ) -> Result<Self, AllocError>
        requires threads { IsSync R.row }
        requires fits { fits tree images };
}

impl<A: Allocator + Copy> OfTree for Table<A> {
    type Memory = A;

    type Tree = Tree<A>;

    type Images = Vec<Image<A>, A>;

    ghost use Rattle.std.specs.Prelude.{◌≤◌, length};
    ghost use Rattle.std.specs.Thread.{IsSync};
    ghost use Rattle.romfs_reader.specs.Images.{bytes_of};
    ghost use Rattle.layer_paths.specs.Trees.{IsTreeOf};
    ghost use Rattle.stack_model.specs.declared.limits.TheConstants.{MAX_LAYERS};

    ghost fits = { λ tree images.
        IsTreeOf 0 (bytes_of images.items) tree × (length images.items ≤ MAX_LAYERS) };

    /// The table of a stack of images, from its tree, as [`table_of_layers`] makes it if everything
    /// belongs to the superuser.
    fn of<R: Threads + Sync>(
        rt: &R,
        alloc: A,
        tree: Tree<A>,
        images: Vec<Image<A>, A>,
    ) -> Result<Table<A>, AllocError>
        requires threads { IsSync R.row }
        requires tree { IsTreeOf 0 (bytes_of images.items) tree }
        requires few { length images.items ≤ MAX_LAYERS }
        ensures stack { IfOk result (λ table. IsTableOf (bytes_of images.items) table) }
        ensures whole { IfOk result (λ table. table.whole ≡ all_whole images.items) }
    {
        table_of_layers(rt, alloc, tree, images, Attributes::none(alloc))
    }
}

/// The table of a stack of images, from its tree. The images are the layers, the lowest first. Each
/// layer's rows give the owners of its nodes, when they were changed and the bits of their modes;
/// everything without a row belongs to the given owner.
///
/// It takes n log n steps in the paths that the stack shows; a row is searched for in as many steps
/// as the number of its layer's rows has binary digits. If there are many nodes, several threads
/// complete them. An error is returned only if memory is refused.
pub fn table_of_layers<R: Threads + Sync, A: Allocator + Copy>(
    rt: &R,
    alloc: A,
    tree: Tree<A>,
    layers: Vec<Image<A>, A>,
    attributes: Attributes<A>,
) -> Result<Table<A>, AllocError>
    requires tree { IsTreeOf 0 (bytes_of layers.items) tree }
    requires few { length layers.items ≤ MAX_LAYERS }
    ensures stack { IfOk result (λ table. IsTableWith (bytes_of layers.items)
        attributes.rows.items attributes.lists.items attributes.owner table) }
    ensures whole { IfOk result (λ table. table.whole ≡ all_whole layers.items) }
{
    let (blocks, parts) = read_all(alloc, &tree, &layers)?;
    // the other parts of a table take the memory of the tree
    drop(tree);
    let TableParts {
        mut nodes,
        directories,
    } = parts;
    complete_all(rt, &mut nodes);
    Table::of_parts(alloc, layers, nodes, directories, blocks, attributes)
}

// The blocks of images, and what `parts_of` makes from the tree of their stack.
fn read_all<A: Allocator + Copy>(
    alloc: A,
    tree: &Tree<A>,
    layers: &[Image<A>],
) -> Result<(u64, TableParts<A>), AllocError>
    requires tree { IsTreeOf 0 (bytes_of layers.now) tree.now }
    requires few { length layers.now ≤ MAX_LAYERS }
    ensures blocks { IfOk result (λ it. it.0 ≡ blocks_all (bytes_of layers.now)) }
    ensures sound { IfOk result (λ _. AllByRecursion IsImage (bytes_of layers.now)) }
    ensures made { IfOk result (λ it.
        AreMade (bytes_of layers.now) it.1.nodes.items it.1.directories) }
{
    let views = views_of(alloc, layers)?;
    let blocks = blocks_of(&views);
    let parts = parts_of(alloc, tree, &views)?;
    Ok((blocks, parts))
}

// The nodes of a tree before they are completed, their directories, the rows of these and the rows'
// keys.
fn parts_of<A: Allocator + Copy>(
    alloc: A,
    tree: &Tree<A>,
    images: &[ImageView<'_>],
) -> Result<TableParts<A>, AllocError>
    requires tree { IsTreeOf 0 images.now tree.now }
    requires sound { AllByRecursion IsImage images.now }
    ensures { IfOk result (λ made. AreMade images.now made.nodes.items made.directories) }
{
    let root = tree.root();
    let mut all = Walked::with_room(alloc, count_branches(root))?;
    walk(root, 0, &mut all)?;
    let numbered = number_places(alloc, &all.visits)?;
    make(alloc, images, &all, &numbered)
}
