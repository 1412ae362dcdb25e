//! The nodes and rows of a table, made from numbered branches.

ghost use Rattle.std.specs.Prelude.{◌≡◌, IfOk};
ghost use Rattle.node_table.specs.Walks.{walk_of};
ghost use Rattle.node_table.specs.Numbering.{number_among};
ghost use Rattle.node_table.specs.Building.{AreFollowing, HasChildrenAfter, HasGivenHeader};
ghost use Rattle.node_table.specs.Building.{AddsRows, AddsDirectory, AddsByKind, AddsNode, IsReadOf};
ghost use Rattle.node_table.specs.Agreement.{StandAndAgree, AreMade};

use crate::numbering::Numbered;
use crate::walk::Walked;
use layer_names::add_keys;
use layer_paths::{Branch, Child, Entry};
use node_reader::{Directories, Directory, Node, Row};
use romfs_reader::{ImageView, Kind};
use std::alloc::{AllocError, Allocator};

/// What a table is made from besides its images.
#[derive(Drop)]
pub(crate) struct TableParts<A: Allocator> {
    pub(crate) nodes: Vec<Node, A>,
    pub(crate) directories: Directories<A>,
}

/// The first branch of a place.
#[derive(Drop)]
pub(crate) struct First<'t, A: Allocator> {
    branch: &'t Branch<Entry, A>,
    /// The place of the branch among all.
    start: usize,
    /// The number of the branch above it.
    parent: u64,
    /// How many paths the place has.
    paths: u32,
}

// The nodes of all first branches, in the order of their numbers, and their directories.
pub(crate) fn make<A: Allocator + Copy>(
    alloc: A,
    images: &[ImageView<'_>],
    walk: &Walked<'_, Entry, A>,
    numbered: &Numbered<A>,
) -> Result<TableParts<A>, AllocError>
    requires { StandAndAgree images.now (walk_of walk.now) numbered.now.starts numbered.now.paths
        numbered.now.numbers }
    ensures { IfOk result (λ made. AreMade images.now made.nodes.items made.directories) }
{
    let mut nodes = Vec::with_capacity(alloc, numbered.len())?;
    let mut directories = Directories {
        all: Vec::new(alloc),
        rows: Vec::with_capacity(alloc, walk.visits.len())?,
        keys: Vec::with_capacity(alloc, walk.visits.len())?,
    };
    for at in 0..numbered.len() {
        let start = numbered.start(at);
        let above = walk.above[start];
        let first = First {
            branch: walk.visits[start],
            start,
            parent: numbered.number(above),
            paths: numbered.paths(at),
        };
        let node = add_node(alloc, images, walk, numbered, &first, &mut directories)?;
        nodes.push(node)?;
    }
    Ok(TableParts { nodes, directories })
}

// Makes the node of a first branch, before it is completed, and adds what is kept about a
// directory.
fn add_node<A: Allocator + Copy>(
    alloc: A,
    images: &[ImageView<'_>],
    walk: &Walked<'_, Entry, A>,
    numbered: &Numbered<A>,
    first: &First<'_, A>,
    into: &mut Directories<A>,
) -> Result<Node, AllocError>
    requires header { HasGivenHeader images.now first.now.branch.now }
    requires children { HasChildrenAfter (number_among walk.now.visits.items)
        numbered.now.numbers walk.now.sizes.items first.now.start first.now.branch.now }
    ensures { IfOk result (λ node. AddsNode images.now (number_among walk.now.visits.items)
        first.now into.old into.new node) }
{
    let directory = into.all.len();
    let nlink = add_by_kind(alloc, walk, numbered, first, into)?;
    Ok(node_of(images, first.branch, nlink, directory))
}

// The node of a branch with this many links, before it is completed.
fn node_of<A: Allocator>(
    images: &[ImageView<'_>],
    branch: &Branch<Entry, A>,
    nlink: u32,
    directory: usize,
) -> Node
    requires { HasGivenHeader images.now branch.now }
    ensures read { IsReadOf images.now branch.now result }
    ensures nlink { result.nlink ≡ nlink }
    ensures directory { result.directory ≡ directory }
{
    let said = branch.value();
    let image = &images[said.place.layer as usize];
    Node {
        kind: said.kind,
        place: said.place,
        exec: said.exec,
        part: image.given_part(said.place.header, said.kind, said.name_len, said.size),
        mode: 0,
        nlink,
        rdev: said.spec,
        directory,
    }
}

// How many links the node of a first branch has; a directory is added.
fn add_by_kind<A: Allocator + Copy>(
    alloc: A,
    walk: &Walked<'_, Entry, A>,
    numbered: &Numbered<A>,
    first: &First<'_, A>,
    into: &mut Directories<A>,
) -> Result<u32, AllocError>
    requires { HasChildrenAfter (number_among walk.now.visits.items)
        numbered.now.numbers walk.now.sizes.items first.now.start first.now.branch.now }
    ensures { IfOk result (λ nlink. AddsByKind (number_among walk.now.visits.items)
        first.now nlink into.old into.new) }
{
    match first.branch.value().kind {
        Kind::Directory => {
            let directories = add_directory(alloc, walk, numbered, first, into)?;
            Ok(directories.saturating_add(2).min(u64::from(u32::MAX)) as u32)
        }
        _ => Ok(first.paths),
    }
}

// Adds the directory of a first branch, its rows and their keys, and counts the directories in it.
fn add_directory<A: Allocator + Copy>(
    alloc: A,
    walk: &Walked<'_, Entry, A>,
    numbered: &Numbered<A>,
    first: &First<'_, A>,
    into: &mut Directories<A>,
) -> Result<u64, AllocError>
    requires { HasChildrenAfter (number_among walk.now.visits.items)
        numbered.now.numbers walk.now.sizes.items first.now.start first.now.branch.now }
    ensures { IfOk result (λ n. AddsDirectory (number_among walk.now.visits.items)
        first.now into.old into.new n) }
{
    let children = first.branch.children();
    let rows_start = into.rows.len();
    let directories = add_rows(
        alloc,
        walk,
        numbered,
        first.start + 1,
        children,
        &mut into.rows,
    )?;
    let shared = add_keys(&into.rows[rows_start..], &mut into.keys)?;
    into.all.push(Directory {
        parent: first.parent,
        rows_start,
        rows_end: into.rows.len(),
        shared,
    })?;
    Ok(directories)
}

// Adds the rows of children, and counts the directories among them. The children begin at `start`.
fn add_rows<A: Allocator + Copy>(
    alloc: A,
    walk: &Walked<'_, Entry, A>,
    numbered: &Numbered<A>,
    start: usize,
    children: &[Child<A>],
    rows: &mut Vec<Row<A>, A>,
) -> Result<u64, AllocError>
    requires { AreFollowing (number_among walk.now.visits.items)
        numbered.now.numbers walk.now.sizes.items start children.now }
    ensures { IfOk result (λ n. AddsRows (number_among walk.now.visits.items)
        children.now rows.old.items rows.new.items n) }
{
    let mut directories = 0;
    let mut at = start;
    for child in children {
        let entry = child.value();
        let number = numbered.number(at);
        let size = walk.sizes[at];
        let name = child.copy_name(alloc)?;
        rows.push(Row { number, name })?;
        match entry.kind {
            Kind::Directory => directories += 1,
            _ => {}
        }
        at += size;
    }
    Ok(directories)
}
