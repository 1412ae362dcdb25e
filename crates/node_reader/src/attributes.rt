//! What is known about nodes besides their headers: rows of attributes, and an owner.

ghost use Rattle.std.specs.Prelude.{◌≡◌, ◌<◌, ◌^◌, [], slice_get, slice_index_or, IfOk};
ghost use Rattle.std.specs.Option.{option_and_then};
ghost use Rattle.stack_model.specs.declared.owner.TheConstants.Owner.{ROOT};
ghost use Rattle.stack_model.specs.Attributes.{mode_by, row_in};
ghost use Rattle.node_reader.specs.Readers.{placed};
ghost use Rattle.node_reader.specs.Held.{brief_by, briefs_of};

use crate::next_rows::NextRows;
use crate::node::{Brief, Node};
use layer_paths::Place;
use romfs_format::AttributeRow;
use romfs_rows::{RowLists, Rows};
use stack_model::Owner;
use std::alloc::{AllocError, Allocator};

/// The bits of a mode below its type, and one more.
const PERMISSIONS: u32 = 0o1_0000;

/// What a table gets besides its images: the rows of attributes of each layer, lowest first, their
/// lists of extended attributes, and the owner of nodes without a row.
#[derive(Drop)]
pub struct Attributes<A: Allocator> {
    pub rows: Vec<Rows<A>, A>,
    pub lists: Vec<RowLists<A>, A>,
    pub owner: Owner,
}

impl<A: Allocator + Copy> Attributes<A> {
    /// No rows: everything belongs to the superuser.
    pub fn none(alloc: A) -> Self
        ensures rows { result.rows.items ≡ [] }
        ensures lists { result.lists.items ≡ [] }
        ensures owner { result.owner ≡ ROOT }
    {
        Attributes {
            rows: Vec::new(alloc),
            lists: Vec::new(alloc),
            owner: Owner::ROOT,
        }
    }
}

// The attributes of nodes in brief, in the same order.
pub(crate) fn briefs_of<A: Allocator + Copy>(
    alloc: A,
    nodes: &[Node],
    rows: &[Rows<A>],
) -> Result<Vec<Brief, A>, AllocError>
    ensures { IfOk result (λ briefs. briefs.items ≡ briefs_of rows.now nodes.now) }
{
    let mut next = NextRows::of(alloc, rows)?;
    let mut briefs = Vec::with_capacity(alloc, nodes.len())?;
    for node in nodes {
        briefs.push(brief_by(row_of(rows, &mut next, node.place), node))?;
    }
    Ok(briefs)
}

// The row at a position among those of a layer.
fn row_at<A: Allocator>(
    rows: &[Rows<A>],
    layer: usize,
    position: Option<u32>,
) -> Option<AttributeRow>
    ensures { result ≡ option_and_then (slice_get (slice_index_or rows.now layer [])) position }
{
    let of_layer = rows.get(layer)?;
    of_layer.get(position?)
}

// The row of a place among those of its layer.
pub(crate) fn row_of<A: Allocator>(
    rows: &[Rows<A>],
    next: &mut NextRows<A>,
    place: Place,
) -> Option<AttributeRow>
    ensures { result ≡ row_in rows.now (placed place) }
{
    row_at(rows, place.layer as usize, next.position(rows, place))
}

// A mode whose bits, except the type, come from a row.
fn mode_by(row: Option<AttributeRow>, mode: u32) -> u32
    requires { mode < 2 ^ 16 }
    ensures value { result ≡ mode_by row mode }
    ensures small { result < 2 ^ 16 }
{
    match row {
        None => mode,
        Some(row) => mode / PERMISSIONS * PERMISSIONS + row.mode % PERMISSIONS,
    }
}

// The attributes of a node in brief, by its row.
fn brief_by(row: Option<AttributeRow>, node: &Node) -> Brief
    ensures { result ≡ brief_by row node.now }
{
    Brief {
        size: node.part.len,
        nlink: node.nlink,
        rdev: node.rdev,
        mode: mode_by(row, u32::from(node.mode)) as u16,
    }
}
