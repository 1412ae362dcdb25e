//! The extended attributes of nodes.

ghost use Rattle.std.specs.Prelude.{◌≡◌, ◌||◌, [], map, false, true, IfOk, IfSome, MatchOption};
ghost use Rattle.std.specs.List.{list_any};
ghost use Rattle.romfs_format.specs.Extended.{is_list};
ghost use Rattle.node_reader.specs.Xattrs.{has_acl, has_some, list_held, list_of_node, row_number};
ghost use Rattle.node_reader.specs.Xattrs.{xattrs_held, AreBare, AreXattrsOf};

use crate::lookup::numbered;
use crate::next_rows::NextRows;
use crate::node::Node;
use romfs_rows::{FileXattrs, RowLists, Rows};
use std::alloc::{AllocError, Allocator};
use std::marker::Model;

/// The extended attributes of all layers, lowest first, and the nodes that they belong to. A
/// contract sees these lists and, for each node, the position of its row.
///
/// Besides the lists it takes 4 bytes a row and 4 a node; nothing for nodes if no layer has lists.
#[derive(Drop)]
pub(crate) struct NodeXattrs<A: Allocator> {
    layers: Vec<RowLists<A>, A>,
    // The position of each node's row in its layer, counted from 1; 0 without a row.
    positions: Vec<u32, A>,
    // Whether a node has attributes, and whether one has an access control list.
    some: bool,
    acls: bool,
}

impl<A: Allocator> Model for NodeXattrs<A> {
    ghost use Rattle.node_reader.specs.Xattrs.{HeldXattrs};

    ghost Value = { HeldXattrs };

    ghost view = { λ held. record {
      lists = held.layers.items;
      positions = held.positions.items;
      some = held.some;
      acls = held.acls;
    } };
}

impl<A: Allocator + Copy> NodeXattrs<A> {
    /// The extended attributes of these nodes, whose layers have these rows and lists.
    pub(crate) fn of(
        alloc: A,
        layers: Vec<RowLists<A>, A>,
        rows: &[Rows<A>],
        nodes: &[Node],
    ) -> Result<NodeXattrs<A>, AllocError>
        ensures lists { IfOk result (λ held. held.lists ≡ layers.items) }
        ensures are { IfOk result (AreXattrsOf rows.now nodes.now) }
    {
        if !may_have_some(&layers) {
            return Ok(NodeXattrs {
                layers,
                positions: Vec::new(alloc),
                some: false,
                acls: false,
            });
        }
        let found = found_in(alloc, &layers, rows, nodes)?;
        Ok(NodeXattrs {
            layers,
            positions: found.positions,
            some: found.some,
            acls: found.acls,
        })
    }
}

impl<A: Allocator> NodeXattrs<A> {
    /// The attributes of the node with this number; none if it has no list.
    pub(crate) fn of_node(&self, number: u64, node: &Node) -> Option<FileXattrs<'_>>
        ensures value { MatchOption result (xattrs_held self.now number node.now ≡ [])
            (λ found. xattrs_held self.now number node.now ≡ found) }
        ensures right { IfSome result (λ found. is_list found ≡ true) }
    {
        match numbered(&self.positions, number) {
            Some(position) => list_at(&self.layers, node.place.layer as usize, *position),
            None => None,
        }
    }

    /// Whether any node has attributes.
    pub(crate) fn has_some(&self) -> bool
        ensures { result ≡ self.now.some }
    {
        self.some
    }

    /// Whether any node has an access control list.
    pub(crate) fn has_acls(&self) -> bool
        ensures { result ≡ self.now.acls }
    {
        self.acls
    }
}

/// What is known about nodes.
#[derive(Drop)]
struct Found<A: Allocator> {
    positions: Vec<u32, A>,
    some: bool,
    acls: bool,
}

// The positions of the rows of nodes, and what these rows' lists contain.
fn found_in<A: Allocator + Copy>(
    alloc: A,
    layers: &[RowLists<A>],
    rows: &[Rows<A>],
    nodes: &[Node],
) -> Result<Found<A>, AllocError>
    ensures positions { IfOk result (λ found.
        found.positions.items ≡ map (row_number rows.now) nodes.now) }
    ensures some { IfOk result (λ found. found.some
        ≡ list_any (λ node. has_some (list_of_node rows.now layers.now node)) nodes.now) }
    ensures acls { IfOk result (λ found. found.acls
        ≡ list_any (λ node. has_acl (list_of_node rows.now layers.now node)) nodes.now) }
{
    let mut next = NextRows::of(alloc, rows)?;
    let mut positions = Vec::with_capacity(alloc, nodes.len())?;
    let mut some = false;
    let mut acls = false;
    for node in nodes {
        let position = row_number(rows, &mut next, node);
        positions.push(position)?;
        some = or_some(some, layers, node, position);
        acls = or_acl(acls, layers, node, position);
    }
    Ok(Found {
        positions,
        some,
        acls,
    })
}

// The position of a node's row, counted from 1; 0 without a row.
fn row_number<A: Allocator>(rows: &[Rows<A>], next: &mut NextRows<A>, node: &Node) -> u32
    ensures { result ≡ row_number rows.now node.now }
{
    match next.position(rows, node.place) {
        Some(position) => position + 1,
        None => 0,
    }
}

// Whether a node has attributes, or one before it has.
fn or_some<A: Allocator>(before: bool, layers: &[RowLists<A>], node: &Node, position: u32) -> bool
    ensures { result ≡ (before || has_some (list_held layers.now node.now.place.layer position)) }
{
    if before {
        return true;
    }
    match list_at(layers, node.place.layer as usize, position) {
        Some(list) => list.len() != 0,
        None => false,
    }
}

// Whether a node has an access control list, or one before it has.
fn or_acl<A: Allocator>(before: bool, layers: &[RowLists<A>], node: &Node, position: u32) -> bool
    ensures { result ≡ (before || has_acl (list_held layers.now node.now.place.layer position)) }
{
    if before {
        return true;
    }
    match list_at(layers, node.place.layer as usize, position) {
        Some(list) => list.has_acl(),
        None => false,
    }
}

// The list of the row at a position that counts from 1, in a layer.
fn list_at<A: Allocator>(
    layers: &[RowLists<A>],
    layer: usize,
    position: u32,
) -> Option<FileXattrs<'_>>
    ensures value { MatchOption result (list_held layers.now layer position ≡ [])
        (λ found. list_held layers.now layer position ≡ found) }
    ensures right { IfSome result (λ found. is_list found ≡ true) }
{
    if position == 0 {
        return None;
    }
    match layers.get(layer) {
        Some(lists) => lists.of_row(position - 1),
        None => None,
    }
}

// Whether any layer may have a list.
fn may_have_some<A: Allocator>(layers: &[RowLists<A>]) -> bool
    ensures { result ≡ false → AreBare layers.now }
{
    for lists in layers {
        if lists.may_have_some() {
            return true;
        }
    }
    false
}
