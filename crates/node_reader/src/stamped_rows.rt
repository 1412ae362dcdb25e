//! The stamps of nodes, and for clauses the rows of attributes that they come from.

ghost use Rattle.std.specs.Prelude.{◌≡◌, map, IfOk};
ghost use Rattle.stack_model.specs.Attributes.{row_in};
ghost use Rattle.node_reader.specs.Readers.{placed};
ghost use Rattle.node_reader.specs.Held.{row_held, stamp_by, stamp_held, have_rows, AreStampsOf};

use crate::attributes::row_of;
use crate::lookup::numbered;
use crate::next_rows::NextRows;
use crate::node::Node;
use crate::stamp::{KeptStamp, Stamp, stamp_by};
use layer_paths::Place;
use romfs_rows::Rows;
use stack_model::Owner;
use std::alloc::{AllocError, Allocator};
use std::marker::Model;
use std::snapshot::Snapshot;

/// The stamps of the nodes by number. A contract also sees the rows of attributes of each layer,
/// the lowest first, which take no memory: no answer reads them.
///
/// A stamp takes 20 bytes. If no layer has a row, there are no stamps.
#[derive(Drop)]
pub(crate) struct StampedRows<A: Allocator> {
    told: Snapshot<Vec<Rows<A>, A>>,
    stamps: Vec<KeptStamp, A>,
}

impl<A: Allocator> Model for StampedRows<A> {
    ghost use Rattle.node_reader.specs.Stamps.{HeldStamps};

    ghost Value = { HeldStamps };

    ghost view = { λ held. record {
      rows = held.told.value.items;
      stamps = held.stamps.items;
    } };
}

impl<A: Allocator + Copy> StampedRows<A> {
    /// The stamps of these nodes by these rows; nodes without a row have this owner.
    pub(crate) fn of(
        alloc: A,
        rows: &Vec<Rows<A>, A>,
        nodes: &[Node],
        owner: Owner,
    ) -> Result<StampedRows<A>, AllocError>
        ensures rows { IfOk result (λ held. held.rows ≡ rows.now.items) }
        ensures stamps { IfOk result (λ held.
            AreStampsOf rows.now.items owner nodes.now held.stamps) }
    {
        let told = Snapshot::of(rows);
        if !have_rows(rows) {
            return Ok(StampedRows {
                told,
                stamps: Vec::new(alloc),
            });
        }
        let stamps = stamps_of(alloc, rows, nodes, owner)?;
        Ok(StampedRows { told, stamps })
    }
}

impl<A: Allocator> StampedRows<A> {
    /// The stamp of the node with this number; that of this owner if none is kept.
    pub(crate) fn stamp(&self, number: u64, owner: Owner) -> Stamp
        ensures { result ≡ stamp_held self.now.stamps owner number }
    {
        match numbered(&self.stamps, number) {
            Some(kept) => kept.stamp(),
            None => stamp_by(None, owner),
        }
    }
}

// Whether any layer has a row.
fn have_rows<A: Allocator>(rows: &[Rows<A>]) -> bool
    ensures { result ≡ have_rows rows.now }
{
    for of_layer in rows {
        if !of_layer.is_empty() {
            return true;
        }
    }
    false
}

// The stamps of nodes, in the order of their numbers.
fn stamps_of<A: Allocator + Copy>(
    alloc: A,
    rows: &[Rows<A>],
    nodes: &[Node],
    owner: Owner,
) -> Result<Vec<KeptStamp, A>, AllocError>
    ensures { IfOk result (λ stamps.
        stamps.items ≡ map (λ node. stamp_by (row_held rows.now node) owner) nodes.now) }
{
    let mut next = NextRows::of(alloc, rows)?;
    let mut stamps = Vec::with_capacity(alloc, nodes.len())?;
    for node in nodes {
        stamps.push(placed_stamp(rows, &mut next, node.place, owner))?;
    }
    Ok(stamps)
}

// The stamp of the node at a place.
fn placed_stamp<A: Allocator>(
    rows: &[Rows<A>],
    next: &mut NextRows<A>,
    place: Place,
    owner: Owner,
) -> KeptStamp
    ensures { result ≡ stamp_by (row_in rows.now (placed place)) owner }
{
    let row = row_of(rows, next, place);
    KeptStamp::of(stamp_by(row, owner))
}
