//! The places of nodes' rows of attributes, for nodes that mostly come in the order of their rows.

ghost use Rattle.std.specs.Prelude.{◌≡◌, ◌+◌, ◌<◌, ◌^◌, IfSome};
ghost use Rattle.node_reader.specs.Held.{position_held};

use layer_paths::Place;
use romfs_rows::Rows;
use std::alloc::{AllocError, Allocator};

/// For each layer, the position after the row that was found last. That row is tried first, and a
/// binary search follows only if it belongs to another node.
#[derive(Drop)]
pub(crate) struct NextRows<A: Allocator> {
    positions: Vec<u32, A>,
}

impl<A: Allocator> NextRows<A> {
    /// The first row of each layer is next.
    pub(crate) fn of<B: Allocator>(alloc: A, rows: &[Rows<B>]) -> Result<NextRows<A>, AllocError> {
        let mut positions = Vec::with_capacity(alloc, rows.len())?;
        for _layer in rows {
            positions.push(0)?;
        }
        Ok(NextRows { positions })
    }

    /// The position of a place's row among those of its layer, counted from 0.
    pub(crate) fn position<B: Allocator>(&mut self, rows: &[Rows<B>], place: Place) -> Option<u32>
        ensures value { result ≡ position_held rows.now place }
        ensures small { IfSome result (λ position. position + 1 < 2 ^ 32) }
    {
        let layer = place.layer as usize;
        let of_layer = rows.get(layer)?;
        let found = of_layer.position(place.header, self.next(layer));
        if let Some(position) = found {
            self.pass(layer, position);
        }
        found
    }

    // The position to look at first.
    fn next(&self, layer: usize) -> u32 {
        match self.positions.get(layer) {
            Some(next) => *next,
            None => 0,
        }
    }

    // Notes that a row was found.
    fn pass(&mut self, layer: usize, position: u32) {
        if let Some(next) = self.positions.get_mut(layer) {
            *next = position.saturating_add(1);
        }
    }
}
