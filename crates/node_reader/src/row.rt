//! A child of a directory.

ghost use Rattle.std.specs.Prelude.{◌≡◌, ◌<◌, length, MatchOption};
ghost use Rattle.layer_paths.specs.Padded.{IsPadded};

use layer_names::HasName;
use layer_paths::Name;
use std::alloc::Allocator;
use std::marker::Model;

/// A child of a directory: its number, and its name there. A short name is stored in the row
/// itself.
#[derive(Drop)]
pub struct Row<A: Allocator> {
    pub number: u64,
    pub name: Name<A>,
}

impl<A: Allocator> Model for Row<A> {
    ghost use Rattle.node_reader.specs.Rows.{Line};

    ghost Value = { Line };

    ghost view = { λ row. record { number = row.number; name = row.name } };
}

impl<A: Allocator> Row<A> {
    /// The child's name in its directory.
    pub fn name(&self) -> &[u8]
        ensures { result.now ≡ self.now.name }
    {
        self.name.as_slice()
    }

    /// The child's name, padded with zeros to 22 bytes; none of a longer name.
    pub fn padded_name(&self) -> Option<&[u8; 22]>
        ensures { MatchOption result (22 < length self.now.name)
            (λ padded. IsPadded self.now.name padded.now) }
    {
        self.name.padded()
    }
}

impl<A: Allocator> HasName for Row<A> {
    ghost name = { λ row. row.name };

    fn name(&self) -> &[u8] {
        self.name.as_slice()
    }
}
