//! What requests are answered from.

ghost use Rattle.std.specs.Prelude.{◌≡◌, [], true};

use devices::InMemory;
use node_reader::Table;
use std::alloc::{AllocError, Allocator};

/// The table of a stack, and the files with its layers' data, lowest first.
///
/// If a layer has a file here, the data of its regular files are read from that file on demand. All
/// other data are those in the table, with zeros for what it does not keep.
pub struct Served<'a, A: Allocator, D> {
    pub table: &'a Table<A>,
    pub files: &'a [D],
}

impl<'a, A: Allocator, D> Clone for Served<'a, A, D> {
    fn clone(&self) -> Result<Self, AllocError> {
        Ok(*self)
    }
}

impl<'a, A: Allocator, D> Copy for Served<'a, A, D> {}

impl<'a, A: Allocator> Served<'a, A, InMemory<'a>> {
    /// A table of images held in full: all data are in the table.
    pub fn held(table: &'a Table<A>) -> Self
        requires { table.now.whole ≡ true }
        ensures table { result.table.now ≡ table.now }
        ensures files { result.files.now ≡ [] }
    {
        Served { table, files: &[] }
    }
}
