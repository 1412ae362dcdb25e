//! What a table keeps about its directories.

ghost use Rattle.std.specs.Prelude.{◌≡◌, ◌≤◌, length, slice_get, slice_range, Some, None, MatchOption};

use crate::row::Row;
use std::alloc::Allocator;
use std::marker::Model;

/// What a table keeps about a directory: the number of its parent, the place of its rows among all
/// rows, and how many bytes their names share at the front.
#[derive(Clone, Copy)]
pub struct Directory {
    pub parent: u64,
    pub rows_start: usize,
    pub rows_end: usize,
    pub shared: usize,
}

/// All directories in the order of their numbers, their rows, and a key beside each row.
#[derive(Drop)]
pub struct Directories<A: Allocator> {
    pub all: Vec<Directory, A>,
    pub rows: Vec<Row<A>, A>,
    pub keys: Vec<u64, A>,
}

impl<A: Allocator> Model for Directories<A> {
    ghost use Rattle.node_reader.specs.Directories.{HeldDirectories};

    ghost Value = { HeldDirectories };

    ghost view = { λ held. record {
      all = held.all.items;
      rows = held.rows.items;
      keys = held.keys.items;
    } };
}

impl<A: Allocator> Directories<A> {
    // The directory at this place among all.
    pub(crate) fn get(&self, place: usize) -> Option<&Directory>
        ensures { MatchOption result (slice_get self.now.all place ≡ None)
            (λ directory. slice_get self.now.all place ≡ Some directory.now) }
    {
        self.all.get(place)
    }

    // The rows of a directory.
    pub(crate) fn rows_of(&self, directory: &Directory) -> &[Row<A>]
        requires start { directory.now.rows_start ≤ directory.now.rows_end }
        requires end { directory.now.rows_end ≤ length self.now.rows }
        ensures { result.now
            ≡ slice_range self.now.rows directory.now.rows_start directory.now.rows_end }
    {
        &self.rows[directory.rows_start..directory.rows_end]
    }

    // The keys of a directory's rows.
    pub(crate) fn keys_of(&self, directory: &Directory) -> &[u64]
        requires start { directory.now.rows_start ≤ directory.now.rows_end }
        requires end { directory.now.rows_end ≤ length self.now.keys }
        ensures { result.now
            ≡ slice_range self.now.keys directory.now.rows_start directory.now.rows_end }
    {
        &self.keys[directory.rows_start..directory.rows_end]
    }
}
