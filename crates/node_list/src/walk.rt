//! The walk over all paths of a table.

ghost use Rattle.std.specs.Prelude.{◌≡◌, ◌<◌, ◌^◌, [], OnOk, IfErr};
ghost use Rattle.node_list.specs.Lines.{lines};
ghost use Rattle.node_list.specs.Faults.{Lists, IsBrokenOff};
ghost use Rattle.node_list.specs.Walks.{passage, Puts, PutsBelow, IsOnWay, line_as};

use crate::fields::{FIELDS_SIZE, write_fields};
use crate::path_text::PathText;
use crate::room::Room;
use devices::{Failed, Sink};
use node_reader::Table;
use std::alloc::{AllocError, Allocator};

// How many bytes of lines wait before they are written.
const PIECE: usize = 65_536;

/// Why a list was not written in full.
#[derive(Clone, Copy, Debug, PartialEq, Eq)]
pub enum ListFault {
    /// The sink failed.
    Write,
    /// Memory ran out, and nothing was written.
    Memory,
}

impl From<AllocError> for ListFault {
    ghost use Rattle.node_list.specs.declared.walk.ListFault.TheVariants.{Memory};

    ghost from_gives = { λ _ fault. fault ≡ Memory };

    fn from(_error: AllocError) -> ListFault {
        ListFault::Memory
    }
}

impl From<Failed> for ListFault {
    ghost use Rattle.node_list.specs.declared.walk.ListFault.TheVariants.{Write};

    ghost from_gives = { λ _ fault. fault ≡ Write };

    fn from(_failed: Failed) -> ListFault {
        ListFault::Write
    }
}

/// Writes a line for each shown path of the table's layers to a sink, in the order of the paths.
///
/// A line is `<number> <mode> <nlink> <size> <layer> <path>`: the mode in six octal digits, from
/// the node's row if it has one, the layer of the node's place, and the path after `/`; `/` alone
/// is the root. A byte of a name outside 0x21 to 0x7e, or that of `\`, is printed as `\` and two
/// lower-case hexadecimal digits.
///
/// The lines are written in pieces of about 64 KiB, each of which is flushed. Memory is taken
/// first, 64 KiB for a piece and 383 KiB for the longest possible path: after `Memory` the sink is
/// unchanged. `Write` only if the sink failed in this call, once; it then has a prefix of the
/// lines. The depth of the stack grows with the number of names in the deepest path, the time with
/// the length of the lines.
pub fn write_list<A: Allocator + Copy, B: Allocator, K: Sink>(
    alloc: A,
    table: &Table<B>,
    sink: &mut K,
) -> Result<(), ListFault>
    requires { (K.state sink.old).counts.failures < 2 ^ 63 }
    ensures ok { OnOk result (Lists table.now (K.state sink.old) (K.state sink.new)) }
    ensures err { IfErr result (IsBrokenOff table.now (K.state sink.old) (K.state sink.new)) }
{
    let mut room = Room::new(alloc, PIECE)?;
    let mut path = PathText::new(alloc)?;
    room.put_all(sink, table, &mut path)?;
    room.drain(sink)?;
    Ok(())
}

impl<A: Allocator> Room<A> {
    // Writes the line of a number with a path; nothing if the number is not in use.
    fn put_line<K: Sink, B: Allocator>(
        &mut self,
        sink: &mut K,
        table: &Table<B>,
        number: u64,
        path: &[u8],
    ) -> Result<(), Failed>
        requires { (K.state sink.old).counts.failures < 2 ^ 63 }
        ensures { Puts result (passage (K.state sink.old) self.old.waiting.items)
            (passage (K.state sink.new) self.new.waiting.items)
            (line_as table.now number path.now) }
    {
        let Some(node) = table.node(number) else {
            return Ok(());
        };
        let Some(attr) = table.attr(number) else {
            return Ok(());
        };
        let mut fields = [0; FIELDS_SIZE];
        let start = write_fields(&attr, node.place.layer, &mut fields);
        self.put(sink, &fields[start..])?;
        self.put(sink, path)?;
        self.put_byte(sink, b'\n')
    }

    // Writes the lines of all paths below one. No recursion is deeper than the paths are long.
    fn put_below<K: Sink, B: Allocator>(
        &mut self,
        sink: &mut K,
        table: &Table<B>,
        number: u64,
        path: &mut PathText<A>,
    ) -> Result<(), Failed>
        requires on { IsOnWay table.now number path.old }
        requires counts { (K.state sink.old).counts.failures < 2 ^ 63 }
        ensures put { PutsBelow table.now number path.old result
            (passage (K.state sink.old) self.old.waiting.items)
            (passage (K.state sink.new) self.new.waiting.items) }
        ensures back { OnOk result (path.new ≡ path.old) }
    {
        let above = path.len();
        for row in table.rows(number) {
            path.go_down(row.name());
            self.put_line(sink, table, row.number, path.printed())?;
            self.put_below(sink, table, row.number, path)?;
            path.go_up(above);
        }
        Ok(())
    }

    // Writes all lines.
    fn put_all<K: Sink, B: Allocator>(
        &mut self,
        sink: &mut K,
        table: &Table<B>,
        path: &mut PathText<A>,
    ) -> Result<(), Failed>
        requires root { path.old ≡ [] }
        requires counts { (K.state sink.old).counts.failures < 2 ^ 63 }
        ensures { Puts result (passage (K.state sink.old) self.old.waiting.items)
            (passage (K.state sink.new) self.new.waiting.items)
            (lines table.now) }
    {
        if table.len() == 0 {
            return Ok(());
        }
        self.put_line(sink, table, 1, path.printed())?;
        self.put_below(sink, table, 1, path)
    }
}
