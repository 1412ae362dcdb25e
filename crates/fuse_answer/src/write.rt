//! Answers written as replies.

ghost use Rattle.fuse_wire.specs.Replies.{reply_with};
ghost use Rattle.std.specs.Prelude.{◌≡◌, ◌+◌, ◌<◌, ◌≤◌};
ghost use Rattle.fuse_answer.specs.Answers.{HoldsOwnData, IsSized, answer_data, answer_reading, node_data};
ghost use Rattle.fuse_answer.specs.Puts.{sourced_by};
ghost use Rattle.fuse_wire.specs.Appends.{Appends};
ghost use Rattle.fuse_wire.specs.Told.{AppendsTold};
ghost use Rattle.reply_model.specs.Readings.{data_reading};
ghost use Rattle.stack_model.specs.Attributes.{data_of};
ghost use Rattle.node_reader.specs.Readers.{placed};

use crate::names::put_names;
use crate::outcome::Answer;
use crate::rows::put_rows_and_move;
use crate::served::Served;
use devices::Contents;
use fuse_wire::{
    Replies, put_attr, put_data, put_entry, put_head, put_init, put_negative_entry, put_open,
    put_read, put_statfs, put_xattr_size,
};
use node_reader::{Node, Table};
use std::alloc::{AllocError, Allocator};

/// Appends the reply with an answer. Data in a file are read into it; if they cannot be read in
/// full, the reply is EIO.
#[inline(always)]
pub(crate) fn write<A: Allocator, D: Contents, O: Allocator>(
    served: Served<'_, A, D>,
    unique: u64,
    answer: &Answer<'_, A>,
    out: &mut Replies<O>,
) -> Result<(), AllocError>
    requires { IsSized served.table.now answer.now }
    ensures { AppendsTold result out.old out.new
        (answer_reading (sourced_by D.source served.entry) answer.now) unique
        (reply_with unique (answer_data served.entry.table.now answer.now)) }
{
    match answer {
        Answer::Done | Answer::Forgotten(_) | Answer::AllForgotten(_) => put_head(out, unique),
        Answer::Terms(init) => {
            let terms = *init;
            put_init(out, unique, &terms)
        }
        Answer::Entry(attr) => put_entry(out, unique, attr),
        Answer::NoEntry => put_negative_entry(out, unique),
        Answer::Attributes(attr) => put_attr(out, unique, attr),
        Answer::Opened(flags) => put_open(out, unique, *flags),
        Answer::Target(node) => put_target(served.table, unique, node, out),
        Answer::Data(part) => put_part(served, unique, *part.node, part.offset, part.len, out),
        Answer::Size(size) => put_xattr_size(out, unique, *size),
        Answer::Value(value) => put_data(out, unique, value),
        Answer::Names(names) => put_names(out, unique, names),
        Answer::Totals { blocks, nodes } => put_statfs(out, unique, *blocks, *nodes),
        Answer::Rows(rows) => put_rows_and_move(served.table, unique, rows, out, &mut []),
    }
}

// Appends the reply with a part of a file.
#[inline(always)]
fn put_part<A: Allocator, D: Contents, O: Allocator>(
    served: Served<'_, A, D>,
    unique: u64,
    node: Node,
    offset: u64,
    len: u32,
    out: &mut Replies<O>,
) -> Result<(), AllocError>
    requires holds { HoldsOwnData served.table.now node }
    requires within { 0 < len → offset + len ≤ node.part.len }
    ensures { AppendsTold result out.old out.new
        (data_reading (sourced_by D.source served.entry) offset (placed node.place)) unique
        (reply_with unique (node_data served.entry.table.now node offset len)) }
{
    if len == 0 {
        return put_data(out, unique, &[]);
    }
    match served.files.get(node.place.layer as usize) {
        Some(file) => {
            let start = u64::from(node.part.start);
            put_read(out, unique, file, start + offset, len as usize)
        }
        None => put_held(served.table, unique, &node, offset as u32, len, out),
    }
}

// Appends the reply with the target of a link.
fn put_target<A: Allocator, O: Allocator>(
    table: &Table<A>,
    unique: u64,
    node: &Node,
    out: &mut Replies<O>,
) -> Result<(), AllocError>
    requires { HoldsOwnData table.now node.now }
    ensures { Appends result out.old out.new
        (reply_with unique (data_of table.now.layers (placed node.now.place))) }
{
    put_held(table, unique, node, 0, node.part.len, out)
}

// Appends the reply with some of a node's data, from the table's image of its layer.
#[inline(always)]
fn put_held<A: Allocator, O: Allocator>(
    table: &Table<A>,
    unique: u64,
    node: &Node,
    offset: u32,
    len: u32,
    out: &mut Replies<O>,
) -> Result<(), AllocError>
    requires holds { HoldsOwnData table.now node.now }
    requires within { offset + len ≤ node.now.part.len }
    ensures { Appends result out.old out.new
        (reply_with unique (node_data table.now node.now offset len)) }
{
    let Some(view) = table.view(node.place.layer as usize) else {
        return put_data(out, unique, &[]);
    };
    match view.part(node.part) {
        Some(bytes) => {
            let from = offset as usize;
            put_data(out, unique, &bytes[from..from + len as usize])
        }
        None => {
            let start = u64::from(node.part.start) + u64::from(offset);
            put_read(out, unique, &view, start, len as usize)
        }
    }
}
