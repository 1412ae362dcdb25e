//! LOOKUP.

ghost use Rattle.std.specs.Prelude.{◌≡◌};
ghost use Rattle.fuse_wire.specs.Requests.{lookup};
ghost use Rattle.reply_model.specs.Lookups.{is_itself, is_parent};
ghost use Rattle.fuse_answer.specs.Answers.{DecidesAt, FindsBelow, TellsEntry};

use crate::node::kind_of;
use crate::outcome::Answer;
use fuse_wire::Errno;
use fuse_wire::limits::MAX_NAME_SIZE;
use node_reader::{Guess, Table};
use reply_model::Agreement;
use romfs_format::Kind;
use std::alloc::Allocator;

/// The answer to LOOKUP. In a session with `FUSE_EXPORT_SUPPORT` the name `.` finds the node
/// itself, of any kind, and `..` its parent directory. In a lasting session, the answer to a name
/// that does not exist is a negative entry, not an error.
#[inline(always)]
pub(crate) fn look_up<'a, A: Allocator>(
    table: &'a Table<A>,
    agreed: Agreement,
    number: u64,
    name: &[u8],
    guess: Guess,
) -> Result<Answer<'a, A>, Errno>
    ensures { DecidesAt table.now agreed number (lookup name.now) result }
{
    let kind = kind_of(table, number)?;
    if is_itself(agreed.export, name) {
        return entry(table, number);
    }
    if kind != Kind::Directory {
        return Err(Errno::ENOTDIR);
    }
    if name.len() > MAX_NAME_SIZE as usize {
        return Err(Errno::ENAMETOOLONG);
    }
    match found(table, agreed.export, number, name, guess) {
        Some(found) => entry(table, found),
        None if agreed.lasting => Ok(Answer::NoEntry),
        None => Err(Errno::ENOENT),
    }
}

// Whether a name finds the node itself.
#[inline(always)]
fn is_itself(export: bool, name: &[u8]) -> bool
    ensures { result ≡ is_itself export name.now }
{
    export && name == b".".as_slice()
}

// Whether a name finds the parent directory.
#[inline(always)]
fn is_parent(export: bool, name: &[u8]) -> bool
    ensures { result ≡ is_parent export name.now }
{
    export && name == b"..".as_slice()
}

// The number that a name has in a directory.
#[inline(always)]
fn found<A: Allocator>(
    table: &Table<A>,
    export: bool,
    number: u64,
    name: &[u8],
    guess: Guess,
) -> Option<u64>
    ensures { FindsBelow table.now export number name.now result }
{
    if is_parent(export, name) {
        table.parent(number)
    } else {
        table.child_guessed(number, name, guess)
    }
}

// The entry of a node, whose number is in use: the other case never occurs.
#[inline(always)]
fn entry<'a, A: Allocator>(table: &'a Table<A>, number: u64) -> Result<Answer<'a, A>, Errno>
    ensures { TellsEntry table.now number result }
{
    match table.attr(number) {
        Some(attr) => Ok(Answer::Entry(attr)),
        None => Err(Errno::ENOENT),
    }
}
