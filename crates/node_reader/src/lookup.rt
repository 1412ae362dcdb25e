//! Look-ups in the parts of a table.

ghost use Rattle.std.specs.Prelude.{◌≡◌, ◌≤◌, ◌+◌, ◌*◌, ⊤, None, Some, MatchOption, IfOk, All, length};
ghost use Rattle.layer_names.specs.Names.{Rise, place_of};
ghost use Rattle.layer_names.specs.Keyed.{AreKeyed};
ghost use Rattle.layer_names.specs.Noted.{IsNoted};
ghost use Rattle.node_reader.specs.Held.{attr_held, directory_held};
ghost use Rattle.node_reader.specs.Held.{HaveKeys, AreNotedUpTo};
ghost use Rattle.node_reader.specs.Rows.{names};
ghost use Rattle.node_reader.specs.Stamps.{held_at};

use crate::directory::{Directories, Directory};
use crate::guess::Guess;
use crate::node::{Brief, Node};
use crate::row::Row;
use crate::stamp::Stamp;
use layer_names::{Guesses, KeyFilter, find};
use romfs_reader::Kind;
use stack_model::Attr;
use std::alloc::{AllocError, Allocator};

// The node of a number, counted from 1.
pub(crate) fn node_at(nodes: &[Node], number: u64) -> Option<&Node>
    ensures { MatchOption result (held_at nodes.now number ≡ None)
        (λ node. held_at nodes.now number ≡ Some node.now) }
{
    numbered(nodes, number)
}

// The item with a number, counted from 1.
pub(crate) fn numbered<T>(all: &[T], number: u64) -> Option<&T>
    ensures { MatchOption result (held_at all.now number ≡ None)
        (λ it. held_at all.now number ≡ Some it.now) }
{
    if number == 0 {
        return None;
    }
    all.get((number - 1) as usize)
}

// The attributes of the node with this number, from its brief attributes and its stamp.
pub(crate) fn attr_of(number: u64, brief: &Brief, stamp: Stamp) -> Attr
    ensures { result ≡ attr_held number brief.now stamp }
{
    let size = u64::from(brief.size);
    Attr {
        ino: number,
        size,
        blocks: (size + 511) / 512,
        seconds: stamp.seconds,
        nanoseconds: stamp.nanoseconds,
        mode: u32::from(brief.mode),
        nlink: brief.nlink,
        uid: stamp.uid,
        gid: stamp.gid,
        rdev: brief.rdev,
    }
}

// The directory of a number.
pub(crate) fn directory_at<'a, A: Allocator>(
    nodes: &[Node],
    directories: &'a Directories<A>,
    number: u64,
) -> Option<&'a Directory>
    ensures { MatchOption result (directory_held nodes.now directories.now number ≡ None)
        (λ directory. directory_held nodes.now directories.now number ≡ Some directory.now) }
{
    let node = node_at(nodes, number)?;
    match node.kind {
        Kind::Directory => directories.get(node.directory),
        _ => None,
    }
}

/// What is known about names before the rows of their directory are searched. A contract sees the
/// sizes of both parts.
#[derive(Drop)]
pub(crate) struct Hints<A: Allocator> {
    /// The places of rows.
    pub(crate) guesses: Guesses<A>,
    /// Which keys no row has.
    pub(crate) filter: KeyFilter<A>,
}

// The place of this name among these rows of a directory with this number: by an earlier guess if
// it is right, otherwise by a new guess or by their keys; if there are no guesses, by their keys.
#[inline(always)]
pub(crate) fn place_of<A: Allocator>(
    rows: &[Row<A>],
    keys: &[u64],
    hints: &Hints<A>,
    number: u64,
    directory: &Directory,
    name: &[u8],
    guess: Guess,
) -> Option<usize>
    requires keyed { AreKeyed directory.now.shared keys.now (names rows.now) }
    requires noted { All (IsNoted hints.now.filter number) keys.now }
    ensures { result ≡ place_of name.now (names rows.now) }
{
    if let Guess::At(guessed) = guess {
        if let Some(at) = confirmed(rows, directory, name, guessed) {
            return Some(at);
        }
    }
    if !matches!(guess, Guess::Nowhere) {
        let start = directory.rows_start;
        if let Some(at) = hints.guesses.find(number, start, rows, name) {
            return Some(at);
        }
    }
    find(rows, keys, directory.shared, &hints.filter, number, name)
}

// What is known about the names of all directories' rows, from one pass over the nodes.
pub(crate) fn hints_of<A: Allocator + Copy>(
    alloc: A,
    nodes: &[Node],
    directories: &Directories<A>,
) -> Result<Hints<A>, AllocError>
    requires { HaveKeys nodes.now directories.now }
    ensures noted { IfOk result (λ hints.
        AreNotedUpTo nodes.now directories.now hints.filter (length nodes.now)) }
    ensures guesses { IfOk result (λ hints. hints.guesses ≤ 4 * length directories.now.rows + 17) }
    ensures filter { IfOk result (λ hints. length hints.filter ≤ 8 * length directories.now.rows) }
{
    let mut guesses = Guesses::for_rows(alloc, directories.rows.len())?;
    let mut filter = KeyFilter::for_rows(alloc, directories.rows.len())?;
    for at in 0..nodes.len() {
        let number = at as u64 + 1;
        if let Some(directory) = directory_at(nodes, directories, number) {
            filter.note_all(number, directories.keys_of(directory));
            note_rows(&mut guesses, number, directory, &directories.rows);
        }
    }
    Ok(Hints { guesses, filter })
}

// The place of this name, if it is the guessed one among all rows. `None` says nothing about the
// name.
#[inline(always)]
fn confirmed<A: Allocator>(
    rows: &[Row<A>],
    directory: &Directory,
    name: &[u8],
    guessed: usize,
) -> Option<usize>
    requires { Rise (names rows.now) }
    ensures { MatchOption result ⊤ (λ at. place_of name.now (names rows.now) ≡ Some at) }
{
    let at = guessed.wrapping_sub(directory.rows_start);
    if at < rows.len() && rows[at].name() == name {
        Some(at)
    } else {
        None
    }
}

// Notes the place of a directory's rows among all rows.
fn note_rows<A: Allocator>(
    guesses: &mut Guesses<A>,
    number: u64,
    directory: &Directory,
    rows: &[Row<A>],
)
    ensures { guesses.new ≡ guesses.old }
{
    if let Some(own) = rows.get(directory.rows_start..directory.rows_end) {
        guesses.note_all(number, directory.rows_start, own);
    }
}
