//! What the LOOKUPs of a round will read, read ahead.
//!
//! A LOOKUP follows numbers through a table that is larger than the processor's caches: from the
//! directory to a guess, to the row, to the node and to its balance. Here the names of all LOOKUPs
//! of a round are hashed first; then their guesses are read, then the rows that these point to,
//! then the nodes and balances of these rows, each in a loop that does little else. None of these
//! reads waits for that of another request, so they overlap.
//!
//! No answer depends on what is read: the answer to a LOOKUP gets the place that was guessed for
//! it, and checks whether the row there has the name. It takes a few steps for each message of the
//! round, as long as every fourth is a LOOKUP, and no memory. For a small table, which stays in the
//! caches, nothing is read ahead.

ghost use Rattle.std.specs.Prelude.{◌≤◌};
ghost use Rattle.serve_loop.specs.declared.limits.TheConstants.{MAX_ROUND_MESSAGES};

use fuse_wire::{Framed, frame, glance};
use node_reader::{Guess, Row, Table, hashed};
use serve_loop::limits::MAX_ROUND_MESSAGES;
use std::alloc::Allocator;

/// A table with fewer nodes than this stays in the processor's second-level cache, with some 80
/// bytes a node.
const MANY: u64 = 8_192;

/// The search for LOOKUPs ends if they fall short of every fourth message by more than this many.
const HEAD_START: usize = 4;

/// What was read ahead.
#[derive(Drop)]
pub struct LookupsAhead {
    // For each message, 2 plus the place of its row if it is a LOOKUP, or 1 if no place was noted;
    // 0 for other messages.
    places: [u32; MAX_ROUND_MESSAGES],
    // A sum of everything read, so no compiler drops the reads.
    sum: u64,
}

impl LookupsAhead {
    /// Nothing yet.
    pub fn new() -> Self {
        LookupsAhead {
            places: [0; MAX_ROUND_MESSAGES],
            sum: 0,
        }
    }

    /// The guessed place of the row for the message with this number, if it is a LOOKUP.
    #[inline(always)]
    pub fn guess(&self, number: u32) -> Guess {
        match self.places.get(number as usize) {
            Some(noted) => guess_noted(*noted),
            None => Guess::Unknown,
        }
    }

    /// Reads what the answers to the LOOKUPs at the front of a stream will read, if the table is
    /// large.
    pub fn read<A: Allocator>(&mut self, table: &Table<A>, stream: &[u8], balances: &[i128]) {
        if MANY <= table.len() {
            self.read_all(table, stream, balances);
        }
    }

    // The same for any table.
    #[inline(never)]
    fn read_all<A: Allocator>(&mut self, table: &Table<A>, stream: &[u8], balances: &[i128]) {
        let mut words = [0; MAX_ROUND_MESSAGES];
        let mut messages = [0; MAX_ROUND_MESSAGES];
        let lookups = hash_all(stream, &mut words, &mut messages);
        let words = &mut words[..lookups];
        let messages = &messages[..lookups];
        self.sum ^= u64::from(table.read_guesses(words));
        self.guess_all(table, words, messages);
        self.read_rows(table, messages, words);
        let mut sum = 0;
        for number in words {
            sum ^= read_node(table, *number, balances).unwrap_or(0);
        }
        self.sum ^= sum;
    }

    // Guesses the places of the rows of these messages, which are LOOKUPs with these hashes.
    fn guess_all<A: Allocator>(&mut self, table: &Table<A>, hashes: &[u64], messages: &[u8]) {
        for (hash, message) in hashes.iter().zip(messages) {
            self.places[usize::from(*message)] = noted(table.guess(*hash));
        }
    }

    // Reads the rows that were guessed for these messages. Their numbers go to `numbers`, and 0 if
    // no row was guessed.
    fn read_rows<A: Allocator>(&mut self, table: &Table<A>, messages: &[u8], numbers: &mut [u64]) {
        let mut sum = 0;
        for (number, message) in numbers.iter_mut().zip(messages) {
            *number = match row_noted(table, self.places[usize::from(*message)]) {
                Some(row) => {
                    sum ^= end_of(row);
                    row.number
                }
                None => 0,
            };
        }
        self.sum ^= u64::from(sum);
    }
}

// The hashes of the LOOKUPs at the front of a stream, the number of each one's message in its
// round, and how many there are.
fn hash_all(
    stream: &[u8],
    hashes: &mut [u64; MAX_ROUND_MESSAGES],
    messages: &mut [u8; MAX_ROUND_MESSAGES],
) -> usize
    ensures { result ≤ MAX_ROUND_MESSAGES }
{
    let mut rest = stream;
    let mut lookups = 0usize;
    for message in 0..MAX_ROUND_MESSAGES {
        let Framed::Whole(len) = frame(rest) else {
            return lookups;
        };
        match glance(&rest[..len]) {
            Some((node, name)) => {
                hashes[lookups] = hashed(node, name);
                messages[lookups] = message as u8;
                lookups += 1;
            }
            None if lookups + HEAD_START < message / 4 => return lookups,
            None => {}
        }
        rest = &rest[len..];
    }
    lookups
}

// The number for a place, or for none.
fn noted(place: Option<usize>) -> u32 {
    match place {
        None => 1,
        Some(place) if place < u32::MAX as usize - 1 => place as u32 + 2,
        Some(_) => 0,
    }
}

// The guess for a number.
#[inline(always)]
fn guess_noted(noted: u32) -> Guess {
    match noted {
        0 => Guess::Unknown,
        1 => Guess::Nowhere,
        _ => Guess::At((noted - 2) as usize),
    }
}

// The row of a guess.
#[inline(always)]
fn row_noted<A: Allocator>(table: &Table<A>, noted: u32) -> Option<&Row<A>> {
    match guess_noted(noted) {
        Guess::At(place) => table.guessed(place),
        _ => None,
    }
}

// The last byte of a row, or of a long name beside it. Reading that of the row does not wait for
// the name's length.
fn end_of<A: Allocator>(row: &Row<A>) -> u8 {
    match row.padded_name() {
        Some(name) => name[21],
        None => *row.name().last().unwrap_or(&0),
    }
}

// Reads a node and its balance.
fn read_node<A: Allocator>(table: &Table<A>, number: u64, balances: &[i128]) -> Option<u64> {
    let attr = table.attr(number)?;
    let held = match balances.get(number.wrapping_sub(1) as usize) {
        Some(balance) => *balance == 0,
        None => false,
    };
    let told = attr.size ^ attr.seconds ^ u64::from(attr.mode ^ attr.nlink);
    Some(told ^ u64::from(held))
}
