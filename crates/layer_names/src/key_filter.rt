//! Keys that no row has, found by one bit.
//!
//! Many names that are looked up do not exist: a compiler searches one directory after another for
//! a header. A search among keys costs such a name as much as any other. Here each key of a row
//! sets a bit, out of eight bits for each row, and no row has a name whose key's bit is not set.
//! About one in eight missing names is still searched.

ghost use Rattle.std.specs.Prelude.{◌≡◌, ◌≤◌, ◌<◌, ◌^◌, ◌*◌, ◌↔◌, length, All, IsTrue, IfOk};
ghost use Rattle.layer_names.specs.Noted.{bit_of, IsNoted, Keeps};

use romfs_sets::SlotSet;
use std::alloc::{AllocError, Allocator};
use std::marker::Model;

/// How many bits there are for each row.
const BITS_A_ROW: usize = 8;

/// How many bits there are at most.
const MAX_BITS: usize = 0xffff_ffff;

/// The keys of the rows of all directories: one bit for each, which others may share.
#[derive(Drop)]
pub struct KeyFilter<A: Allocator> {
    bits: SlotSet<A>,
    count: usize,
}

impl<A: Allocator> Model for KeyFilter<A> {
    ghost use Rattle.std.specs.Prelude.{◌≡◌, ◌<◌, ◌^◌, List, Bool, length};

    ghost Value = { List Bool };

    ghost view = { λ held. held.bits };

    ghost invariant = { λ held. (held.count ≡ length held.bits) × (held.count < 2 ^ 32) };
}

impl<A: Allocator> KeyFilter<A> {
    /// No keys yet, with room for this many rows: a byte a row. `AllocError` only if memory is
    /// refused.
    pub fn for_rows(alloc: A, rows: usize) -> Result<Self, AllocError>
        ensures { IfOk result (λ bits. length bits ≤ 8 * rows) }
    {
        let count = rows.saturating_mul(BITS_A_ROW).min(MAX_BITS);
        let bits = SlotSet::new(alloc, count)?;
        Ok(KeyFilter { bits, count })
    }

    /// Notes the keys of a directory's rows.
    pub fn note_all(&mut self, directory: u64, keys: &[u64])
        ensures noted { All (IsNoted self.new directory) keys.now }
        ensures kept { Keeps self.old self.new }
    {
        for key in keys {
            self.note(directory, *key);
        }
    }

    /// Whether a key may be that of a row of a directory. If false, no row has it.
    pub fn may_have(&self, directory: u64, key: u64) -> bool
        ensures { IsNoted self.now directory key ↔ IsTrue result }
    {
        let bit = bit_of(self.count, directory, key);
        self.count <= bit || self.bits.contains(bit)
    }

    // Notes a key of a directory's rows.
    fn note(&mut self, directory: u64, key: u64)
        ensures noted { IsNoted self.new directory key }
        ensures kept { Keeps self.old self.new }
    {
        let bit = bit_of(self.count, directory, key);
        if bit < self.count {
            self.bits.insert(bit);
        }
    }
}

// Which of this many bits belongs to a key in a directory.
#[inline(always)]
fn bit_of(count: usize, directory: u64, key: u64) -> usize
    requires { count < 2 ^ 32 }
    ensures { result ≡ bit_of count directory key }
{
    let begun = directory
        .wrapping_mul(0x9e37_79b9_7f4a_7c15)
        .wrapping_add(key);
    let mixed = begun.wrapping_mul(0xff51_afd7_ed55_8ccd) / 0x1_0000_0000;
    (mixed * count as u64 / 0x1_0000_0000) as usize
}
