//! Keys of names that come in order.

ghost use Rattle.std.specs.Prelude.{◌≡◌, ◌≤◌, length, map, take, drop, IfOk};
ghost use Rattle.layer_names.specs.Names.{Rise};
ghost use Rattle.layer_names.specs.Keys.{key, AreBytes};
ghost use Rattle.layer_names.specs.Keyed.{ShareFront, AddsKeys, IsMost};

use crate::has_name::HasName;
use crate::key::key_of;
use std::alloc::{AllocError, Allocator};

/// Adds the keys of rows that come in the order of their names, each name once, and returns how
/// many bytes at the front all names share. The names may be any bytes, of any number.
///
/// If memory is refused, some of the keys may have been added.
pub fn add_keys<T: HasName, A: Allocator>(
    rows: &[T],
    keys: &mut Vec<u64, A>,
) -> Result<usize, AllocError>
    requires { Rise (map T.name rows.now) }
    ensures { IfOk result
        (λ shared. AddsKeys shared (map T.name rows.now) keys.old.items keys.new.items) }
{
    let shared = shared_by_all(rows);
    for row in rows {
        keys.push(key_past(row.name(), shared))?;
    }
    Ok(shared)
}

/// How many bytes two names share at the front.
pub fn shared(a: &[u8], b: &[u8]) -> usize
    ensures bound_a { result ≤ length a.now }
    ensures bound_b { result ≤ length b.now }
    ensures same { take result a.now ≡ take result b.now }
    ensures most { IsMost result a.now b.now }
{
    let mut len = 0;
    while len < a.len() && len < b.len() && a[len] == b[len] {
        len += 1;
    }
    len
}

/// The key of a name after the bytes that all share.
fn key_past(name: &[u8], shared: usize) -> u64
    requires { shared ≤ length name.now }
    ensures value { result ≡ key 8 (drop shared name.now) }
    ensures bytes { AreBytes name.now }
{
    key_of(&name[shared..])
}

/// How many bytes names in order share at the front: those that the first and the last one share.
fn shared_by_all<T: HasName>(rows: &[T]) -> usize
    requires { Rise (map T.name rows.now) }
    ensures { ShareFront result (map T.name rows.now) }
{
    match (rows.first(), rows.last()) {
        (Some(first), Some(last)) => shared(first.name(), last.name()),
        _ => 0,
    }
}
