//! The place of a name in one directory.
//!
//! A look-up is a binary search among adjacent keys, without branches on the keys, and reads one
//! row to compare its full name. If several names have one key, these are searched by full names.
//! Most missing names have a key that the filter has not noted, and are not searched.

ghost use Rattle.std.specs.Prelude.{◌≡◌, map, All};
ghost use Rattle.layer_names.specs.Names.{Rise, place_of};
ghost use Rattle.layer_names.specs.Keyed.{AreKeyed, Narrows};
ghost use Rattle.layer_names.specs.Noted.{IsNoted};

use crate::has_name::HasName;
use crate::key::key_of;
use crate::key_filter::KeyFilter;
use crate::run::run_of;
use std::alloc::Allocator;
use std::cmp::Ordering;

/// The place of the row with this name, counted from 0: by key to the rows whose keys are equal,
/// and among these by name; `None` if no row has the name. The name may be any bytes, of any
/// number.
///
/// `keys` and `shared` are what [`add_keys`] made for these rows, and the filter has noted the keys
/// under the directory's number.
///
/// [`add_keys`]: crate::add_keys
pub fn find<T: HasName, A: Allocator>(
    rows: &[T],
    keys: &[u64],
    shared: usize,
    filter: &KeyFilter<A>,
    directory: u64,
    name: &[u8],
) -> Option<usize>
    requires keyed { AreKeyed shared keys.now (map T.name rows.now) }
    requires noted { All (IsNoted filter.now directory) keys.now }
    ensures { result ≡ place_of name.now (map T.name rows.now) }
{
    if name.len() < shared {
        return None;
    }
    let key = key_of(&name[shared..]);
    if !filter.may_have(directory, key) {
        return None;
    }
    let (low, high) = run_of(keys, key);
    if low + 1 != high {
        return find_by_name(rows, name, low, high);
    }
    if rows[low].name() == name {
        Some(low)
    } else {
        None
    }
}

/// The place of a name, by binary search of the rows from `low` to `high`.
fn find_by_name<T: HasName>(rows: &[T], name: &[u8], low: usize, high: usize) -> Option<usize>
    requires rise { Rise (map T.name rows.now) }
    requires narrows { Narrows (map T.name rows.now) name.now low high }
    ensures { result ≡ place_of name.now (map T.name rows.now) }
{
    let mut low = low;
    let mut high = high;
    while low < high {
        let middle = low + (high - low) / 2;
        match rows[middle].name().cmp(name) {
            Ordering::Less => low = middle + 1,
            Ordering::Equal => return Some(middle),
            Ordering::Greater => high = middle,
        }
    }
    None
}
