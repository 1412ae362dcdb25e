//! Whether lists hold what files may have.

ghost use Rattle.std.specs.Prelude.{◌≡◌, ◌-◌, ◌<◌, ◌≤◌, ◌↔◌, length, nat_le, IsTrue};
ghost use Rattle.std.specs.List.{list_all};
ghost use Rattle.romfs_format.specs.declared.limits.TheConstants.{MAX_XATTR_LIST_SIZE};
ghost use Rattle.romfs_format.specs.Below.{holds_below};
ghost use Rattle.romfs_format.specs.Extended.{is_extended, is_list, names_of, names_rise};
ghost use Rattle.romfs_format.specs.Part.{attribute_count, attributes, list_count, list_of, AreLists};
ghost use Rattle.romfs_rows.specs.Runs.{rises_at};

use crate::attribute::is_extended;
use crate::lists::Lists;
use romfs_format::limits::MAX_XATTR_LIST_SIZE;
use std::cmp::Ordering;

/// Whether bytes are lists that files may have. It passes over names and values once, and over
/// names twice more.
pub fn are_lists(bytes: &[u8]) -> bool
    ensures { IsTrue result ↔ AreLists bytes.now }
{
    match Lists::of(bytes) {
        Some(lists) => are_right(&lists),
        None => false,
    }
}

// Whether each list is one that a file may have.
fn are_right(lists: &Lists<'_>) -> bool
    ensures { result ≡ holds_below (list_count lists.now) (λ j. is_list (list_of lists.now j)) }
{
    for number in 0..lists.count() {
        if !is_list(lists, number) {
            return false;
        }
    }
    true
}

// Whether one list is.
#[tactic(auto, unfolding(romfs_format::specs::Part::list_of))]
fn is_list(lists: &Lists<'_>, number: u32) -> bool
    requires { number < list_count lists.now }
    ensures { result ≡ is_list (list_of lists.now number) }
{
    let first = lists.first(number as usize);
    let end = lists.first(number as usize + 1);
    are_extended(lists, first, end) && names_rise(lists, first, end) && names_fit(lists, first, end)
}

// Whether a file may have each of some attributes.
fn are_extended(lists: &Lists<'_>, first: u32, end: u32) -> bool
    requires { end ≤ attribute_count lists.now }
    ensures { result ≡ list_all is_extended (attributes lists.now first (end - first)) }
{
    for at in first..end {
        if !is_extended(lists.name(at), lists.value(at)) {
            return false;
        }
    }
    true
}

// Whether their names rise.
fn names_rise(lists: &Lists<'_>, first: u32, end: u32) -> bool
    requires { end ≤ attribute_count lists.now }
    ensures { result ≡ names_rise (attributes lists.now first (end - first)) }
{
    for at in first..end {
        if !rises_at(lists, at, end) {
            return false;
        }
    }
    true
}

// Whether the name of an attribute comes before the next, if there is one before the end.
fn rises_at(lists: &Lists<'_>, at: u32, end: u32) -> bool
    requires inside { at < end }
    requires known { end ≤ attribute_count lists.now }
    ensures { result ≡ rises_at lists.now end at }
{
    at + 1 >= end || lists.name(at).cmp(lists.name(at + 1)) == Ordering::Less
}

// Whether their names are not too long together.
fn names_fit(lists: &Lists<'_>, first: u32, end: u32) -> bool
    requires { end ≤ attribute_count lists.now }
    ensures { result ≡ nat_le (length (names_of (attributes lists.now first (end - first))))
        MAX_XATTR_LIST_SIZE }
{
    let mut len = 0;
    for at in first..end {
        len += lists.name(at).len() + 1;
        if len > MAX_XATTR_LIST_SIZE {
            return false;
        }
    }
    true
}
