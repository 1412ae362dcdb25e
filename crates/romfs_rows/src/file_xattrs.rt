//! The extended attributes of one file.

ghost use Rattle.std.specs.Prelude.{◌≡◌, ◌-◌, ◌≤◌, [], length, slice_get, true, IfSome, MatchOption, Some};
ghost use Rattle.std.specs.List.{list_any};
ghost use Rattle.std.specs.Option.{option_map};
ghost use Rattle.romfs_format.specs.declared.limits.TheConstants.{MAX_XATTR_SIZE};
ghost use Rattle.romfs_format.specs.Extended.{is_acl_name, is_list, value_of};
ghost use Rattle.romfs_format.specs.Part.{attribute_count, attributes, list_count, numbered, AreLists};

use crate::attribute::is_acl_name;
use crate::lists::Lists;
use std::marker::Model;

/// A file's extended attributes, lent from the lists of its image. A clause sees them as a list.
#[derive(Drop)]
pub struct FileXattrs<'t> {
    lists: Lists<'t>,
    // Counted from 1.
    number: u32,
}

impl<'t> Model for FileXattrs<'t> {
    ghost use Rattle.std.specs.Prelude.{List};
    ghost use Rattle.romfs_format.specs.Extended.{Extended};
    ghost use Rattle.romfs_format.specs.Part.{numbered};
    ghost use Rattle.romfs_rows.specs.Listed.{IsFileList};

    ghost Value = { List Extended };

    ghost view = { λ held. numbered held.lists held.number };

    ghost invariant = { λ held. IsFileList held.lists held.number };
}

impl<'t> FileXattrs<'t> {
    /// The list with a number among those of these bytes; none if the number is 0.
    #[tactic(auto, using(crate::proofs::Tables::numbered_right))]
    pub(crate) fn of(bytes: &'t [u8], number: u32) -> Option<FileXattrs<'t>>
        requires lists { AreLists bytes.now }
        requires there { number ≤ list_count bytes.now }
        ensures value { MatchOption result (numbered bytes.now number ≡ [])
            (λ found. numbered bytes.now number ≡ found) }
        ensures right { IfSome result (λ found. is_list found ≡ true) }
    {
        if number == 0 {
            return None;
        }
        Some(FileXattrs {
            lists: Lists::again(bytes),
            number,
        })
    }

    /// The value of the attribute with a name, by binary search.
    pub fn value(&self, name: &[u8]) -> Option<&'t [u8]>
        ensures value { option_map (λ value. value.now) result ≡ value_of name.now self.now }
        ensures short { IfSome result (λ value. length value.now ≤ MAX_XATTR_SIZE) }
    {
        self.lists.value_of(self.number, name)
    }

    /// How many there are.
    pub fn len(&self) -> u32
        ensures { result ≡ length self.now }
    {
        let first = self.lists.first(self.number as usize - 1);
        let end = self.lists.first(self.number as usize);
        end - first
    }

    /// The name at a position, counted from 0; none after the last.
    pub fn name(&self, position: u32) -> Option<&'t [u8]>
        ensures { MatchOption result (length self.now ≤ position)
            (λ name. option_map (λ x. x.name) (slice_get self.now position) ≡ Some name.now) }
    {
        let first = self.lists.first(self.number as usize - 1);
        let end = self.lists.first(self.number as usize);
        if end - first <= position {
            return None;
        }
        Some(self.lists.name(first + position))
    }

    /// Whether one is an access control list.
    pub fn has_acl(&self) -> bool
        ensures { result ≡ list_any (λ x. is_acl_name x.name) self.now }
    {
        let first = self.lists.first(self.number as usize - 1);
        let end = self.lists.first(self.number as usize);
        has_acl(&self.lists, first, end)
    }
}

// Whether one of some attributes is an access control list.
fn has_acl(lists: &Lists<'_>, first: u32, end: u32) -> bool
    requires { end ≤ attribute_count lists.now }
    ensures { result ≡ list_any (λ x. is_acl_name x.name)
        (attributes lists.now first (end - first)) }
{
    for at in first..end {
        if is_acl_name(lists.name(at)) {
            return true;
        }
    }
    false
}
