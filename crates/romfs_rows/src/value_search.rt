//! The value of an attribute by its name.

ghost use Rattle.std.specs.Prelude.{◌≡◌, ◌+◌, ◌-◌, ◌*◌, ◌<◌, ◌≤◌, None, Some, true, MatchOption};
ghost use Rattle.std.specs.Option.{option_map};
ghost use Rattle.romfs_format.specs.Extended.{is_list, names_rise, value_of};
ghost use Rattle.romfs_format.specs.Part.{attribute_count, attributes, list_count, numbered, piece};

use crate::lists::Lists;
use std::cmp::Ordering;

impl<'t> Lists<'t> {
    /// The value of the attribute with a name in the list with a number, counted from 1, by binary
    /// search; list 0 is empty.
    #[tactic(auto, unfolding(romfs_format::specs::Part::list_of))]
    pub fn value_of(&self, number: u32, name: &[u8]) -> Option<&'t [u8]>
        requires there { number ≤ list_count self.now }
        requires right { is_list (numbered self.now number) ≡ true }
        ensures { option_map (λ value. value.now) result
            ≡ value_of name.now (numbered self.now number) }
    {
        if number == 0 {
            return None;
        }
        let first = self.first(number as usize - 1);
        let end = self.first(number as usize);
        let at = find(self, first, end, name)?;
        Some(self.value(at))
    }
}

// The attribute with a name among those from one up to an end, by binary search.
fn find(lists: &Lists<'_>, first: u32, end: u32, name: &[u8]) -> Option<u32>
    requires there { end ≤ attribute_count lists.now }
    requires rise { names_rise (attributes lists.now first (end - first)) ≡ true }
    ensures { MatchOption result
        (value_of name.now (attributes lists.now first (end - first)) ≡ None)
        (λ at. (at < attribute_count lists.now)
        × (value_of name.now (attributes lists.now first (end - first))
        ≡ Some (piece lists.now (2 * at + 1)))) }
{
    let mut low = first;
    let mut high = end;
    while low < high {
        let middle = low + (high - low) / 2;
        match lists.name(middle).cmp(name) {
            Ordering::Less => low = middle + 1,
            Ordering::Equal => return Some(middle),
            Ordering::Greater => high = middle,
        }
    }
    None
}
