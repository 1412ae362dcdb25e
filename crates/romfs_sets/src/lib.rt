//! Sets of headers, ways between them, and equal names, for the check of an image. The numbering of
//! nodes and look-ups of names use them too.
//!
//! Headers are at multiples of 16, and each such place is a slot. A [`SlotSet`] says of each slot
//! whether it is in the set; [`SparseSlots`] does so if few are. The slots of a set have numbers
//! from 0 upward ([`SlotNumbers`]), by which a word is kept for each ([`SlotWords`]). [`places_of`]
//! lists the places of a set, rising, and [`is_listed`] looks one up by binary search. A set takes
//! a bit for each slot; adding or testing one is one step, and a scan takes a step for each slot of
//! the set and one for each 64. Numbers take 4 bytes for each 64 slots.
//!
//! [`note_repeats`] takes points, each of which leads on to one point and has a class. It notes
//! exactly the points with a lower one of their class before or after them on a way
//! (`specs/Climb`). It climbs ways against their direction: n steps, no recursion, 15 bytes for
//! each point.
//!
//! [`seen_once`] finds keys that occur once in a list, and misses few of them, in two steps and
//! three bytes a key. [`classes`] gives two numbers the same class exactly if they have the same
//! name ([`NumberedName`], [`hash_of`]), by a sort of hashes and names: n log n steps, for any
//! names.
#![tactic(auto)]

mod climb;
mod crowded;
mod found;
mod graph;
mod listed;
mod names;
mod once;
mod slot_numbers;
mod slot_set;
mod slot_words;
mod sparse_slots;

pub use climb::note_repeats;
pub use listed::{is_listed, places_of};
pub use names::{NumberedName, classes, hash_of};
pub use once::seen_once;
pub use slot_numbers::SlotNumbers;
pub use slot_set::SlotSet;
pub use slot_words::SlotWords;
pub use sparse_slots::SparseSlots;
