//! Look-up of names by keys, in bounded time whatever names a stranger chooses.
//!
//! A caller that keeps rows in the order of their names makes their keys once, directory by
//! directory ([`add_keys`]), and keeps them beside the rows. [`find`] then finds the place of a
//! name in as many steps as the number of names has binary digits, and if keys are equal in at most
//! as many again over names. A key takes one step to make, and eight bytes.
//!
//! [`Guesses`], beside the rows of many directories, finds most places at once, for 8 to 16 bytes a
//! row. [`KeyFilter`] mostly finds that no row has a name, for one byte a row. A row is anything
//! with a name ([`HasName`]). The crate uses `romfs_sets` for sets of bits.
#![tactic(auto)]

mod adding;
mod guesses;
mod has_name;
mod key;
mod key_filter;
mod run;
mod search;

pub use adding::{add_keys, shared};
pub use guesses::{Guesses, hashed};
pub use has_name::HasName;
pub use key::key_of;
pub use key_filter::KeyFilter;
pub use search::find;
