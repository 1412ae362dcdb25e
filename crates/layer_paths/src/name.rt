//! Names that need no allocation if they are short.

ghost use Rattle.std.specs.Prelude.{◌≡◌, ◌<◌, ◌≤◌, length, MatchOption, MatchResult};
ghost use Rattle.layer_paths.specs.Padded.{IsPadded};

use std::alloc::{AllocError, Allocator, Global};
use std::marker::Model;

/// How many bytes the value itself holds.
const MOST: usize = 22;

/// A name of any length. It takes 24 bytes, and an allocation only if it has more than 22. A
/// contract sees its bytes.
#[derive(Drop)]
pub struct Name<A: Allocator> {
    bytes: Bytes<A>,
}

const _: () = prove!(size_of::<Name<Global>>() <= 24);

impl<A: Allocator> Model for Name<A> {
    ghost use Rattle.std.specs.Prelude.{List, ℕ};
    ghost use Rattle.layer_paths.specs.Names.{bytes_of, IsBesideIfLong};

    ghost Value = { List ℕ };

    ghost view = { λ n. bytes_of n.bytes };

    ghost invariant = { λ n. IsBesideIfLong n.bytes };
}

impl<A: Allocator + Copy> Name<A> {
    /// An owned name. `AllocError` only if memory is refused for a name of more than 22 bytes.
    pub fn of(alloc: A, name: &[u8]) -> Result<Name<A>, AllocError>
        ensures { MatchResult result (λ own. own ≡ name.now) (λ _. 22 < length name.now) }
    {
        let bytes = if name.len() <= MOST {
            Bytes::Here(Short::of(name))
        } else {
            Bytes::There(Box::new(alloc, name.to_vec(alloc)?)?)
        };
        Ok(Name { bytes })
    }

    /// A copy. `AllocError` only if memory is refused for a name of more than 22 bytes.
    pub fn copied(&self, alloc: A) -> Result<Name<A>, AllocError>
        ensures { MatchResult result (λ own. own ≡ self.now) (λ _. 22 < length self.now) }
    {
        let bytes = match &self.bytes {
            Bytes::Here(short) => Bytes::Here(short.copied()),
            Bytes::There(long) => Bytes::There(Box::new(alloc, long.to_vec(alloc)?)?),
        };
        Ok(Name { bytes })
    }
}

impl<A: Allocator> Name<A> {
    /// The bytes of the name.
    pub fn as_slice(&self) -> &[u8]
        ensures { result.now ≡ self.now }
    {
        match &self.bytes {
            Bytes::Here(short) => short.as_slice(),
            Bytes::There(long) => long.as_slice(),
        }
    }

    /// The bytes of a name of at most 22, padded with zeros to 22; none of a longer name.
    pub fn padded(&self) -> Option<&[u8; 22]>
        ensures { MatchOption result (22 < length self.now)
            (λ padded. IsPadded self.now padded.now) }
    {
        match &self.bytes {
            Bytes::Here(short) => Some(short.padded()),
            Bytes::There(_) => None,
        }
    }
}

#[derive(Drop)]
enum Bytes<A: Allocator> {
    Here(Short),
    There(Box<Vec<u8, A>, A>),
}

/// A name of at most 22 bytes, followed by zeros.
#[derive(Drop)]
struct Short {
    len: u8,
    bytes: [u8; 22],
}

impl Model for Short {
    ghost use Rattle.std.specs.Prelude.{◌≤◌, List, ℕ, take};
    ghost use Rattle.layer_paths.specs.Padded.{IsPadded};

    ghost Value = { List ℕ };

    ghost view = { λ s. take s.len s.bytes };

    ghost invariant = { λ s. (s.len ≤ 22) × IsPadded (take s.len s.bytes) s.bytes };
}

impl Short {
    #[tactic(auto, using(crate::proofs::Padded::zeros_left))]
    fn of(name: &[u8]) -> Short
        requires { length name.now ≤ 22 }
        ensures { result ≡ name.now }
    {
        let mut bytes = [0; 22];
        bytes[..name.len()].copy_from_slice(name);
        Short {
            len: name.len() as u8,
            bytes,
        }
    }

    fn as_slice(&self) -> &[u8]
        ensures { result.now ≡ self.now }
    {
        &self.bytes[..self.len as usize]
    }

    fn padded(&self) -> &[u8; 22]
        ensures { IsPadded self.now result.now }
    {
        &self.bytes
    }

    fn copied(&self) -> Short
        ensures { result ≡ self.now }
    {
        Short {
            len: self.len,
            bytes: self.bytes,
        }
    }
}
