//! A hash that is asked for the same blocks again and again.

ghost use Rattle.std.specs.Prelude.{◌≡◌, IfOk, IfSome};
ghost use Rattle.romfs_seal.specs.Digests.{digest_bytes, sha};

use crate::digest::Digest;
use crate::filling::BLOCK;
use crate::hash::BlockHash;
use devices::Algorithm;
use std::alloc::{AllocError, Allocator};
use std::cell::{Cell, RefCell};

/// How many blocks are held.
const HELD: usize = 8;

/// A block, and its digest.
#[derive(Drop)]
struct Hashed {
    algorithm: Algorithm,
    block: [u8; BLOCK],
    digest: Digest,
    ghost is: { digest_bytes digest ≡ sha algorithm block },
}

impl Hashed {
    /// The digest, if it is of these bytes.
    fn digest_of(&self, algorithm: Algorithm, bytes: &[u8]) -> Option<Digest>
        ensures { IfSome result (λ digest. digest_bytes digest ≡ sha algorithm bytes.now) }
    {
        if self.algorithm == algorithm && self.block.as_slice() == bytes {
            Some(self.digest)
        } else {
            None
        }
    }
}

/// A room for a block.
#[derive(Drop)]
struct Slot {
    held: RefCell<Option<Hashed>>,
    // The number of the last hash that it was asked for.
    asked: Cell<u64>,
}

impl Slot {
    fn new() -> Slot {
        Slot {
            held: RefCell::new(None),
            asked: Cell::new(0),
        }
    }

    /// The digest of these bytes, if they are held.
    fn recall(&self, algorithm: Algorithm, bytes: &[u8]) -> Option<Digest>
        ensures { IfSome result (λ digest. digest_bytes digest ≡ sha algorithm bytes.now) }
    {
        match self.held.try_borrow() {
            Ok(held) => match &*held {
                Some(hashed) => hashed.digest_of(algorithm, bytes),
                None => None,
            },
            Err(_) => None,
        }
    }

    /// Holds a block with its digest, instead of another.
    fn hold(&self, algorithm: Algorithm, bytes: &[u8], digest: Digest)
        requires { digest_bytes digest ≡ sha algorithm bytes.now }
    {
        if bytes.len() == BLOCK {
            let mut block = [0u8; BLOCK];
            block.copy_from_slice(bytes);
            let _other = self.held.try_replace(Some(Hashed {
                algorithm,
                block,
                digest,
            }));
        }
    }
}

/// An algorithm of fs-verity that does not hash again the eight blocks that it was asked for last.
///
/// A file is read part by part, each with the hash block over it, which is mostly the one over a
/// part shortly before. To compare blocks takes a small part of the time of a hash. One thread uses
/// it.
#[derive(Drop)]
pub struct Recent<A: Allocator> {
    algorithm: Algorithm,
    slots: Vec<Slot, A>,
    // How often it was asked.
    asked: Cell<u64>,
}

impl<A: Allocator> Recent<A> {
    /// One that was asked for nothing.
    pub fn new(alloc: A, algorithm: Algorithm) -> Result<Recent<A>, AllocError>
        ensures { IfOk result (λ recent. recent.algorithm ≡ algorithm) }
    {
        let mut slots = Vec::with_capacity(alloc, HELD)?;
        for _number in 0..HELD {
            slots.push(Slot::new())?;
        }
        Ok(Recent {
            algorithm,
            slots,
            asked: Cell::new(0),
        })
    }

    /// The digest of these bytes, if they are held: then they were asked for now.
    fn recall(&self, now: u64, bytes: &[u8]) -> Option<Digest>
        ensures { IfSome result (λ digest.
            digest_bytes digest ≡ sha self.now.algorithm bytes.now) }
    {
        for slot in &self.slots {
            if let Some(digest) = slot.recall(self.algorithm, bytes) {
                slot.asked.set(now);
                return Some(digest);
            }
        }
        None
    }

    /// The slot that was asked for least recently.
    fn oldest(&self) -> Option<&Slot> {
        let mut oldest: Option<&Slot> = None;
        for slot in &self.slots {
            match oldest {
                Some(found) if found.asked.get() <= slot.asked.get() => {}
                _ => oldest = Some(slot),
            }
        }
        oldest
    }
}

impl<A: Allocator> BlockHash for Recent<A> {
    ghost use Rattle.romfs_seal.specs.Digests.{sha, is_digest};

    ghost algorithm_of = { λ recent. recent.algorithm };

    ghost digest_of = { λ recent. sha recent.algorithm };

    ghost sized = { λ recent bytes. is_digest recent.algorithm bytes };

    fn algorithm(&self) -> Algorithm {
        self.algorithm
    }

    fn hash(&self, bytes: &[u8]) -> Digest {
        let now = self.asked.get().wrapping_add(1);
        self.asked.set(now);
        if let Some(digest) = self.recall(now, bytes) {
            return digest;
        }
        let digest = self.algorithm.hash(bytes);
        if let Some(slot) = self.oldest() {
            slot.hold(self.algorithm, bytes, digest);
            slot.asked.set(now);
        }
        digest
    }
}
