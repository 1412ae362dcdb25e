//! A file that was opened under its digest, as its callers see it.

ghost use Rattle.std.specs.Prelude.{◌≡◌, ◌⊎◌, IfOk, IfErr};
ghost use Rattle.romfs_seal.specs.declared.opening.SealFault.TheVariants.{Memory};
ghost use Rattle.romfs_seal.specs.Digests.{sha};
ghost use Rattle.romfs_seal.specs.Named.{named};
ghost use Rattle.devices.specs.Honest.{IsTampered};

use crate::files::{Files, NamedFiles};
use crate::hash::BlockHash;
use crate::opening::SealFault;
use crate::recent::Recent;
use crate::sealed::Sealed;
use devices::{Algorithm, Contents, Unread};
use std::alloc::Allocator;
use std::marker::Model;

/// A file that was opened under its digest. A contract sees its seal alone.
#[derive(Drop)]
pub struct SealedImage<F: NamedFiles, A: Allocator> {
    inner: Sealed<F, A>,
}

impl<F: NamedFiles, A: Allocator> Model for SealedImage<F, A> {
    ghost use Rattle.std.specs.Prelude.{◌≡◌};
    ghost use Rattle.romfs_seal.specs.Digests.{sha};
    ghost use Rattle.romfs_seal.specs.Named.{Named, named};

    ghost Value = { Named };

    ghost view = { λ image. named (F.seal image.inner.files) };

    ghost invariant = { λ image.
        (F.seal image.inner.files).hash ≡ sha (F.seal image.inner.files).algorithm };
}

impl<F: NamedFiles + Drop, A: Allocator + Copy> SealedImage<F, A> {
    /// Opens a file under its digest, as [`Sealed::open`] does.
    pub fn open(alloc: A, files: F) -> Result<SealedImage<F, A>, SealFault>
        requires { (F.seal files).hash ≡ sha (F.seal files).algorithm }
        ensures ok { IfOk result (λ image. image ≡ named (F.seal files)) }
        ensures err { IfErr result (λ fault. (fault ≡ Memory) ⊎ IsTampered (F.seal files)) }
    {
        let inner = Sealed::open(alloc, files)?;
        Ok(SealedImage { inner })
    }
}

impl<C: Contents + Drop, D: Contents + Drop, A: Allocator> SealedImage<Files<C, D, Recent<A>>, A> {
    /// The same file without held blocks, so that several threads may read it at the same time.
    pub fn shared(self) -> SealedImage<Files<C, D, Algorithm>, A>
        ensures { result ≡ self }
    {
        let Sealed {
            files,
            levels,
            lowest,
            kept,
        } = self.inner;
        let Files {
            image,
            tree,
            hash,
            digest,
            size,
        } = files;
        let files = Files {
            image,
            tree,
            hash: hash.algorithm(),
            digest,
            size,
        };
        SealedImage {
            inner: Sealed {
                files,
                levels,
                lowest,
                kept,
            },
        }
    }
}

impl<F: NamedFiles, A: Allocator> Contents for SealedImage<F, A> {
    ghost use Rattle.devices.specs.Sources.{sealed};
    ghost use Rattle.romfs_seal.specs.Named.{seal_of};

    ghost source = { λ image. sealed (seal_of image) };

    fn size(&self) -> u64 {
        Contents::size(&self.inner)
    }

    fn read_at(&self, room: &mut [u8], offset: u64) -> Result<usize, Unread> {
        Contents::read_at(&self.inner, room, offset)
    }
}
