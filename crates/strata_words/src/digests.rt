//! Digests of images on the command line, as `fsverity digest` prints them.

ghost use Rattle.std.specs.Prelude.{◌≡◌, ◌⊎◌, option_map, replicate, IfOk, IfErr, OnOk};
ghost use Rattle.std.specs.Result.{result_ok};
ghost use Rattle.clap.specs.Walk.{texts};
ghost use Rattle.hex.specs.Hex.{decode_sized};
ghost use Rattle.romfs_seal.specs.declared.digest.Digest.{Digest};
ghost use Rattle.romfs_seal.specs.declared.digest.Digest.TheVariants.{Short, Long};
ghost use Rattle.strata_words.specs.Digests.{AreNamed, digest_in, digest_of, digests_named, named_in};
ghost use Rattle.strata_words.specs.declared.options.LineFault.TheVariants.{Memory};

use crate::options::LineFault;
use hex::FromHex;
use romfs_seal::Digest;
use std::alloc::{AllocError, Global};

/// What each of these texts says about an image: its digest, or `None`.
pub(crate) fn digests_named(alloc: Global, given: &[&str]) -> Result<Vec<Option<Digest>>, LineFault>
    ensures ok { IfOk result (λ digests. digests.items ≡ digests_named (texts given.now)) }
    ensures named { OnOk result (AreNamed (texts given.now)) }
    ensures err { IfErr result (λ fault. (fault ≡ Memory) ⊎ ¬ AreNamed (texts given.now)) }
{
    let mut digests = Vec::with_capacity(alloc, given.len())?;
    for text in given {
        match named_in(text) {
            Some(named) => digests.push(named)?,
            None => return Err(no_digest(alloc, text)?),
        }
    }
    Ok(digests)
}

/// No digest for any of this many images.
pub(crate) fn no_digests(alloc: Global, count: usize) -> Result<Vec<Option<Digest>>, AllocError>
    ensures { IfOk result (λ digests. digests.items ≡ replicate count None) }
{
    let mut digests = Vec::with_capacity(alloc, count)?;
    for _image in 0..count {
        digests.push(None)?;
    }
    Ok(digests)
}

// What a text says about an image: `-` means without a digest; anything else is its digest.
fn named_in(text: &str) -> Option<Option<Digest>>
    ensures { result ≡ named_in text.now }
{
    if text == "-" {
        return Some(None);
    }
    let digest = digest_in(text)?;
    Some(Some(digest))
}

// The digest in a text: the name of its algorithm, a colon, and hex digits.
fn digest_in(text: &str) -> Option<Digest>
    ensures { result ≡ digest_in text.now }
{
    let (algorithm, digits) = text.split_once(':')?;
    digest_of(algorithm, digits)
}

fn digest_of(algorithm: &str, digits: &str) -> Option<Digest>
    ensures { result ≡ digest_of algorithm.now digits.now }
{
    match algorithm {
        "sha256" => short(digits),
        "sha512" => long(digits),
        _ => None,
    }
}

fn short(digits: &str) -> Option<Digest>
    ensures { result ≡ option_map Short (result_ok (decode_sized digits.now 32)) }
{
    let bytes = <[u8; 32] as FromHex>::from_hex(digits).ok()?;
    Some(Digest::Short(bytes))
}

fn long(digits: &str) -> Option<Digest>
    ensures { result ≡ option_map Long (result_ok (decode_sized digits.now 64)) }
{
    let bytes = <[u8; 64] as FromHex>::from_hex(digits).ok()?;
    Some(Digest::Long(bytes))
}

// The fault for a text that is not a digest, in the form of `clap`.
fn no_digest(alloc: Global, text: &str) -> Result<LineFault, AllocError> {
    let text = format!(in alloc;
        "error: invalid value '{text}' for '--digest <DIGEST>': not 'sha256:' before 64 hex \
         digits, 'sha512:' before 128, or '-'\n\nFor more information, try '--help'."
    )?;
    Ok(LineFault::Usage { text })
}
