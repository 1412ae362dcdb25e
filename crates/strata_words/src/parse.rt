//! The arguments of the command line, read by `clap`.
//!
//! `clap` uses the global allocator, so this module takes no other.

ghost use Rattle.std.specs.Prelude.{◌≡◌, ◌≤◌, ◌⊎◌, codes, is_some, map, true};
ghost use Rattle.std.specs.Prelude.{IfOk, IfErr, OnOk, length, option_map, vec_len};
ghost use Rattle.std.specs.Int.{IsInRange};
ghost use Rattle.clap.specs.Takes.{is_given};
ghost use Rattle.clap.specs.Walk.{all_of, first_of, texts};
ghost use Rattle.clap.specs.Words.{kind_of, subcommand_rows_of};
ghost use Rattle.strata_words.specs.CommandLine.{IsLineOf, IsNoLine, IsTaken, TellsKind, command_in};
ghost use Rattle.strata_words.specs.CommandLine.{IsFilled, IsInLimits, IsReadFrom, names_both, verb_word};
ghost use Rattle.strata_words.specs.CommandLine.{AreCrossed, GivesSocket, NamesSocket, is_flag, rows_in};
ghost use Rattle.strata_words.specs.CommandLine.{HaveNumbersInRange, IsNumberNamed, IsNumberOf};
ghost use Rattle.strata_words.specs.CommandLine.{HaveDigests, images_in};
ghost use Rattle.strata_words.specs.Digests.{AreDigests, digests_for};
ghost use Rattle.strata_words.specs.Owners.{IsOwnerOf};
ghost use Rattle.strata_words.specs.declared.options.LineFault.TheVariants.{Memory};

use crate::commands::{MOUNTING, program};
use crate::digests::{digests_named, no_digests};
use crate::numbers::{number_to, owner_in};
use crate::options::{Line, LineFault, MAX_READERS, MAX_SESSIONS, NoLine, Verb};
use clap::error::ErrorKind;
use clap::{ArgMatches, Error};
use draw_board::limits::{MAX_BATCH, MAX_WORKERS};
use romfs_seal::Digest;
use stack_model::Owner;
use std::alloc::{AllocError, Global};
use std::convert::AsStr;
use std::env::Env;
use std::{env, io};

const DEFAULT_WORKERS: u32 = 4;

const DEFAULT_BATCH: u32 = 16;

const DEFAULT_READERS: u32 = 1;

const DEFAULT_SESSIONS: u32 = 1;

/// The arguments after the program's name. If one is not UTF-8, it is a `Usage` fault.
pub fn words<R: Env + AllocGlobal>(rt: &R) -> Result<Vec<String>, LineFault> {
    let arguments = env::args(rt).map_err(|error| not_text(rt.alloc(), &error))?;
    let mut words = Vec::new(rt.alloc());
    for word in arguments.skip(1) {
        words.push(word)?;
    }
    Ok(words)
}

/// Reads the arguments after the program's name: the line has their verb, the flags, the first
/// value of each option or its default, and all images in order. A number is decimal, only digits,
/// from 1 to 64 (`--workers`, `--readers`), 256 (`--batch`) or 65,535 (`--sessions`), and an owner
/// is two numbers below 2^32 joined by a colon. There is one digest for each image in their order,
/// or none at all: `sha256:` before 64 hex digits, `sha512:` before 128, or `-` for an image
/// without a digest. For `socket` the line has the path of the socket.
///
/// Arguments that ask for the version give `Version`. `Usage` means that the arguments are no
/// command of the program (a request for help is none), have another number or digest, or more or
/// fewer digests than images, or name a file beside the device; `Memory` means that memory was
/// refused.
pub fn line<'a, S: AsStr>(alloc: Global, words: &'a [S]) -> Result<Line<'a>, NoLine>
    ensures ok { IfOk result (λ line. IsLineOf (map S.text words.now) line) }
    ensures limits { IfOk result (λ line. IsInLimits line) }
    ensures some_image { IfOk result (λ line. 1 ≤ vec_len line.images) }
    ensures socket { IfOk result (λ line. NamesSocket line) }
    ensures err { IfErr result (λ no_line. IsNoLine (map S.text words.now) no_line) }
{
    let matches = matches_of(alloc, words)?;
    let (name, found) = matches.subcommand().unwrap();
    match line_of(alloc, verb_of(name), found) {
        Ok(line) => Ok(line),
        Err(fault) => Err(NoLine::Fault(fault)),
    }
}

// The result of `clap` for the arguments.
fn matches_of<'a, S: AsStr>(alloc: Global, words: &'a [S]) -> Result<ArgMatches<'a>, NoLine>
    ensures taken { IfOk result (λ _. IsTaken (map S.text words.now)) }
    ensures command { IfOk result (λ matches.
        subcommand_rows_of matches ≡ command_in (map S.text words.now)) }
    ensures err { IfErr result (λ no_line. IsNoLine (map S.text words.now) no_line) }
{
    match program(alloc)?.try_get_matches_from(words) {
        Ok(matches) => Ok(matches),
        Err(error) => Err(refusal(alloc, words, &error)),
    }
}

// The verb with a command's name.
fn verb_of(name: &str) -> Verb
    requires { (name.now ≡ codes "serve") ⊎ (name.now ≡ codes "socket")
        ⊎ (name.now ≡ codes "check") ⊎ (name.now ≡ codes "list") }
    ensures { verb_word result ≡ name.now }
{
    match name {
        "serve" => Verb::Serve,
        "socket" => Verb::Socket,
        "check" => Verb::Check,
        "list" => Verb::List,
        _ => unreachable!(),
    }
}

// The line for a command that was found.
fn line_of<'a>(alloc: Global, verb: Verb, found: &ArgMatches<'a>) -> Result<Line<'a>, LineFault>
    requires filled { IsFilled (rows_in found.now) }
    requires socket { GivesSocket verb (rows_in found.now) }
    ensures ok { IfOk result (IsReadFrom verb (rows_in found.now)) }
    ensures err { IfErr result (λ fault. (fault ≡ Memory)
        ⊎ ((¬ HaveNumbersInRange (rows_in found.now))
        ⊎ (AreCrossed (rows_in found.now) ⊎ ¬ HaveDigests (rows_in found.now)))) }
{
    let images = images(alloc, found)?;
    let digests = digests(alloc, found, images.len())?;
    let line = Line {
        verb,
        strict: flag(found, "strict"),
        attributes: flag(found, "attributes"),
        as_mounted: flag(found, "as-mounted"),
        whole: flag(found, "whole"),
        in_files: flag(found, "in-files"),
        device: flag(found, "device"),
        readers: number(alloc, found, "readers", DEFAULT_READERS, MAX_READERS)?,
        lasting: flag(found, "lasting"),
        workers: number(alloc, found, "workers", DEFAULT_WORKERS, MAX_WORKERS)?,
        batch: number(alloc, found, "batch", DEFAULT_BATCH, MAX_BATCH)?,
        requests: value(found, "requests"),
        replies: value(found, "replies"),
        balances: value(found, "balances"),
        listen: value(found, "listen"),
        sessions: number(alloc, found, "sessions", DEFAULT_SESSIONS, MAX_SESSIONS)?,
        owner: owner(alloc, found)?,
        images,
        digests,
    };
    match named_beside_device(&line) {
        None => Ok(line),
        Some(name) => Err(crossed(alloc, name)?),
    }
}

// Whether a flag is given.
fn flag(found: &ArgMatches<'_>, name: &str) -> bool
    requires filled { IsFilled (rows_in found.now) }
    requires flag { is_flag name.now ≡ true }
    ensures { result ≡ is_given name.now (rows_in found.now) }
{
    found.get_flag(name)
}

// The value of an option, if it is given.
fn value<'a>(found: &ArgMatches<'a>, name: &str) -> Option<&'a str>
    ensures { option_map (λ text. text.now) result ≡ first_of name.now (rows_in found.now) }
{
    found.get_str(name)
}

// The images, at least one.
fn images<'a>(alloc: Global, found: &ArgMatches<'a>) -> Result<Vec<&'a str>, AllocError>
    requires { IsFilled (rows_in found.now) }
    ensures are { IfOk result (λ images.
        texts images.items ≡ images_in (rows_in found.now)) }
    ensures some { IfOk result (λ images. 1 ≤ vec_len images) }
    ensures count { IfOk result (λ images.
        vec_len images ≡ length (images_in (rows_in found.now))) }
{
    let images = found.get_strs("image").unwrap().to_vec(alloc)?;
    Ok(images)
}

// The digests for this many images, one for each or none at all.
fn digests(
    alloc: Global,
    found: &ArgMatches<'_>,
    count: usize,
) -> Result<Vec<Option<Digest>>, LineFault>
    ensures ok { IfOk result (λ digests.
        digests.items ≡ digests_for count (all_of (codes "digest") (rows_in found.now))) }
    ensures each { IfOk result (λ digests. vec_len digests ≡ count) }
    ensures given { OnOk result (AreDigests count (all_of (codes "digest") (rows_in found.now))) }
    ensures err { IfErr result (λ fault. (fault ≡ Memory)
        ⊎ ¬ AreDigests count (all_of (codes "digest") (rows_in found.now))) }
{
    match found.get_strs("digest") {
        None => Ok(no_digests(alloc, count)?),
        Some(texts) if texts.len() == count => digests_named(alloc, texts),
        Some(texts) => Err(miscounted(alloc, texts.len(), count)?),
    }
}

// The option of a file that is named beside the device, if there is one.
fn named_beside_device(line: &Line<'_>) -> Option<&'static str>
    ensures { is_some result ≡ names_both line.now }
{
    if !line.device {
        None
    } else if line.requests.is_some() {
        Some("requests")
    } else if line.replies.is_some() {
        Some("replies")
    } else if line.balances.is_some() {
        Some("balances")
    } else {
        None
    }
}

// The number given for an option, from 1 to `most`, or `default` if it is left out.
fn number(
    alloc: Global,
    found: &ArgMatches<'_>,
    name: &str,
    default: u32,
    most: u32,
) -> Result<u32, LineFault>
    requires named { IsNumberNamed name.now most default }
    requires default { IsInRange 1 most default }
    ensures ok { IfOk result (λ number.
        IsNumberOf most default (first_of name.now (rows_in found.now)) number) }
    ensures in_range { IfOk result (λ number. IsInRange 1 most number) }
    ensures err { IfErr result (λ fault. (fault ≡ Memory)
        ⊎ ¬ HaveNumbersInRange (rows_in found.now)) }
{
    match value(found, name) {
        None => Ok(default),
        Some(text) => match number_to(text, most) {
            Some(number) => Ok(number),
            None => Err(misnumbered(alloc, name, text, most)?),
        },
    }
}

// The given owner, or user and group 0.
fn owner(alloc: Global, found: &ArgMatches<'_>) -> Result<Owner, LineFault>
    ensures ok { IfOk result (λ owner.
        IsOwnerOf (first_of (codes "owner") (rows_in found.now)) owner) }
    ensures err { IfErr result (λ fault. (fault ≡ Memory)
        ⊎ ¬ HaveNumbersInRange (rows_in found.now)) }
{
    match value(found, "owner") {
        None => Ok(Owner::ROOT),
        Some(text) => match owner_in(text) {
            Some(owner) => Ok(owner),
            None => Err(no_owner(alloc, text)?),
        },
    }
}

// The fault for an error of `clap`, or a request for the version.
fn refusal<S: AsStr>(alloc: Global, words: &[S], error: &Error) -> NoLine
    ensures { TellsKind (kind_of error.now) result }
{
    match error.kind() {
        ErrorKind::OutOfMemory => NoLine::Fault(LineFault::Memory),
        ErrorKind::DisplayVersion => NoLine::Version,
        _ if asks_to_mount(words) => NoLine::Fault(no_mount(alloc)),
        _ => NoLine::Fault(match error.to_string(alloc) {
            Ok(text) => usage(alloc, text.as_str().trim_end()),
            Err(_) => LineFault::Memory,
        }),
    }
}

// Whether the first argument is `mount`, which is no command.
fn asks_to_mount<S: AsStr>(words: &[S]) -> bool {
    match words.first() {
        Some(word) => word.as_str() == "mount",
        None => false,
    }
}

// The fault for `mount`, in the form of `clap`, with the page about mounting.
fn no_mount(alloc: Global) -> LineFault {
    let text = format!(in alloc; "error: unrecognized subcommand 'mount'\n\n{MOUNTING}");
    match text {
        Ok(text) => LineFault::Usage { text },
        Err(_) => LineFault::Memory,
    }
}

// The fault for a value that is not a number from 1 to `most`, in the form of `clap`.
fn misnumbered(alloc: Global, name: &str, text: &str, most: u32) -> Result<LineFault, AllocError> {
    let text = format!(in alloc;
        "error: invalid value '{text}' for '--{name} <N>': not a number from 1 to {most}\n\n\
         For more information, try '--help'."
    )?;
    Ok(LineFault::Usage { text })
}

// The fault for a text that is not two numbers joined by a colon, in the form of `clap`.
fn no_owner(alloc: Global, text: &str) -> Result<LineFault, AllocError> {
    let text = format!(in alloc;
        "error: invalid value '{text}' for '--owner <UID:GID>': not two numbers from 0 to \
         4294967295 joined by a colon\n\nFor more information, try '--help'."
    )?;
    Ok(LineFault::Usage { text })
}

// The fault for more or fewer digests than images, in the form of `clap`.
fn miscounted(alloc: Global, given: usize, images: usize) -> Result<LineFault, AllocError> {
    let text = format!(in alloc;
        "error: one '--digest <DIGEST>' for each image is required: images: {images}, digests: \
         {given}\n\nFor more information, try '--help'."
    )?;
    Ok(LineFault::Usage { text })
}

// The fault for the device beside the file of another option, in the form of `clap`.
fn crossed(alloc: Global, name: &str) -> Result<LineFault, AllocError> {
    let text = format!(in alloc;
        "error: the argument '--device' cannot be used with '--{name} <FILE>'\n\n\
         For more information, try '--help'."
    )?;
    Ok(LineFault::Usage { text })
}

fn not_text(alloc: Global, error: &io::Error) -> LineFault {
    if error.kind() == io::ErrorKind::OutOfMemory {
        LineFault::Memory
    } else {
        usage(alloc, "error: a command line argument is not UTF-8")
    }
}

fn usage(alloc: Global, text: &str) -> LineFault {
    match String::from_str(alloc, text) {
        Ok(text) => LineFault::Usage { text },
        Err(_) => LineFault::Memory,
    }
}
