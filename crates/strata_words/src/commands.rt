//! The commands of the program with their options and arguments, for `clap`.
//!
//! Functions that add a command take and return the program as a `Result`, so refused memory is
//! handled once, at the end.

ghost use Rattle.std.specs.Prelude.{◌≡◌, false, map, true};
ghost use Rattle.clap.specs.Simple.{App, with_subcommand};
ghost use Rattle.clap.specs.Words.{rule_of};
ghost use Rattle.strata_words.specs.CommandLine.{command_with, images_command, program, rule_for};
ghost use Rattle.strata_words.specs.CommandLine.{IsApp, serve_command, socket_command};

use crate::version::VERSION;
use clap::{Arg, ArgAction, Command};
use std::alloc::{AllocError, Global};

/// An option, or the arguments at the end of a command, with its text in the help.
#[derive(Clone, Copy)]
pub(crate) struct Argument {
    pub name: &'static str,
    pub form: Form,
    pub help: &'static str,
}

/// How an argument is given, with the name of its value in the help.
#[derive(Clone, Copy)]
pub(crate) enum Form {
    /// An option without a value.
    Flag,
    /// An option with one value.
    Value(&'static str),
    /// A required option with one value.
    WantedValue(&'static str),
    /// An option with one value that may be repeated.
    Values(&'static str),
    /// One or more arguments.
    Words(&'static str),
}

/// The page about mounting.
pub(crate) const MOUNTING: &str = "To mount, see strata-mount(1).";

const WORKERS: Argument = Argument {
    name: "workers",
    form: Form::Value("N"),
    help: "Use at most N threads for long\nreplies, 1 to 64 [default: 4]",
};

const BATCH: Argument = Argument {
    name: "batch",
    form: Form::Value("N"),
    help: "Take at most N requests into a\nbatch, 1 to 256 [default: 16]",
};

const REQUESTS: Argument = Argument {
    name: "requests",
    form: Form::Value("FILE"),
    help: "Read requests from FILE instead of\nstandard input",
};

const REPLIES: Argument = Argument {
    name: "replies",
    form: Form::Value("FILE"),
    help: "Write replies to FILE instead of\nstandard output",
};

const BALANCES: Argument = Argument {
    name: "balances",
    form: Form::Value("FILE"),
    help: "Write the lookups that the client\nstill holds to FILE at the end",
};

const DEVICE: Argument = Argument {
    name: "device",
    form: Form::Flag,
    help: "Serve an open /dev/fuse, which is\nstandard input and output",
};

const READERS: Argument = Argument {
    name: "readers",
    form: Form::Value("N"),
    help: "Read the device with N threads,\n1 to 64 [default: 1]",
};

const LISTEN: Argument = Argument {
    name: "listen",
    form: Form::WantedValue("PATH"),
    help: "Create the socket at PATH",
};

const SESSIONS: Argument = Argument {
    name: "sessions",
    form: Form::Value("N"),
    help: "Serve N sessions, one after\nanother, 1 to 65535 [default: 1]",
};

const LASTING: Argument = Argument {
    name: "lasting",
    form: Form::Flag,
    help: "Let the client cache everything,\nsince the tree never changes",
};

const STRICT: Argument = Argument {
    name: "strict",
    form: Form::Flag,
    help: "Verify every header's checksum, too",
};

const ATTRIBUTES: Argument = Argument {
    name: "attributes",
    form: Form::Flag,
    help: "Read and show owners, modes and\ntimes from attribute trailers",
};

const AS_MOUNTED: Argument = Argument {
    name: "as-mounted",
    form: Form::Flag,
    help: "Check as a mount does: at most 128\nimages, with --attributes",
};

const WHOLE: Argument = Argument {
    name: "whole",
    form: Form::Flag,
    help: "Read images in full into memory at\nstartup",
};

const IN_FILES: Argument = Argument {
    name: "in-files",
    form: Form::Flag,
    help: "Leave small images in files, too",
};

const DIGEST: Argument = Argument {
    name: "digest",
    form: Form::Values("DIGEST"),
    help: "Accept only the image with this\nfs-verity digest; once for each\nIMAGE, '-' for any",
};

const OWNER: Argument = Argument {
    name: "owner",
    form: Form::Value("UID:GID"),
    help: "Set the owner of files that no\ntrailer describes [default: 0:0]",
};

const IMAGE: Argument = Argument {
    name: "image",
    form: Form::Words("IMAGE"),
    help: "Files of romfs images, lowest layer first",
};

/// The program, with its commands.
pub(crate) fn program<'a>(alloc: Global) -> Result<Command<'a>, AllocError>
    ensures { IsApp result program }
{
    let program = Command::new(alloc, "strata")
        .no_binary_name(true)
        .bin_name("strata")?
        .about("Stacks romfs images and serves the tree over FUSE")
        .after_help(MOUNTING)
        .version(VERSION)
        .disable_help_subcommand(true)
        .subcommand_required(true);
    let program = with_command(Ok(program), serve(alloc));
    let program = with_command(program, socket(alloc));
    let program = with_command(
        program,
        over_images(alloc, "check", "Check images and print their sizes"),
    );
    with_command(
        program,
        over_images(
            alloc,
            "list",
            "Print the visible paths of the stacked images",
        ),
    )
}

// Adds a command to the program.
fn with_command<'a>(
    program: Result<Command<'a>, AllocError>,
    command: Result<Command<'a>, AllocError>,
) -> Result<Command<'a>, AllocError>
    ensures { (a s : App) → IsApp program.entry a → IsApp command.entry s → s.top.is_plain ≡ true
        → IsApp result (with_subcommand a s.top) }
{
    program?.subcommand(command?)
}

fn serve<'a>(alloc: Global) -> Result<Command<'a>, AllocError>
    ensures { IsApp result serve_command }
{
    command_with(
        alloc,
        "serve",
        "Answer FUSE requests over the stacked images",
        &[
            WORKERS, BATCH, REQUESTS, REPLIES, BALANCES, DEVICE, READERS, LASTING, OWNER, IN_FILES,
            STRICT, ATTRIBUTES, WHOLE, DIGEST, IMAGE,
        ],
    )
}

fn socket<'a>(alloc: Global) -> Result<Command<'a>, AllocError>
    ensures { IsApp result socket_command }
{
    command_with(
        alloc,
        "socket",
        "Answer the clients of a Unix socket in turn",
        &[
            WORKERS, BATCH, LISTEN, SESSIONS, LASTING, OWNER, IN_FILES, STRICT, ATTRIBUTES, WHOLE,
            DIGEST, IMAGE,
        ],
    )
}

// A command that takes only images.
fn over_images<'a>(alloc: Global, name: &'a str, about: &'a str) -> Result<Command<'a>, AllocError>
    ensures { IsApp result (images_command name.entry.now) }
{
    command_with(
        alloc,
        name,
        about,
        &[AS_MOUNTED, STRICT, ATTRIBUTES, WHOLE, DIGEST, IMAGE],
    )
}

// The command with this name and these arguments.
fn command_with<'a>(
    alloc: Global,
    name: &'a str,
    about: &'a str,
    arguments: &[Argument],
) -> Result<Command<'a>, AllocError>
    ensures { IsApp result (command_with name.entry.now (map rule_for arguments.now)) }
{
    let mut command = Command::new(alloc, name).about(about);
    for argument in arguments {
        command = command.arg(arg_of(alloc, *argument))?;
    }
    Ok(command)
}

// The argument, as `clap` builds it.
fn arg_of<'a>(alloc: Global, argument: Argument) -> Arg<'a>
    ensures rule { rule_of result ≡ rule_for argument }
    ensures local { result.global ≡ false }
{
    let arg = Arg::new(alloc, argument.name).help(argument.help);
    match argument.form {
        Form::Flag => arg.long(argument.name).action(ArgAction::SetTrue),
        Form::Value(value) => arg.long(argument.name).value_name(value),
        Form::WantedValue(value) => arg.long(argument.name).value_name(value).required(true),
        Form::Values(value) => arg
            .long(argument.name)
            .value_name(value)
            .action(ArgAction::Append),
        Form::Words(value) => arg
            .value_name(value)
            .required(true)
            .num_args(1..)
            .action(ArgAction::Append),
    }
}
