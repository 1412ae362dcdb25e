//! The command line of the program `strata`, read by `clap`.
//!
//! [`line`] turns the arguments after the program's name into a [`Line`]: what to do, with which
//! images, files and numbers. Its contract uses `clap`'s own definition of a command's arguments,
//! for the program's commands in `specs/CommandLine.antt`, and the ranges of the numbers:
//! arguments are refused only if they are no command or have a number out of range. They may also
//! ask for the [`version`]. `line_laws` says that arguments have at most one line, and
//! `line_examples` holds worked command lines.
#![tactic(auto)]

mod commands;
mod digests;
pub mod line_examples;
pub mod line_laws;
mod numbers;
mod options;
mod parse;
pub mod version;

pub use options::{Line, LineFault, NoLine, Verb};
pub use parse::{line, words};
