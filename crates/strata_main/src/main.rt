//! The program `strata`, with the process's own arguments and streams.
#![tactic(auto)]

ghost use Rattle.std.specs.Prelude.{IfOk};
ghost use Rattle.strata_words.specs.CommandLine.{IsInLimits, NamesSocket};

mod input;

use input::unfit_input;
use std::alloc::{Allocator, Global};
use std::convert::AsStr;
use std::fs;
use std::fs::Files;
use std::io::IsTerminal;
use std::process::ExitCode;
use strata::{Fault, Host};
use strata_words::{Line, NoLine, line, words};

/// Freed blocks of up to this size are kept for later allocations.
const KEPT: usize = 0x40_0000;

// Allocates a block and frees it untouched. The C library returns each freed block of 128 KiB and
// more to the kernel, which then clears new pages for the next one. After a larger block is freed,
// it keeps blocks up to that size. If the block is refused, nothing is lost.
fn keep_freed_blocks<A: Allocator>(alloc: A) {
    let block: Result<Vec<u8, A>, _> = Vec::with_capacity(alloc, KEPT);
    drop(block);
}

// Opens an empty file three times, to be held while the program runs. The system gives the next
// file the lowest free number, so no file of the command line takes that of a closed standard
// stream, which reads as empty and fails on write.
fn stand_ins<R: Files>(rt: &R) -> [Option<R::File>; 3] {
    [stand_in(rt), stand_in(rt), stand_in(rt)]
}

fn stand_in<R: Files>(rt: &R) -> Option<R::File> {
    fs::open(rt, "/dev/null").ok()
}

// Reads the arguments. It is no part of `main`, which would hold the room on the stack that this
// takes for as long as the program runs.
#[inline(never)]
fn line_of<'a, S: AsStr>(alloc: Global, words: &'a [S]) -> Result<Line<'a>, NoLine>
    ensures limits { IfOk result (λ line. IsInLimits line) }
    ensures socket { IfOk result (λ line. NamesSocket line) }
{
    line(alloc, words)
}

fn main(rt: HostRuntime) -> ExitCode {
    let _held = stand_ins(&rt);
    let alloc = rt.alloc();
    keep_freed_blocks(alloc);
    let mut faults = rt.stderr();
    let input = rt.stdin();
    let host = Host { rt: &rt, alloc };
    let status = match words(&rt) {
        Ok(words) => {
            let read = line_of(alloc, words.as_slice());
            match unfit_input(&rt, alloc, &read, input.is_terminal()) {
                Some(fault) => fault.end(&mut faults),
                None => host
                    .command_as_read(read, input, rt.stdout(), &mut faults)
                    .status,
            }
        }
        Err(fault) => Fault::from(fault).end(&mut faults),
    };
    ExitCode::from(status)
}
