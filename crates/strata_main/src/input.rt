//! Refuses a standard input that cannot hold requests. No contract covers this: it depends on what
//! the system reports.

use std::alloc::Global;
use std::fs;
use std::fs::Files;
use std::os::unix::fs::{FileTypeExt, MetadataExt};
use strata::Fault;
use strata_words::{Line, NoLine, Verb};

/// Standard input, in Linux's directory of a process's open files.
const INPUT: &str = "/proc/self/fd/0";

/// The number of /dev/fuse: major 10, minor 229 (Linux, Documentation/admin-guide/devices.txt).
const FUSE: u64 = 10 << 8 | 229;

const TERMINAL: &str = "error: requests are read from standard input, which is a terminal\n\n\
    To mount, see strata-mount(1).";

const NO_DEVICE: &str = "error: '--device' needs an open /dev/fuse as standard input\n\n\
    To mount, see strata-mount(1).";

/// The fault of arguments that read requests from a terminal, or that have `--device` if standard
/// input is neither an open `/dev/fuse` nor a socket, which may replace one. `None` if the system
/// cannot tell, or if the arguments have no line.
pub fn unfit_input<R: Files>(
    rt: &R,
    alloc: Global,
    read: &Result<Line<'_>, NoLine>,
    is_terminal: bool,
) -> Option<Fault> {
    let Ok(line) = read else {
        return None;
    };
    let text = unfit_text(rt, line, is_terminal)?;
    match String::from_str(alloc, text) {
        Ok(text) => Some(Fault::Usage { text }),
        Err(refused) => Some(Fault::from(refused)),
    }
}

fn unfit_text<R: Files>(rt: &R, line: &Line<'_>, is_terminal: bool) -> Option<&'static str> {
    if line.device {
        if may_be_device(rt) {
            None
        } else {
            Some(NO_DEVICE)
        }
    } else if is_terminal && line.verb == Verb::Serve && line.requests.is_none() {
        Some(TERMINAL)
    } else {
        None
    }
}

// Whether standard input may be a FUSE device: it is one, or a socket, or the system cannot tell.
fn may_be_device<R: Files>(rt: &R) -> bool {
    match fs::metadata(rt, INPUT) {
        Ok(input) => {
            let kind = input.file_type();
            kind.is_socket() || kind.is_char_device() && input.rdev() == FUSE
        }
        Err(_) => true,
    }
}
