//! Faults of the program, each with a line for standard error and an exit status.

ghost use Rattle.std.specs.Prelude.{◌≡◌, ◌++◌, ◌∷◌, [], OnOk, IfSome};
ghost use Rattle.std.specs.Io.KnownBytes.{Appends};
ghost use Rattle.devices.specs.Pushing.{GainsFront};
ghost use Rattle.strata.specs.Faults.{status_of, stop_status};
ghost use Rattle.strata.specs.Texts.{fault_text, stop_text};

use arrayvec::ArrayString;
use devices::Failed;
use serve_core::StreamFault;
use std::alloc::AllocError;
use std::fmt::Write as _;
use std::io::Write;
use std::{fmt, io};
use strata_images::{ImagesFault, write_bytes};
use strata_words::LineFault;

/// How many bytes a line has room for before it is written: as many as a pipe takes at once.
const LINE: usize = 4096;

/// Why the program stopped. Its `Display` is the line for standard error.
#[derive(Drop)]
pub enum Fault {
    /// The arguments are no command of the program, or ask for help.
    Usage { text: String },
    /// The file of requests cannot be opened.
    RequestsFile,
    /// The file of replies cannot be created.
    RepliesFile,
    /// The file of balances cannot be created.
    BalancesFile,
    /// The socket cannot be bound.
    Bind,
    /// No client can be accepted at the socket.
    Accept,
    /// The images are not used, or what should be printed about them is not.
    Images(ImagesFault),
    /// This session at a socket, counted from 1, was not served to its end.
    InSession { session: u32, stop: StreamFault },
    /// A stream was not served to its end, a write of the program's own lines failed, or memory ran
    /// out.
    Stopped(StreamFault),
}

impl Fault {
    /// The exit status of the program for it.
    pub fn status(&self) -> u8
        ensures { result ≡ status_of self.now }
    {
        match self {
            Fault::Usage { .. } => 2,
            Fault::RequestsFile | Fault::RepliesFile | Fault::BalancesFile => 1,
            Fault::Bind | Fault::Accept => 1,
            Fault::Images(fault) => fault.status(),
            Fault::InSession { stop, .. } => stop_status(*stop),
            Fault::Stopped(stop) => stop_status(*stop),
        }
    }

    /// Writes its line, and flushes. A line is written in one write, so no other program's text
    /// gets inside it; longer text of the command line in two. An error is the writer's, which then
    /// has at most a prefix of the line.
    pub fn tell<W: Write>(&self, writer: &mut W) -> io::Result<()>
        ensures whole { OnOk result (Appends (W.contents writer.old) (W.contents writer.new)
            (fault_text self.now ++ 10 ∷ [])) }
        ensures front { GainsFront (fault_text self.now ++ 10 ∷ [])
            (W.contents writer.old) (W.contents writer.new) }
    {
        self.write_line(writer)?;
        writer.flush()
    }

    /// Writes its line, or as much of it as the writer takes, and returns the exit status.
    pub fn end<W: Write>(&self, writer: &mut W) -> u8
        ensures status { result ≡ status_of self.now }
        ensures told { GainsFront (fault_text self.now ++ 10 ∷ [])
            (W.contents writer.old) (W.contents writer.new) }
    {
        let _ = self.tell(writer);
        self.status()
    }

    fn write_line<W: Write>(&self, writer: &mut W) -> io::Result<()>
        ensures whole { OnOk result (Appends (W.contents writer.old) (W.contents writer.new)
            (fault_text self.now ++ 10 ∷ [])) }
        ensures front { GainsFront (fault_text self.now ++ 10 ∷ [])
            (W.contents writer.old) (W.contents writer.new) }
    {
        match (self.line(), self) {
            (Some(line), _) => write_bytes(writer, line.as_str().as_bytes()),
            (None, Fault::Usage { text }) => write_long(writer, text.as_bytes()),
            (None, _) => Err(io::Error::from(io::ErrorKind::InvalidData)),
        }
    }

    // Its line with its end, if there is room for it: only the text of the command line may be
    // longer.
    fn line(&self) -> Option<ArrayString<LINE>>
        ensures { IfSome result (λ line. line.bytes ≡ fault_text self.now ++ 10 ∷ []) }
    {
        let mut line = ArrayString::new();
        match writeln!(line, "{self}") {
            Ok(()) => Some(line),
            Err(_) => None,
        }
    }
}

fn write_long<W: Write>(writer: &mut W, text: &[u8]) -> io::Result<()>
    ensures whole { OnOk result (Appends (W.contents writer.old) (W.contents writer.new)
        (text.now ++ 10 ∷ [])) }
    ensures front { GainsFront (text.now ++ 10 ∷ [])
        (W.contents writer.old) (W.contents writer.new) }
{
    write_bytes(writer, text)?;
    write_bytes(writer, b"\n")
}

fn stop_status(stop: StreamFault) -> u8
    ensures { result ≡ stop_status stop }
{
    match stop {
        StreamFault::Read | StreamFault::Write => 1,
        StreamFault::BadLength { .. } | StreamFault::CutOff { .. } | StreamFault::Turns => 4,
        StreamFault::Memory => 5,
    }
}

impl fmt::Display for Fault {
    ghost use Rattle.std.specs.Prelude.{Some};

    ghost output = { λ fault. Some (fault_text fault) };

    fn fmt<W: fmt::Write>(&self, f: &mut fmt::Formatter<W>) -> fmt::Result {
        match self {
            Fault::Usage { text } => write!(f, "{text}"),
            Fault::RequestsFile => write!(f, "requests: cannot be opened"),
            Fault::RepliesFile => write!(f, "replies: cannot be created"),
            Fault::BalancesFile => write!(f, "balances: cannot be created"),
            Fault::Bind => write!(f, "socket: cannot be bound"),
            Fault::Accept => write!(f, "socket: cannot accept"),
            Fault::Images(fault) => write!(f, "{fault}"),
            Fault::InSession { session, stop } => {
                let why = Why { stop: *stop };
                write!(f, "session {session}: {why}")
            }
            Fault::Stopped(stop) => {
                let why = Why { stop: *stop };
                write!(f, "{why}")
            }
        }
    }
}

// Why a stream stopped. Its `Display` is the line for it.
#[derive(Drop)]
struct Why {
    stop: StreamFault,
}

impl fmt::Display for Why {
    ghost use Rattle.std.specs.Prelude.{Some};

    ghost output = { λ why. Some (stop_text why.stop) };

    fn fmt<W: fmt::Write>(&self, f: &mut fmt::Formatter<W>) -> fmt::Result {
        match self.stop {
            StreamFault::BadLength { at, len } => write!(f, "request at {at}: bad length {len}"),
            StreamFault::CutOff { at } => write!(f, "request at {at}: cut off"),
            StreamFault::Read => write!(f, "read fault"),
            StreamFault::Write => write!(f, "write fault"),
            StreamFault::Turns => write!(f, "turns used up"),
            StreamFault::Memory => write!(f, "out of memory"),
        }
    }
}

impl From<LineFault> for Fault {
    ghost use Rattle.strata.specs.Faults.{line_told_of};

    ghost from_gives = { λ line fault. fault ≡ line_told_of line };

    fn from(fault: LineFault) -> Fault {
        match fault {
            LineFault::Usage { text } => Fault::Usage { text },
            LineFault::Memory => Fault::Stopped(StreamFault::Memory),
        }
    }
}

impl From<ImagesFault> for Fault {
    ghost use Rattle.strata.specs.declared.faults.Fault.TheVariants.{Images};

    ghost from_gives = { λ images fault. fault ≡ Images images };

    fn from(fault: ImagesFault) -> Fault {
        Fault::Images(fault)
    }
}

impl From<StreamFault> for Fault {
    ghost use Rattle.strata.specs.declared.faults.Fault.TheVariants.{Stopped};

    ghost from_gives = { λ stop fault. fault ≡ Stopped stop };

    fn from(stop: StreamFault) -> Fault {
        Fault::Stopped(stop)
    }
}

impl From<Failed> for Fault {
    ghost use Rattle.strata.specs.Faults.{write_failed};

    ghost from_gives = { λ _ fault. fault ≡ write_failed };

    fn from(_failed: Failed) -> Fault {
        Fault::Stopped(StreamFault::Write)
    }
}

impl From<AllocError> for Fault {
    ghost use Rattle.strata.specs.Faults.{out_of_memory};

    ghost from_gives = { λ _ fault. fault ≡ out_of_memory };

    fn from(_error: AllocError) -> Fault {
        Fault::Stopped(StreamFault::Memory)
    }
}
