//! The command `socket`.

ghost use Rattle.std.specs.Prelude.{◌≡◌, ◌⊎◌, ℕ, List, is_some, true, IfOk, IfErr};
ghost use Rattle.strata_words.specs.CommandLine.{IsInLimits};
ghost use Rattle.fuse_answer.specs.Puts.{sourced_by};
ghost use Rattle.strata.specs.Ending.{EndsAtSocket, IsNotBound};
ghost use Rattle.strata.specs.Faults.{IsOfImages};
ghost use Rattle.strata_images.specs.Images.{AreNotStacked, ArePrepared, HaveSources, are_whole, bytes_of, profile_of, sources_of};

use crate::clients::Service;
use crate::faults::Fault;
use crate::host::Host;
use crate::settings::{first_of, plan_of};
use devices::{Contents, Listening};
use serve_core::{Served, SharedAllocator};
use std::fs::{self, Files};
use std::io::Write;
use std::net::Net;
use std::os::unix::fs::FileExt;
use std::os::unix::net::UnixListener;
use std::thread::Threads;
use strata_images::{LineImages, prepare};
use strata_words::Line;

/// Checks and stacks the images, binds a socket at the line's path, serves its sessions over the
/// stack and returns their status. Finally it removes the socket's file. Faults of sessions are
/// reported as they occur.
pub fn listen<R: Files + Net + Threads + Sync, A: SharedAllocator, E: Write>(
    rt: &R,
    alloc: A,
    line: &Line<'_>,
    images: LineImages<R::File, A>,
    faults: &mut E,
) -> Result<u8, Fault>
where
    R::File: FileExt + Sync,
    requires limits { IsInLimits line.now }
    requires socket { is_some line.now.listen ≡ true }
    requires images { HaveSources line.now (are_whole images.held) (bytes_of images.held)
        (sources_of images.files) }
    ensures ended { IfOk result (λ status. EndsAtSocket A line.now (bytes_of images.held) status) }
    ensures stopped { IfErr result (λ fault.
        IsOfImages (AreNotStacked (profile_of line.now) (bytes_of images.held)) fault
        ⊎ IsNotBound line.now (bytes_of images.held) fault) }
{
    let path = line.listen.unwrap();
    let (table, files) = prepare(rt, alloc, line, images)?;
    let served = Served {
        table: &table,
        files: files.as_slice(),
    };
    listen_at(rt, alloc, line, served, path, faults)
}

// Binds a socket at a path, serves its sessions, and returns their status. Finally it removes the
// socket's file.
fn listen_at<R: Files + Net + Threads + Sync, A: SharedAllocator, D: Contents + Sync, E: Write>(
    rt: &R,
    alloc: A,
    line: &Line<'_>,
    served: Served<'_, A, D>,
    path: &str,
    faults: &mut E,
) -> Result<u8, Fault>
    requires limits { IsInLimits line.now }
    ensures ended { (images : List (List ℕ)) →
        ArePrepared line.now images (sourced_by D.source served.entry) →
        IfOk result (λ status. EndsAtSocket A line.now images status) }
    ensures stopped { (images : List (List ℕ)) →
        ArePrepared line.now images (sourced_by D.source served.entry) →
        IfErr result (λ fault. IsNotBound line.now images fault) }
{
    let listener = bind(rt, path)?;
    let service = Service {
        host: Host { rt, alloc },
        served,
        first: first_of(line),
        plan: plan_of(line),
    };
    let mut clients = Listening::new(&listener);
    let status = service.sessions_from(&mut clients, line.sessions, faults);
    let _ = fs::remove_file(rt, path);
    Ok(status)
}

// A socket that listens at this path, where no file exists. An empty path would make a socket that
// no client finds.
fn bind<R: Files + Net>(rt: &R, path: &str) -> Result<UnixListener, Fault>
    ensures { IfErr result (λ fault. fault ≡ Fault.Bind) }
{
    if path.is_empty() {
        return Err(Fault::Bind);
    }
    match UnixListener::bind(rt, path) {
        Ok(listener) => Ok(listener),
        Err(_) => Err(Fault::Bind),
    }
}
