//! The files of a stream that a command line names: for requests, for replies and for balances.

ghost use Rattle.std.specs.Prelude.{◌≡◌, is_some, true, IfOk, IfErr};

use crate::faults::Fault;
use std::fs;
use std::fs::Files;

/// The file of requests, if one is named.
pub fn open_requests<R: Files>(rt: &R, path: Option<&str>) -> Result<Option<R::File>, Fault>
    ensures ok { IfOk result (λ file. is_some file ≡ is_some path.entry) }
    ensures err { IfErr result (λ fault.
        (fault ≡ Fault.RequestsFile) × (is_some path.entry ≡ true)) }
{
    let Some(path) = path else {
        return Ok(None);
    };
    match fs::open(rt, path) {
        Ok(file) => Ok(Some(file)),
        Err(_) => Err(Fault::RequestsFile),
    }
}

/// An empty file at the path, if one is named. If it cannot be created, the result is `fault`.
pub fn create_named<R: Files>(
    rt: &R,
    path: Option<&str>,
    fault: Fault,
) -> Result<Option<R::File>, Fault>
    ensures ok { IfOk result (λ file. is_some file ≡ is_some path.entry) }
    ensures err { IfErr result (λ told. (told ≡ fault) × (is_some path.entry ≡ true)) }
{
    let Some(path) = path else {
        return Ok(None);
    };
    match fs::create(rt, path) {
        Ok(file) => Ok(Some(file)),
        Err(_) => Err(fault),
    }
}
