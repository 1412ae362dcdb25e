//! Jobs in batches.

ghost use Rattle.std.specs.Prelude.{◌≡◌, ◌*◌, ◌≤◌, length};
ghost use Rattle.serve_loop.specs.declared.limits.TheConstants.{MAX_ROUND_MESSAGES};
ghost use Rattle.reply_rounds.specs.Batches.{batch_of, batches};

use fuse_wire::Request;
use reply_model::Session;

/// How many batches of this size this many jobs have.
pub fn count_batches(jobs: usize, size: u32) -> u32
    requires few { jobs ≤ MAX_ROUND_MESSAGES }
    requires some { 1 ≤ size }
    ensures { result ≡ batches size jobs }
{
    let size = size as usize;
    ((jobs + size - 1) / size) as u32
}

/// The batch with this number.
pub fn batch<'a, 'b>(
    jobs: &'a [(Session, Request<'b>)],
    size: u32,
    number: u32,
) -> &'a [(Session, Request<'b>)]
    requires { number * size ≤ length jobs.now }
    ensures jobs { result.now ≡ batch_of size number jobs.now }
    ensures few { length result.now ≤ size }
{
    let rest = &jobs[number as usize * size as usize..];
    &rest[..rest.len().min(size as usize)]
}
