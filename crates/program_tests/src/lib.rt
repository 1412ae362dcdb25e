//! The tests of the program for what no command line can cause.
//!
//! Clients of a socket that cannot be accepted, or are refused memory (`clients`), readers and
//! writers that fail (`failing`), each request for memory refused in turn (`memory`), also over an
//! image with extended attributes, in its file and under its digest (`attributes`), how many
//! workers and how large batches a line sets (`plans`), and `serve` by itself, with refused memory
//! and too few turns (`serving`). They share runs of the program and files of the test's own
//! (`program`). Real mounts and the cases over a device test what a mount does.
//!
//! The devices of `serve_device` are tested here, too, over readers and writers that misbehave: no
//! contract says how often these are called, nor which errors they return. `messages` is a source
//! over a reader that returns one complete message per read, `replies` a sink over a writer that
//! takes one complete reply per write.
#![tactic(auto)]

#[cfg(test)]
mod tests;
