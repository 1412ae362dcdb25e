//! Sessions of clients at a socket.
//!
//! A client writes all its requests before the sessions begin and reads after them: a socket
//! buffers that much.

use serve_core::{FreePass, Plan, prepare};
use std::alloc::{Allocator, Global};
use std::fs::Files;
use std::io::{self, Read, Write};
use std::net::{Net, Shutdown};
use std::os::unix::net::{UnixListener, UnixStream};
use std::test::Fail;
use std::thread::Threads;
use strata::sessions;
use test_kit::memories::{Memories, refuse_in_turn};
use test_kit::sample_images::samples;
use test_kit::script::{script, script_replies};

/// A client that has written the first bytes of the script, and writes no more.
fn client<R: Net>(rt: &R, global: Global, to: &UnixListener, given: usize) -> Option<UnixStream> {
    let mut client = UnixStream::connect_addr(rt, &to.local_addr().ok()?).ok()?;
    let script = script(global).ok()?;
    let written = client.write_all(&script[..given.min(script.len())]);
    drop(script);
    let ended = written.and_then(|()| client.shutdown(Shutdown::Write));
    ended.is_ok().then_some(client)
}

/// How many bytes the client reads to the end, if they begin the script's replies.
fn read_of(global: Global, mut client: UnixStream) -> Option<usize> {
    let replies = script_replies(global).ok()?;
    let mut read = Vec::new(global);
    let ended = client.read_to_end(&mut read);
    (ended.is_ok() && replies.starts_with(&read)).then_some(read.len())
}

/// Whether this many sessions over the sample image end with this status and print these lines. The
/// table is in memory of `plain`.
fn are_served<R: Threads + Sync, A: Allocator + Copy + Send + Sync>(
    rt: &R,
    global: Global,
    plain: A,
    alloc: A,
    listener: &UnixListener,
    count: u32,
    told: (u8, &[u8]),
) -> Option<bool> {
    let plan = Plan::new(2, 3)?;
    let table = prepare(rt, plain, samples(plain, 1)?, &FreePass).ok()?;
    let mut lines = Vec::new(global);
    let status = sessions(rt, alloc, &table, listener, count, plan, &mut lines);
    drop(table);
    Some(status == told.0 && lines.as_slice() == told.1)
}

/// A listener under a name that the system chooses.
fn listener<R: Files + Net>(rt: &R) -> io::Result<UnixListener> {
    UnixListener::bind(rt, "")
}

#[test]
fn no_session_follows_where_no_client_is_accepted(rt: HostRuntime) -> Result<(), Fail> {
    let global = rt.alloc();
    let listener = listener(&rt)?;
    // If no client waits, such a listener fails.
    listener.set_nonblocking(true)?;
    let only = client(&rt, global, &listener, 120).ok_or("a client")?;
    let lines = b"session 1: request at 100: cut off\nsocket: cannot accept\n";
    let told = (1, lines.as_slice());
    let are_served = are_served(&rt, global, global, global, &listener, 3, told);
    assert!(rt; are_served == Some(true) && read_of(global, only) == Some(224));
    Ok(())
}

/// What two sessions print if the request for memory with this number is refused; each session
/// makes two, for its replies and for the buffer.
fn told_at(refuse_at: u64) -> (u8, &'static [u8]) {
    match refuse_at {
        1..=2 => (5, b"session 1: out of memory\n"),
        3..=4 => (5, b"session 2: out of memory\n"),
        _ => (0, b""),
    }
}

/// Whether two sessions end as they should if one request for memory is refused: that session with
/// its line and status, and the other served.
fn is_refused<R: Files + Net + Threads + Sync>(rt: &R, memories: &Memories) -> Option<bool> {
    let (global, refuse_at) = (memories.global, memories.refuse_at);
    let listener = listener(rt).ok()?;
    let first = client(rt, global, &listener, 652)?;
    let second = client(rt, global, &listener, 652)?;
    let told = told_at(refuse_at);
    let (plain, refusing) = (&memories.plain, &memories.refusing);
    let are_served = are_served(rt, global, plain, refusing, &listener, 2, told);
    drop(listener);
    let (first, second) = (read_of(global, first), read_of(global, second));
    let is_first_whole = refuse_at <= 2 || first == Some(1531);
    let is_second_whole = (3 <= refuse_at && refuse_at <= 4) || second == Some(1531);
    Some(are_served == Some(true) && is_first_whole && is_second_whole)
}

#[test]
fn refused_memory_ends_its_session(rt: HostRuntime) {
    let requests = refuse_in_turn(rt.alloc(), |memories| {
        is_refused(&rt, memories) == Some(true)
    });
    assert_eq!(rt; requests, Ok(4));
}
