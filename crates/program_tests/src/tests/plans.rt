//! The plan of a line: how many workers answer, and how many requests a batch has.

ghost use denote.Param.Send.{IsSync, IsSend};

use super::program::{file_path, status_of, written};
use std::alloc::{Allocator, Global};
use std::fs::{self, Files};
use std::io::{Read, Write};
use std::net::{Net, Shutdown, TcpListener, TcpStream};
use std::os::unix::fs::FileExt;
use std::os::unix::net::UnixStream;
use std::test::Fail;
use std::thread::{Threads, join};
use test_kit::long::{Long, image, stream};
use test_kit::refusing::Refusing;

/// How many requests for memory the program makes to answer a stream over the image at a path, with
/// this many workers and batches of this size; none if it fails.
fn requests_by<R: Files + Net + Threads + Sync>(
    rt: &R,
    global: Global,
    path: &str,
    stream: &[u8],
    plan: (&str, &str),
) -> Option<u64>
where
    R::File: FileExt + Send + Sync,
    R::Dir: Send,
{
    let memory = Refusing::new(global, 0);
    let (workers, batch) = plan;
    let words = ["serve", "--workers", workers, "--batch", batch, path];
    let mut output = Vec::new(global);
    let status = status_of(rt, global, &memory, &words, stream, &mut output, b"");
    (status == Some(0)).then_some(memory.requests())
}

/// A client that is connected to the socket at a path; it tries until a socket is there.
fn connected<R: Net>(rt: &R, socket: &str) -> Option<UnixStream> {
    for _ in 0..u64::MAX {
        if let Ok(client) = UnixStream::connect(rt, socket) {
            return Some(client);
        }
    }
    None
}

/// How many bytes a client of the socket at a path receives if it writes this stream.
fn answered<R: Net>(rt: &R, global: Global, socket: &str, stream: &[u8]) -> Option<usize> {
    let mut client = connected(rt, socket)?;
    let written = client.write_all(stream);
    let ended = written.and_then(|()| client.shutdown(Shutdown::Write));
    let mut replies = Vec::new(global);
    let read = ended.and_then(|()| client.read_to_end(&mut replies));
    read.is_ok().then_some(replies.len())
}

/// The status of the program that serves one session at a socket.
fn status_at<R: Files + Net + Threads + Sync, A: Allocator + Copy + Send + Sync>(
    rt: &R,
    global: Global,
    alloc: A,
    words: &[&str],
) -> Option<u8>
where
    R::File: FileExt + Send + Sync,
    R::Dir: Send,
{
    let mut output = Vec::new(global);
    status_of(rt, global, alloc, words, b"".as_slice(), &mut output, b"")
}

/// This status, and how many bytes the client of that session receives.
fn served_and_answered<R: Files + Net<Listener = TcpListener, Stream = TcpStream> + Threads + Sync>(
    rt: &R,
    global: Global,
    memory: &Refusing<Global>,
    words: &[&str],
    socket: &str,
    stream: &[u8],
) -> (Option<u8>, Option<usize>)
where
    R::File: FileExt + Send + Sync,
    R::Dir: Send,
{
    join(
        rt,
        move || -> Option<u8>
            requires { IsSync R.row × IsSend R.File.row × IsSend R.Dir.row }
        { status_at(rt, global, memory, words) },
        move || -> Option<usize>
            requires { IsSync R.row }
        { answered(rt, global, socket, stream) },
    )
}

/// The same number of requests for memory if a client of a socket writes the stream.
fn requests_at<R: Files + Net<Listener = TcpListener, Stream = TcpStream> + Threads + Sync>(
    rt: &R,
    global: Global,
    path: &str,
    socket: &str,
    stream: &[u8],
    plan: (&str, &str),
) -> Option<u64>
where
    R::File: FileExt + Send + Sync,
    R::Dir: Send,
{
    let memory = Refusing::new(global, 0);
    let (workers, batch) = plan;
    let words = [
        "socket",
        "--workers",
        workers,
        "--batch",
        batch,
        "--listen",
        socket,
        path,
    ];
    let (status, replies) = served_and_answered(rt, global, &memory, &words, socket, stream);
    (status == Some(0) && replies.is_some()).then_some(memory.requests())
}

/// How many requests for memory three plans make over a stream for the image at a path: one worker,
/// two with the largest batches, and two with the smallest; by `serve`, and at a socket.
fn requests_of_plans<R: Files + Net<Listener = TcpListener, Stream = TcpStream> + Threads + Sync>(
    rt: &R,
    global: Global,
    path: &str,
    socket: &str,
    stream: &[u8],
) -> [[u64; 3]; 2]
where
    R::File: FileExt + Send + Sync,
    R::Dir: Send,
{
    let plans = [("1", "1"), ("2", "256"), ("2", "1")];
    [
        plans.map(|plan| requests_by(rt, global, path, stream, plan).unwrap_or(0)),
        plans.map(|plan| requests_at(rt, global, path, socket, stream, plan).unwrap_or(0)),
    ]
}

/// The same over 120 pages of the directory of the image.
fn requests_of_pages<R: Files + Net<Listener = TcpListener, Stream = TcpStream> + Threads + Sync>(
    rt: &R,
    global: Global,
    path: &str,
    socket: &str,
) -> Option<[[u64; 3]; 2]>
where
    R::File: FileExt + Send + Sync,
    R::Dir: Send,
{
    let stream = stream(global, Long::Readdir, 120).ok()?;
    Some(requests_of_plans(rt, global, path, socket, &stream))
}

/// Whether one worker asks for less memory than two, and two in batches of 256 for less than in
/// batches of one.
fn have_their_plans(requests: [u64; 3]) -> bool {
    let [alone, even, small] = requests;
    0 < alone && alone < even && even.saturating_add(60) < small
}

/// For 120 pages of a directory, workers have a board and pieces, and each batch asks for memory of
/// its own: two batches, one for each of two workers, or 120. Which worker draws how many is left
/// to chance, and moves these numbers by some ten.
#[test]
fn a_line_has_its_plan(rt: HostRuntime) -> Result<(), Fail> {
    let path = written(&rt, "plans", &image(rt.alloc())?)?;
    let socket = file_path(&rt, "plans", "socket")?;
    let requests = requests_of_pages(&rt, rt.alloc(), path.as_str(), socket.as_str());
    drop(socket);
    fs::remove_file(&rt, path.as_str())?;
    drop(path);
    assert!(rt; requests.is_some_and(|of_both| of_both.iter().all(|it| have_their_plans(*it))));
    Ok(())
}
