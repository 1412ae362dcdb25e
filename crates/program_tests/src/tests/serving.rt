//! `serve` over images, by the usual rules and in a usual session.

use devices::{Spout, Tap};
use serve_core::{Counted, FreePass, Plan, Session, Stop, Terms, serve};
use std::thread::Threads;
use test_kit::memories::{Memories, refuse_in_turn};
use test_kit::sample_images::samples;
use test_kit::script::{script, script_replies};

/// How many messages and bytes of replies there were, or why it stopped; and how many bytes were
/// written.
type Ended = (Result<(u64, u128), Stop>, usize);

/// How many messages and bytes of replies a stream over the sample image has, in this many pulls,
/// or why it stops.
fn served<R: Threads + Sync>(
    rt: &R,
    memories: &Memories,
    turns: u32,
    stream: &[u8],
    output: &mut Vec<u8>,
) -> Option<Result<(u64, u128), Stop>> {
    let plan = Plan::new(2, 3)?;
    let images = samples(&memories.plain, 1)?;
    let terms = Terms {
        first: Session::Fresh,
        plan,
        turns: u64::from(turns),
        counted: Counted::AllNodes,
        gate: &FreePass,
    };
    let (mut tap, mut spout) = (Tap::new(stream), Spout::new(output));
    match serve(rt, &memories.refusing, images, &mut tap, &mut spout, &terms) {
        Ok(done) => Some(Ok((done.messages, done.written))),
        Err(stop) => Some(Err(stop)),
    }
}

/// How the script over the sample image ends in this many pulls, if the written bytes are a prefix
/// of the replies.
fn end_of<R: Threads + Sync>(rt: &R, memories: &Memories, turns: u32) -> Option<Ended> {
    let stream = script(memories.global).ok()?;
    let mut output = Vec::new(memories.global);
    let end = served(rt, memories, turns, &stream, &mut output)?;
    drop(stream);
    let replies = script_replies(memories.global).ok()?;
    replies.starts_with(&output).then_some((end, output.len()))
}

#[test]
fn a_script_is_served_over_an_image(rt: HostRuntime) {
    let requests = refuse_in_turn(rt.alloc(), |memories| {
        let seen = end_of(&rt, memories, 2);
        if memories.refusing.refused() {
            matches!(seen, Some((Err(Stop::Memory), _)))
        } else {
            seen == Some((Ok((12, 1531)), 1531))
        }
    });
    assert!(rt; matches!(requests, Ok(21..)), "{requests:?}");
}

#[test]
fn too_few_turns_are_told(rt: HostRuntime) {
    let memories = Memories::new(rt.alloc(), 0);
    for (turns, put) in [(0, 0), (1, 1531)] {
        let seen = end_of(&rt, &memories, turns);
        assert!(rt; seen == Some((Err(Stop::Turns), put)), "{turns}");
    }
}
