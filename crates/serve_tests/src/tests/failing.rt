//! Devices that fail at each place in turn.

ghost use Rattle.std.specs.Prelude.{◌≡◌, true};

use node_reader::Table;
use serve_core::Stop;
use serve_test_kit::runs::{End, Run, Seen, WHOLE, run_over, sample_table};
use std::alloc::Global;
use std::test::Fail;
use std::thread::Threads;
use test_kit::script::{script, script_replies};

/// The plans that each test uses: workers, and the messages of a batch.
const PLANS: [(u32, u32); 3] = [(1, 1), (2, 3), (5, 1)];

/// The ends of the script's messages, and how many bytes the replies up to there have.
const ENDS: [(usize, usize); 12] = [
    (56, 80),
    (100, 224),
    (180, 1144),
    (228, 1144),
    (276, 1144),
    (356, 1160),
    (396, 1176),
    (436, 1195),
    (516, 1403),
    (556, 1499),
    (596, 1515),
    (652, 1531),
];

/// How many bytes the replies have to the complete messages in this many first bytes.
fn replies_to(given: usize) -> usize {
    let mut replies = 0;
    for (end, before) in ENDS {
        if end <= given {
            replies = before;
        }
    }
    replies
}

/// How a run ends; how many bytes of replies are put; how many writes and flushes are made, if
/// requested.
type Wanted = (End, usize, Option<u64>);

fn is_wanted(seen: Option<Seen>, wanted: Wanted) -> bool {
    let Some(seen) = seen else {
        return false;
    };
    let (end, put, writes) = wanted;
    seen.end == end && seen.put == Some(put) && writes.is_none_or(|writes| writes == seen.writes)
}

/// The script with its replies, over the sample image.
#[derive(Drop)]
struct Script {
    table: Table<Global>,
    stream: Vec<u8>,
    replies: Vec<u8>,
    ghost whole: { table.whole ≡ true },
}

impl Script {
    fn new<R: Threads + Sync>(rt: &R, global: Global) -> Option<Self> {
        Some(Self {
            stream: script(global).ok()?,
            replies: script_replies(global).ok()?,
            table: sample_table(rt, global)?,
        })
    }

    /// Whether a run by each plan has this result.
    fn ends<R: Threads + Sync>(&self, rt: &R, global: Global, row: Run, wanted: Wanted) -> bool {
        let streams = (self.stream.as_slice(), self.replies.as_slice());
        for plan in PLANS {
            let row = Run { plan, ..row };
            let seen = run_over(rt, global, global, &self.table, streams, row, None);
            if !is_wanted(seen, wanted) {
                return false;
            }
        }
        true
    }
}

/// The first byte at which a source fails and the script does not end as it should.
fn wrong_source<R: Threads + Sync>(rt: &R, global: Global, script: &Script) -> Option<usize> {
    for given in 0..=652 {
        let row = Run {
            given,
            piece: 7,
            breaks: true,
            ..WHOLE
        };
        let wanted = (Err(Stop::Read), replies_to(given), None);
        if !script.ends(rt, global, row, wanted) {
            return Some(given);
        }
    }
    None
}

#[test]
fn a_source_fails_at_each_byte(rt: HostRuntime) -> Result<(), Fail> {
    let script = Script::new(&rt, rt.alloc()).ok_or("the script")?;
    let wrong = wrong_source(&rt, rt.alloc(), &script);
    drop(script);
    assert_eq!(rt; wrong, None);
    Ok(())
}

/// The first size of a sink's room with which the script does not end as it should.
fn wrong_room<R: Threads + Sync>(rt: &R, global: Global, script: &Script) -> Option<usize> {
    for room in 0..=1531 {
        let row = Run {
            room,
            most: 5,
            ..WHOLE
        };
        let end = if room == 1531 {
            Ok((12, 1531))
        } else {
            Err(Stop::Write)
        };
        if !script.ends(rt, global, row, (end, room, None)) {
            return Some(room);
        }
    }
    None
}

/// All 1,531 bytes of the replies have room, or fewer.
#[test]
fn a_sink_fails_at_each_byte(rt: HostRuntime) -> Result<(), Fail> {
    let script = Script::new(&rt, rt.alloc()).ok_or("the script")?;
    let wrong = wrong_room(&rt, rt.alloc(), &script);
    drop(script);
    assert_eq!(rt; wrong, None);
    Ok(())
}

/// How many bytes of replies are written before each flush, if each message arrives by itself; and
/// that no flush follows.
const FLUSHES: [(u64, usize); 11] = [
    (0, 80),
    (1, 224),
    (2, 1144),
    (3, 1160),
    (4, 1176),
    (5, 1195),
    (6, 1403),
    (7, 1499),
    (8, 1515),
    (9, 1531),
    (10, 1531),
];

/// How the script ends and how many writes and flushes are made, if this many flushes succeed.
fn end_behind(flushes: u64) -> (End, u64) {
    if flushes == 10 {
        (Ok((12, 1531)), 20)
    } else {
        let writes = flushes.saturating_mul(2).saturating_add(2);
        (Err(Stop::Write), writes)
    }
}

/// The first number of flushes after which the script does not end as it should.
fn wrong_flush<R: Threads + Sync>(rt: &R, global: Global, script: &Script) -> Option<u64> {
    for (flushes, put) in FLUSHES {
        let row = Run {
            piece: 7,
            flushes,
            ..WHOLE
        };
        let (end, writes) = end_behind(flushes);
        if !script.ends(rt, global, row, (end, put, Some(writes))) {
            return Some(flushes);
        }
    }
    None
}

/// Each of ten flushes is the last, after a write, and then there is none.
#[test]
fn each_flush_fails_alone(rt: HostRuntime) -> Result<(), Fail> {
    let script = Script::new(&rt, rt.alloc()).ok_or("the script")?;
    let wrong = wrong_flush(&rt, rt.alloc(), &script);
    drop(script);
    assert_eq!(rt; wrong, None);
    Ok(())
}
