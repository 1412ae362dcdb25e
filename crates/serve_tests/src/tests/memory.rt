//! Each request for memory of a call is refused in turn.

use romfs_format::Profile;
use serve_core::{Stop, prepare};
use serve_test_kit::runs::{Run, Seen, Stream, WHOLE, run_of, serve_of};
use stack_core::FreePass;
use std::alloc::{Allocator, Global};
use std::test::Fail;
use std::thread::Threads;
use test_kit::memories::{Memories, refuse_in_turn};
use test_kit::refusing::Refusing;
use test_kit::sample_images::samples;

#[derive(Clone, Copy)]
enum Call {
    Prepare,
    /// Two images, of which this one is broken.
    PrepareBroken(u16),
    Run,
    /// With this many requests for memory to prepare the image, by a plan.
    Serve(u64, (u32, u32)),
}

/// How many nodes images have after preparing.
fn nodes_of<R: Threads + Sync, A: Allocator + Copy + Send + Sync>(
    rt: &R,
    alloc: A,
    images: Vec<Vec<u8, A>, A>,
) -> Result<u64, Stop> {
    let table = prepare(rt, alloc, images, &FreePass)?;
    let nodes = table.len();
    drop(table);
    Ok(nodes)
}

/// How many nodes the sample image has over itself.
fn nodes_of_two<R: Threads + Sync>(rt: &R, memories: &Memories) -> Option<Result<u64, Stop>> {
    let images = samples(&memories.plain, 2)?;
    Some(nodes_of(rt, &memories.refusing, images))
}

/// Images in memory that refuses one request.
type Images<'a> = Vec<Vec<u8, &'a Refusing<Global>>, &'a Refusing<Global>>;

/// Two images, of which this one is broken.
fn images_with<'a>(plain: &'a Refusing<Global>, broken: u16) -> Option<Images<'a>> {
    let mut images = samples(plain, 1)?;
    let bad = b"no image".to_vec(plain).ok()?;
    if broken == 0 {
        images.insert(0, bad).ok()?;
    } else {
        images.push(bad).ok()?;
    }
    Some(images)
}

/// Which image is reported as broken, or else that memory was refused.
fn told_of<R: Threads + Sync>(
    rt: &R,
    memories: &Memories,
    broken: u16,
) -> Option<Result<u16, Stop>> {
    let images = images_with(&memories.plain, broken)?;
    match nodes_of(rt, &memories.refusing, images) {
        Ok(_) => None,
        Err(Stop::Layer { layer, fault: _ }) => Some(Ok(layer)),
        Err(stop) => Some(Err(stop)),
    }
}

/// A stream for which the room for requests must grow.
const LONG: Run = Run {
    stream: Stream::Long,
    ..WHOLE
};

/// The stream over the sample image.
fn serve_in<R: Threads + Sync>(rt: &R, memories: &Memories, row: Run) -> Option<Seen> {
    let images = samples(&memories.plain, 1)?;
    serve_of(
        rt,
        memories.global,
        &memories.refusing,
        images,
        Profile::Usual,
        false,
        row,
        Some(&memories.refusing),
    )
}

/// How many requests for memory it takes to prepare the sample image.
fn requests_of_preparing<R: Threads + Sync>(rt: &R, global: Global) -> Option<u64> {
    let memories = Memories::new(global, 0);
    let images = samples(&memories.plain, 1)?;
    let nodes = nodes_of(rt, &memories.refusing, images);
    nodes.is_ok().then_some(memories.refusing.requests())
}

/// Whether a run reports that memory was refused, after some of the first replies, and calls no
/// device after that; or otherwise completed.
fn is_run(seen: &Option<Seen>, refused: bool) -> bool {
    let end = if refused {
        Err(Stop::Memory)
    } else {
        Ok((13, 1547))
    };
    seen.is_some_and(|seen| seen.end == end && seen.put.is_some() && seen.late == 0)
}

/// Whether a run was refused after preparing, or has called no device.
fn is_untouched(seen: &Option<Seen>, refuse_at: u64, preparing: u64) -> bool {
    preparing < refuse_at || seen.is_some_and(|seen| seen.reads == 0 && seen.writes == 0)
}

/// Whether a call reports that memory was refused, or otherwise returns the right result.
fn is_told<R: Threads + Sync>(rt: &R, memories: &Memories, call: Call) -> bool {
    let refusing = &memories.refusing;
    match call {
        Call::Prepare => match nodes_of_two(rt, memories) {
            Some(Ok(nodes)) => !refusing.refused() && nodes == 6,
            Some(Err(stop)) => refusing.refused() && stop == Stop::Memory,
            None => false,
        },
        Call::PrepareBroken(broken) => match told_of(rt, memories, broken) {
            Some(Ok(layer)) => !refusing.refused() && layer == broken,
            Some(Err(stop)) => refusing.refused() && stop == Stop::Memory,
            None => false,
        },
        Call::Run => {
            let (global, plain) = (memories.global, &memories.plain);
            let seen = run_of(rt, global, plain, refusing, LONG, Some(refusing));
            is_run(&seen, refusing.refused())
        }
        Call::Serve(preparing, plan) => {
            let seen = serve_in(rt, memories, Run { plan, ..LONG });
            is_run(&seen, refusing.refused()) && is_untouched(&seen, memories.refuse_at, preparing)
        }
    }
}

/// How many requests a call makes, each of which is refused once.
fn requests_of<R: Threads + Sync>(rt: &R, global: Global, call: Call) -> Result<u64, u64> {
    refuse_in_turn(global, |memories| is_told(rt, memories, call))
}

/// A run asks for its balances, its replies and the buffer, and twice for the buffer's growth.
#[test]
fn preparing_and_runs_are_refused(rt: HostRuntime) {
    for (call, least, most) in [
        (Call::Prepare, 31, u64::MAX),
        (Call::PrepareBroken(0), 6, u64::MAX),
        (Call::PrepareBroken(1), 6, u64::MAX),
        (Call::Run, 5, 5),
    ] {
        let requests = requests_of(&rt, rt.alloc(), call);
        assert!(rt;
            requests.is_ok_and(|it| (least..=most).contains(&it)),
            "{requests:?}"
        );
    }
}

#[test]
fn serving_is_refused(rt: HostRuntime) -> Result<(), Fail> {
    let preparing = requests_of_preparing(&rt, rt.alloc()).ok_or("the sample image")?;
    assert!(rt; 20 < preparing);
    for plan in [(1, 1), (2, 3), (5, 1)] {
        let requests = requests_of(&rt, rt.alloc(), Call::Serve(preparing, plan));
        assert!(rt;
            requests.is_ok_and(|it| preparing < it),
            "{plan:?}: {requests:?}"
        );
    }
    Ok(())
}

/// The last request is for room for the beginning of the WRITE: all replies before it are written.
#[test]
fn the_last_request_is_refused_behind_all_replies(rt: HostRuntime) -> Result<(), Fail> {
    let counting = Memories::new(rt.alloc(), 0);
    let all = serve_in(&rt, &counting, LONG);
    let last = Memories::new(rt.alloc(), counting.refusing.requests());
    let seen = serve_in(&rt, &last, LONG).ok_or("a run")?;
    assert!(rt; is_run(&all, false) && is_run(&Some(seen), true));
    assert!(rt; seen.put == Some(1531) && seen.reads == 3 && seen.writes == 2);
    Ok(())
}

/// With no turns no more memory is taken than for preparing.
#[test]
fn no_turns_take_no_memory(rt: HostRuntime) -> Result<(), Fail> {
    let preparing = requests_of_preparing(&rt, rt.alloc()).ok_or("the sample image")?;
    let counting = Memories::new(rt.alloc(), 0);
    let seen = serve_in(&rt, &counting, Run { turns: 0, ..LONG }).ok_or("a run")?;
    assert!(rt; seen.end == Err(Stop::Turns) && counting.refusing.requests() == preparing);
    Ok(())
}

/// How many requests it takes to refuse this many images, before they are looked at.
fn requests_of_refusing<R: Threads + Sync>(rt: &R, global: Global, count: u64) -> Option<u64> {
    let memory = Refusing::new(global, 0);
    let mut images = Vec::new(&memory);
    for _ in 0..count {
        images.push(Vec::new(&memory)).ok()?;
    }
    let before = memory.requests();
    let seen = serve_of(
        rt,
        global,
        &memory,
        images,
        Profile::Usual,
        false,
        WHOLE,
        None,
    )?;
    let untouched = seen.reads == 0 && seen.writes == 0;
    (seen.end == Err(Stop::Layers { count }) && untouched).then_some(
        memory.requests().saturating_sub(before),
    )
}

#[test]
fn refused_images_take_no_memory(rt: HostRuntime) {
    for count in [0, 129] {
        assert!(rt;
            requests_of_refusing(&rt, rt.alloc(), count) == Some(0),
            "{count}"
        );
    }
}
