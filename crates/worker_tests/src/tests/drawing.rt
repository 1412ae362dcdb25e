//! Several threads draw from one board, each with a hand of its own.

ghost use Rattle.std.specs.Prelude.{◌≡◌, ◌+◌};
ghost use Rattle.std.specs.Thread.{IsSync};
ghost use Rattle.draw_board.specs.Hands.{GivesBack, IsHandOf, KeepsShare, share};

use draw_board::{Board, Hand};
use std::alloc::{AllocError, Global};
use std::snapshot::Snapshot;
use std::sync::Wait;
use std::test::Fail;
use std::thread;
use std::thread::{Promise, Threads};

/// How many numbers a board has.
const TOTAL: u32 = 1000;

/// How often a thread draws: more often than there are numbers and misses of one hand.
const CALLS: u32 = 1010;

/// How often each number of threads draws.
const ROUNDS: u32 = 50;

/// What a thread returns.
#[derive(Drop)]
struct Drawn {
    numbers: Result<Vec<u32>, AllocError>,
    hand: Hand,
}

/// A promise to return the hand that was lent.
#[derive(Drop)]
struct SameHand(Snapshot<Hand>);

impl Promise<Drawn> for SameHand {
    ghost kept_by = { λ lent back. GivesBack lent.0.value back.hand };
}

/// Draws until all numbers and all misses of the hand are used up.
fn draw_all(alloc: Global, board: &Board<Global>, mut hand: Hand) -> Drawn
    requires { IsHandOf board.now hand }
    ensures { KeepsShare board.now hand result.hand }
{
    let mut numbers = Vec::new(alloc);
    for _ in 0..CALLS {
        if let Some(number) = board.draw(&mut hand)
            && numbers.push(number).is_err()
        {
            return Drawn {
                numbers: Err(AllocError),
                hand,
            };
        }
    }
    Drawn {
        numbers: Ok(numbers),
        hand,
    }
}

/// The numbers of both threads, and one hand of two.
fn joined(board: &Board<Global>, mine: Drawn, theirs: Drawn) -> Drawn
    requires { IsHandOf board.now mine.hand × IsHandOf board.now theirs.hand }
    ensures of_board { IsHandOf board.now result.hand }
    ensures share { share result.hand ≡ share mine.hand + share theirs.hand }
{
    let Drawn { numbers, mut hand } = mine;
    let Drawn {
        numbers: more,
        hand: other,
    } = theirs;
    board.rejoin(&mut hand, other);
    Drawn {
        numbers: both(numbers, more),
        hand,
    }
}

fn both(
    numbers: Result<Vec<u32>, AllocError>,
    more: Result<Vec<u32>, AllocError>,
) -> Result<Vec<u32>, AllocError> {
    let mut all = numbers?;
    let mut rest = more?;
    all.append(&mut rest)?;
    Ok(all)
}

/// Draws in this many threads at a time, each with a hand of `misses` misses.
#[cycle(crowd)]
fn draw_in<R: Threads + Wait + Sync>(
    rt: &R,
    alloc: Global,
    board: &Board<Global>,
    mut hand: Hand,
    threads: u32,
    misses: u32,
) -> Drawn
    requires { IsHandOf board.now hand }
    ensures { KeepsShare board.now hand result.hand }
{
    if threads <= 1 {
        return draw_all(alloc, board, hand);
    }
    let Ok(lent) = board.split(&mut hand, misses) else {
        return Drawn {
            numbers: Err(AllocError),
            hand,
        };
    };
    let rest = threads - 1;
    thread::scope(
        thread::scope_env(),
        rt,
        move |scope| -> Drawn
            requires { IsSync R.row × IsHandOf board.now hand × IsHandOf board.now lent }
            ensures of_board { IsHandOf board.entry.now result.hand }
            ensures share { share result.hand ≡ share hand + share lent }
        {
            let thread = scope.spawn_with(
                SameHand(Snapshot::of(&lent)),
                move || -> Drawn
                    requires { IsHandOf board.now lent }
                    ensures { GivesBack lent result.hand }
                { draw_all(alloc, board, lent) },
            );
            let mine = draw_in(rt, alloc, board, hand, rest, misses);
            let theirs = match thread {
                Ok(thread) => thread.join(rt),
                Err(refused) => (refused.value)(),
            };
            joined(board, mine, theirs)
        },
    )
}

/// Lets this many threads draw, each with this many misses. Returns whether they drew each number
/// once, and took a step for each number and each miss.
fn draws_each_once<R: Threads + Wait + Sync>(
    rt: &R,
    alloc: Global,
    threads: u32,
    misses: u32,
) -> Result<bool, AllocError> {
    // A board has at least one miss.
    let all_misses = threads.saturating_mul(misses).max(1);
    let (board, first) = Board::start(alloc, TOTAL, all_misses)?;
    let Drawn { numbers, hand } = draw_in(rt, alloc, &board, first, threads, misses);
    let draws = board.close(hand);
    let mut numbers = numbers?;
    numbers.sort()?;
    Ok(draws == TOTAL as u64 + all_misses as u64 && numbers.iter().copied().eq(0..TOTAL))
}

#[test]
fn each_number_is_drawn_once(rt: HostRuntime) -> Result<(), Fail> {
    for _ in 0..ROUNDS {
        for threads in [2, 3, 8] {
            for misses in [1, 2, 5] {
                let once = draws_each_once(&rt, rt.alloc(), threads, misses)?;
                assert!(rt; once, "{threads} threads with {misses} misses each");
            }
        }
    }
    Ok(())
}
