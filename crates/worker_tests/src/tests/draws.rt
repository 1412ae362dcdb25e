//! One thread draws through one hand or two, and memory is refused.

use draw_board::Board;
use std::test::Fail;
use test_kit::memories::refuse_in_turn;
use test_kit::refusing::Refusing;

/// Only the start takes memory.
#[test]
fn two_hands_share_three_numbers(rt: HostRuntime) -> Result<(), Fail> {
    let memory = Refusing::new(rt.alloc(), 0);
    let (board, mut a) = Board::start(&memory, 3, 2)?;
    let requests = memory.requests();
    let Ok(mut b) = board.split(&mut a, 1) else {
        panic!(rt; "the first hand has two misses")
    };
    let are_few = board.split(&mut a, 1).is_err() && board.split(&mut a, 0).is_err();
    let numbers = [board.draw(&mut a), board.draw(&mut b), board.draw(&mut a)];
    let misses = [board.draw(&mut a), board.draw(&mut b), board.draw(&mut b)];
    board.rejoin(&mut a, b);
    let draws = board.close(a);
    assert!(rt; are_few && draws == 5 && memory.requests() == requests);
    assert!(rt; numbers == [Some(0), Some(1), Some(2)] && misses == [None; 3]);
    Ok(())
}

#[test]
fn a_board_of_no_numbers(rt: HostRuntime) -> Result<(), Fail> {
    let (board, mut hand) = Board::start(rt.alloc(), 0, 1)?;
    let draws = [board.draw(&mut hand), board.draw(&mut hand)];
    let drawn = board.close(hand);
    assert!(rt; draws == [None; 2] && drawn == 1);
    Ok(())
}

#[test]
fn each_request_of_a_start_refused(rt: HostRuntime) {
    let requests = refuse_in_turn(rt.alloc(), |memories| {
        Board::start(&memories.refusing, 3, 2).is_err() == memories.refusing.refused()
    });
    assert!(rt; matches!(requests, Ok(1..)), "{requests:?}");
}
