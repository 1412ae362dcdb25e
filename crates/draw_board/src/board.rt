//! The shared word, and what hands do with it.
//!
//! The word counts the draws that took a step. A draw's *position* is the count that it found: a
//! number if that is below the total, otherwise a *miss*. A hand has a number of misses to spend,
//! and draws no more once it has none left; the misses of all hands, set at the start, keep the
//! word from wrapping. A hand's *share* is its misses left and spent, so the hand with all shares
//! is the only one, and may close the board: its draws are then one history of a counter that one
//! thread draws from (`specs/Counter.antt`).

ghost use Rattle.std.specs.Prelude.{◌≡◌, ◌<◌, ◌^◌};

use crate::hand::{Few, Hand};
use crate::steps::{Announce, Draw, Drawing, Look, Part, Rejoin};
use crate::view::View;
use atomic_table::Table;
use std::alloc::{AllocError, Allocator};

/// The numbers below a total, for hands to draw. Threads share it by reference.
///
/// ```text
/// let (board, mut first) = Board::start(alloc, jobs, 2)?;
/// let second = board.split(&mut first, 1)?;
/// // in each of two threads, with a hand of its own
/// while let Some(job) = board.draw(&mut hand) {
///     work(job);
/// }
/// // the threads gave their hands back
/// board.rejoin(&mut first, second);
/// let draws = board.close(first);
/// ```
#[derive(Drop)]
pub struct Board<A: Allocator> {
    table: Table<(), View, (u32, u32), Drawing, A>,
    total: u32,
    ghost one_word: { (table.shared.table_id.words ≡ 1) × (table.shared.table_id.slots ≡ 0) },
    ghost total_told: { table.shared.key.0 ≡ total },
    ghost few_misses: { table.shared.key.1 < 2 ^ 32 },
}

impl<A: Allocator> Board<A> {
    ghost use Rattle.std.specs.Prelude.{◌≡◌, ◌≤◌, ◌<◌, ◌⊎◌, ◌↔◌, None, IfOk, IfSome, IfNone, IsErr, OnErr};
    ghost use Rattle.std.specs.List.{range_with_len};
    ghost use Rattle.draw_board.specs.Counter.{history};
    ghost use Rattle.draw_board.specs.Positions.{Unites, numbers};
    ghost use Rattle.draw_board.specs.Hands.{total_of, misses_of, draws, left, positions, seen_below, share, IsBoard, IsFirstHand, IsHandOf, KeepsShare, MovesMisses, SpendsMissAtNone, TakesDraw, TakesIn, TakesNumber};

    /// Starts a board with the numbers below `total`, and its first hand with all of its `misses`.
    /// A board of no numbers is fine; a hand with no miss could never learn that all numbers are
    /// drawn.
    ///
    /// `AllocError` if there is no memory for the word; no other call on a board takes memory.
    pub fn start(alloc: A, total: u32, misses: u32) -> Result<(Board<A>, Hand), AllocError>
        requires { 1 ≤ misses }
        ensures board { IfOk result (λ made. IsBoard made.0 total misses) }
        ensures hand { IfOk result (λ made. IsFirstHand made.0 made.1) }
    {
        let (table, seat) = Table::of_words(alloc, &[0], &(total, misses))?;
        Ok((Board { table, total }, Hand { seat, misses }))
    }

    /// Draws the next number, in one atomic step. `None` if all numbers are drawn already, which
    /// costs the hand one miss; a hand with no miss left returns it without a step, unchanged.
    ///
    /// It takes no lock and no memory, and waits for no other thread. Many threads may draw at a
    /// time, each with a hand of its own.
    pub fn draw(&self, hand: &mut Hand) -> Option<u32>
        requires { IsHandOf self.now hand.old }

        // Each step is a draw of one counter, at a position new to the hand.
        ensures step { 0 < left hand.old → TakesDraw (total_of self.now) hand.old hand.new result }
        ensures number { IfSome result (TakesNumber (total_of self.now) hand.old hand.new) }

        // None is returned only if the hand knows that all numbers were drawn.
        ensures drawn { IfNone result (total_of self.now ≤ seen_below hand.new) }
        ensures misses { 0 < left hand.old → SpendsMissAtNone hand.old hand.new result }
        ensures no_miss { left hand.old ≡ 0 → (result ≡ None) × (hand.new ≡ hand.old) }
        ensures hand { KeepsShare self.now hand.old hand.new }
    {
        if hand.misses == 0 {
            return None;
        }
        let position = self.table.shared.fetch_add::<Draw>(&mut hand.seat, 0, 1);
        if position < self.total as u64 {
            Some(position as u32)
        } else {
            hand.misses -= 1;
            None
        }
    }

    /// Gives this many of the hand's misses to a new hand, which has drawn nothing and knows what
    /// the giver knows.
    ///
    /// [`Few`] if `misses` is 0 or the giver would keep none; the hand is then unchanged.
    pub fn split(&self, hand: &mut Hand, misses: u32) -> Result<Hand, Few>
        requires { IsHandOf self.now hand.old }
        ensures few { IsErr result ↔ ((misses ≡ 0) ⊎ (left hand.old ≤ misses)) }
        ensures ok { IfOk result (λ other. MovesMisses self.now hand.old hand.new other misses) }
        ensures err { OnErr result (hand.new ≡ hand.old) }
    {
        if misses == 0 || hand.misses <= misses {
            return Err(Few);
        }
        let shared = &self.table.shared;
        shared.compare_exchange::<Announce>(&mut hand.seat, 0, misses as u64, misses as u64);
        let seat = shared.split_seat::<Part>(&mut hand.seat);
        hand.misses -= misses;
        Ok(Hand { seat, misses })
    }

    /// Takes over another hand: its draws, its misses, and what it knows.
    pub fn rejoin(&self, hand: &mut Hand, other: Hand)
        requires { IsHandOf self.now hand.old × IsHandOf self.now other }
        ensures positions { Unites (positions hand.old) (positions other) (positions hand.new) }
        ensures hand { TakesIn self.now hand.old other hand.new }
    {
        let Hand { seat, misses } = other;
        let shared = &self.table.shared;
        shared.join_seat::<Rejoin>(&mut hand.seat, seat);
        shared.load::<Look>(&mut hand.seat, 0);
        hand.misses += misses;
    }

    /// Ends the board, and returns the number of draws that took a step, over all hands. It takes
    /// the hand that all others were rejoined into: the one whose share is all of the board's
    /// misses.
    pub fn close(self, hand: Hand) -> u64
        requires { IsHandOf self hand × (share hand ≡ misses_of self) }

        // The draws of all hands are one legal history.
        ensures history { draws (total_of self) hand ≡ history (total_of self) result }
        ensures positions { positions hand ≡ range_with_len 0 result }
        ensures seen { seen_below hand ≤ result }

        // After a miss each number was drawn, once.
        ensures numbers { left hand < share hand →
            numbers (total_of self) (positions hand) ≡ range_with_len 0 (total_of self) }
    {
        let Board { table, total: _ } = self;
        let Hand { seat, misses: _ } = hand;
        let closed = table.close_with(seat);
        let drawn = closed.word(0);
        closed.free();
        drawn
    }
}
