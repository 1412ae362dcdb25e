//! The lookups that an answer gives and takes, added to the balances of the nodes.

ghost use Rattle.std.specs.Prelude.{◌≡◌, ◌≤◌, ◌<◌, ◌+◌, ◌-◌, ◌^◌, ◌∷◌, [], length};
ghost use Rattle.fuse_wire.specs.Reads.{items_of};
ghost use Rattle.reply_model.specs.Balances.{AreWithin, IsMoved};
ghost use Rattle.fuse_answer.specs.Answers.{IsSized, answer_moves, taken_back};
ghost use Rattle.fuse_answer.specs.Listings.{IsRow, IsWhole, listed_moves, row_given};
ghost use Rattle.fuse_answer.specs.Adding.{AddsGiven};

use crate::listing::{Listing, fit};
use crate::outcome::Answer;
use crate::rows::line_at;
use fuse_wire::forget::{Forget, Forgets};
use node_reader::Table;
use reply_model::add_move;
use std::alloc::Allocator;

/// Adds the lookups that an answer gives and takes to the balances. The balance of node n is at
/// index n - 1.
#[inline(always)]
pub(crate) fn add_answer_moves<A: Allocator>(
    table: &Table<A>,
    answer: &Answer<'_, A>,
    balances: &mut [i128],
)
    requires sized { IsSized table.now answer.now }
    requires within { AreWithin (2 ^ 123) balances.old }
    ensures { IsMoved (answer_moves table.now answer.now) balances.old balances.new }
{
    match answer {
        Answer::Entry(attr) => add_move(balances, attr.ino, 1),
        Answer::Rows(rows) => add_rows(rows, balances),
        Answer::Forgotten(forget) => take_back(table, *forget, balances),
        Answer::AllForgotten(items) => take_all_back(table, *items, balances),
        _ => {}
    }
}

/// Adds the lookups that a row gives, if rows have entries.
#[inline(always)]
pub(crate) fn add_row<A: Allocator>(rows: &Listing<'_, A>, index: usize, balances: &mut [i128])
    requires from { rows.now.from ≤ index }
    requires there { IsRow rows.now index }
    requires within { AreWithin (2 ^ 123 + (index - rows.now.from)) balances.old }
    ensures { AddsGiven rows.now index (index + 1) balances.old balances.new }
{
    if rows.with_entries {
        add_entry(rows, index, balances);
    }
}

// Adds the lookups that the rows of a listing give.
fn add_rows<A: Allocator>(rows: &Listing<'_, A>, balances: &mut [i128])
    requires whole { IsWhole rows.now }
    requires within { AreWithin (2 ^ 123) balances.old }
    ensures { IsMoved (listed_moves rows.now) balances.old balances.new }
{
    let (until, _) = fit(rows);
    for index in rows.from..until {
        add_row(rows, index, balances);
    }
}

// Adds the lookup that a row with an entry gives to its node. The first two rows, `.` and `..`,
// give none.
#[inline(always)]
fn add_entry<A: Allocator>(rows: &Listing<'_, A>, index: usize, balances: &mut [i128])
    requires there { IsRow rows.now index }
    requires within { AreWithin (2 ^ 124) balances.old }
    ensures { IsMoved (row_given rows.now index) balances.old balances.new }
{
    let (number, _) = line_at(rows, index);
    let place = index as u64 + 1;
    if 2 < place {
        add_move(balances, number, 1);
    }
}

// Takes back forgotten lookups from a node, if the number is in use.
#[inline(always)]
fn take_back<A: Allocator>(table: &Table<A>, forget: Forget, balances: &mut [i128])
    requires { AreWithin (2 ^ 124) balances.old }
    ensures { IsMoved (taken_back table.now (forget ∷ [])) balances.old balances.new }
{
    if table.node(forget.node).is_some() {
        add_move(balances, forget.node, -i128::from(forget.nlookup));
    }
}

// Takes back all forgotten lookups.
#[inline(always)]
fn take_all_back<A: Allocator>(table: &Table<A>, items: Forgets<'_>, balances: &mut [i128])
    requires { AreWithin (2 ^ 123) balances.old }
    ensures { IsMoved (taken_back table.now (items_of items.entry)) balances.old balances.new }
{
    let mut rest = items;
    for _taken in 0..items.len() {
        let Some((forget, later)) = rest.split_first() else {
            return;
        };
        take_back(table, forget, balances);
        rest = later;
    }
}
