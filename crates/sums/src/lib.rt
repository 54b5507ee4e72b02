// Running sums at the candidates' positions, filled once for each slot that is summed up, so that a pair's score by method 2 with match 0 is one subtraction
// and one quotient.

#![tactic(auto)]

ghost use Rattle.std.specs.Prelude.{◌≡◌, false, ℕ, ◌<◌, ◌≤◌, length, get_or, replicate};
ghost use Rattle.slots.specs.Slots.{Rising};
ghost use Rattle.sums.specs.Sums.{Places, pair_score};
ghost use Rattle.sums.specs.Table.{nothing, Filled, FilledRow, Kept, sum_between};

mod plateau;
mod walk;
mod window;

use crate::walk::Walk;
use gaze::Feature;
use rows::Row;
use slots::Slots;
use std::marker::Model;

// The sums of the largest rates up to a candidate's position, without it and with it.
#[derive(Clone, Copy)]
pub struct Sum {
    pub before: i64,
    pub along: i64,
}

// A row of candidates for each slot.
pub type Table = [[Sum; 1026]; 64];

// A table with nothing in it. The caller lends it, since it is too large to be copied.
pub fn empty_table() -> Table
    ensures { result ≡ replicate 64 (replicate 1026 nothing) }
{
    [[Sum {
        before: 0,
        along: 0,
    }; 1026]; 64]
}

// For each candidate the sums of the largest rates up to its position, without it and with it. What stands behind them stays.
fn fill_row(rows: &[Row], candidates: &[Feature], row: &mut [Sum; 1026])
    requires rising { Rising rows.now }
    requires few { length rows.now ≤ 1024 }
    requires places { Places candidates.now }
    ensures filled { FilledRow rows.now candidates.now row.new }
    ensures kept { (i : ℕ) → length candidates.now ≤ i → get_or row.new i nothing ≡ get_or row.old i nothing }
{
    let mut walk = Walk::over(rows);
    for (i, candidate) in candidates.iter().enumerate() {
        let p = candidate.position;
        walk.walk_to(p);
        row[i] = Sum {
            before: walk.reached(p),
            along: walk.reached(p + 1),
        };
    }
}

// Fills the rows of the slots that are summed up, and leaves the rest as it was.
pub fn fill_table(slots: &Slots, candidates: &[Feature], summed: &[bool; 64], table: &mut Table)
    requires { Places candidates.now }
    ensures filled { Filled summed.now slots.now candidates.now table.new }
    ensures kept { Kept summed.now candidates.now table.old table.new }
{
    for (slot, row) in table.iter_mut().enumerate() {
        if summed[slot] {
            fill_row(slots.slot(slot), candidates, row);
        }
    }
}

// Sums that are looked up.
#[derive(Drop)]
pub struct RunningSums<'a> {
    slots: &'a Slots,
    candidates: &'a [Feature],
    summed: [bool; 64],
    table: &'a [[Sum; 1026]],
}

impl<'a> Model for RunningSums<'a> {
    ghost use Rattle.sums.specs.Sums.{Summing};

    ghost Value = { Summing };

    ghost view = { λ s. record { slots = s.slots.now; candidates = s.candidates.now; summed = s.summed } };

    ghost use Rattle.sums.specs.Held.{IsHeld};

    ghost invariant = { IsHeld };
}

impl<'a> RunningSums<'a> {
    // Those of a table that is filled.
    pub fn over(
        slots: &'a Slots,
        candidates: &'a [Feature],
        summed: [bool; 64],
        table: &'a Table,
    ) -> RunningSums<'a>
        requires places { Places candidates.now }
        requires filled { Filled summed slots.now candidates.now table.now }
        ensures { result ≡ record { slots = slots.now; candidates = candidates.now; summed = summed } }
    {
        RunningSums {
            slots,
            candidates,
            summed,
            table,
        }
    }

    // No slot is summed up.
    pub fn none(slots: &'a Slots, candidates: &'a [Feature]) -> RunningSums<'a>
        ensures { result ≡ record { slots = slots.now; candidates = candidates.now; summed = replicate 64 false } }
    {
        RunningSums {
            slots,
            candidates,
            summed: [false; 64],
            table: &[],
        }
    }

    // What a slot's sum along with candidate `j` has more than that before candidate `i`, where the slot is summed up: of two in their order it is the score by
    // method 2 of the slot's segments over the region between them.
    pub fn pair_score(&self, slot: usize, i: usize, j: usize) -> Option<i64>
        requires slot_low { slot < 64 }
        requires i_low { i < length self.now.candidates }
        requires j_low { j < length self.now.candidates }
        ensures difference { result ≡ sum_between self.now slot i j }
        ensures score { i ≤ j → result ≡ pair_score self.now slot i j }
    {
        if !self.summed[slot] {
            return None;
        }
        let row = &self.table[slot];
        Some(whole::floor(whole::minus(row[j].along, row[i].before), 1000))
    }
}
