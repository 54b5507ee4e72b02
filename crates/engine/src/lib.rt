// The engine: the best chain of a sheet, and the verdict on a chain that is sent in.

#![tactic(auto)]

mod lent;

ghost use Rattle.std.specs.Prelude.{◌≡◌, suc, ◌≤◌, length};
ghost use Rattle.gaze.specs.Sheet.{end_number};
ghost use Rattle.gaze.specs.Step.{steps};
ghost use Rattle.gaze.specs.Ranges.{InRange};
ghost use Rattle.chains.specs.Answer.{Answers};
ghost use Rattle.chains.specs.Tables.{Searched};

use chains::{Entries, Found};
use gaze::Sheet;
pub use lent::judge;
use slots::Slots;
use step::Prepared;
use sums::RunningSums;

// The best chain of a sheet, written into the front of `chain`, if there is a valid one.
pub fn best_chain(sheet: &Sheet, chain: &mut [u32]) -> Option<Found>
    requires { suc (end_number sheet.now) ≤ length chain.old }
    ensures { Answers (steps sheet.now) (end_number sheet.now) chain.old result chain.new }
{
    let prepared = Prepared::of(sheet);
    let entries = search(&prepared);
    chains::answer(entries.as_slice(), chain)
}

// The entries of all candidates. Not inlined, so that the running sums' megabyte does not stand on the stack while the tables are made.
#[inline(never)]
fn search(prepared: &Prepared) -> Entries
    requires { InRange prepared.now }
    ensures all { length result.items ≡ suc (end_number prepared.now) }
    ensures searched { Searched (steps prepared.now) result.items }
{
    let candidates = prepared.candidates();
    let summed = prepared.summed();
    let mut table = sums::empty_table();
    sums::fill_table(prepared.slots(), candidates, &summed, &mut table);
    let sums = RunningSums::over(prepared.slots(), candidates, summed, &table);
    let mut narrowed = Slots::empty();
    let mut steps = [None; 1026];
    let mut entries = chains::begin();
    for target in 1..candidates.len() {
        let row = &mut steps[..target];
        step::steps_into(prepared, &sums, &mut narrowed, target, 0, row);
        chains::settle(row, &mut entries);
    }
    entries
}
