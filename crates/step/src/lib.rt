// The steps of a sheet: the tables that are made of it once, what is made of them for each target, and the step from a source into that target.

#![tactic(auto)]

mod aim;
mod prepared;

ghost use Rattle.std.specs.Prelude.{◌≡◌, ◌+◌, ◌<◌, ◌≤◌, ℕ, length, get_or};
ghost use Rattle.gaze.specs.Sheet.{end_number};
ghost use Rattle.gaze.specs.Step.{steps};
ghost use Rattle.chains.specs.Tables.{step};
ghost use Rattle.step.specs.Steps.{SumsOf};

use aim::Target;
pub use prepared::Prepared;
use slots::Slots;
use sums::RunningSums;

// What the step from a source to a target gains, where it is legal. In `narrowed`, which the caller lends, the slots are narrowed to the target.
pub fn step_between(
    prepared: &Prepared,
    sums: &RunningSums,
    narrowed: &mut Slots,
    source: usize,
    target: usize,
) -> Option<i64>
    requires summing { SumsOf prepared.now sums.now }
    requires rises { source < target }
    requires to_end { target ≤ end_number prepared.now }
    ensures { result ≡ step (steps prepared.now) source target }
{
    prepared.narrow_to(target, narrowed);
    Target::at(prepared, sums, narrowed, target).step_from(source)
}

// The same for the sources from `first` on, as many as the row has places for.
pub fn steps_into(
    prepared: &Prepared,
    sums: &RunningSums,
    narrowed: &mut Slots,
    target: usize,
    first: usize,
    row: &mut [Option<i64>],
)
    requires summing { SumsOf prepared.now sums.now }
    requires to_end { target ≤ end_number prepared.now }
    requires before_target { first + length row.old ≤ target }
    ensures { (i : ℕ) → i < length row.new → get_or row.new i None ≡ step (steps prepared.now) (first + i) target }
{
    prepared.narrow_to(target, narrowed);
    let into = Target::at(prepared, sums, narrowed, target);
    for (place, step) in row.iter_mut().enumerate() {
        *step = into.step_from(first + place);
    }
}
