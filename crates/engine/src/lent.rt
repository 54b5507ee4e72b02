// The verdict on a chain that is sent in: whether it is a chain at all, the first of its steps that breaks the model, or its score.

ghost use Rattle.gaze.specs.Chain.{Judged};
ghost use Rattle.gaze.specs.Sheet.{end_number};
ghost use Rattle.gaze.specs.Step.{steps};

use gaze::{Fault, Sheet};
use slots::Slots;
use step::Prepared;
use sums::RunningSums;

// The score of a list that is sent in as a chain of the sheet, or why it has none. A chain has few steps, so no running sums are made for it.
pub fn judge(sheet: &Sheet, chain: &[u32]) -> Result<i64, Fault>
    ensures { Judged (steps sheet.now) (end_number sheet.now) chain.now result }
{
    let prepared = Prepared::of(sheet);
    let candidates = prepared.candidates();
    if !chains::is_chain(candidates.len() - 1, chain) {
        return Err(Fault::NoChain);
    }
    let sums = RunningSums::none(prepared.slots(), candidates);
    let mut narrowed = Slots::empty();
    let mut score: i64 = 0;
    for k in 1..chain.len() {
        let source = chain[k - 1] as usize;
        let target = chain[k] as usize;
        let gain = step::step_between(&prepared, &sums, &mut narrowed, source, target).ok_or(
            Fault::BadStep(k),
        )?;
        score = whole::plus(score, gain);
    }
    Ok(score)
}
