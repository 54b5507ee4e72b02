// What is made of a sheet for one target, and the step from a source into it: the innermost loop, so that nothing is made for a source.

ghost use Rattle.std.specs.Prelude.{◌≡◌, ◌<◌, ◌≤◌};
ghost use Rattle.gaze.specs.Sheet.{end_number};
ghost use Rattle.gaze.specs.Step.{steps};
ghost use Rattle.chains.specs.Tables.{step};
ghost use Rattle.step.specs.Steps.{SumsOf, NarrowedTo};

use crate::prepared::Prepared;
use gaze::Feature;
use penalty::Curves;
use regions::Evidence;
use rules::{Interrupters, Rules};
use slots::Slots;
use std::marker::Model;
use sums::RunningSums;

// A target, with all that the steps into it are made of. To contracts it is the sheet and the target's number.
#[derive(Drop)]
pub struct Target<'a> {
    evidence: Evidence<'a>,
    rules: &'a Rules<'a>,
    curves: &'a Curves<'a>,
    interrupters: Interrupters<'a>,
    feature: Feature,
    number: usize,
}

impl<'a> Model for Target<'a> {
    ghost use Rattle.step.specs.Steps.{Aimed};

    ghost Value = { Aimed };

    ghost use Rattle.step.specs.Target.{IsAimed};

    ghost view = { λ t. record { sheet = t.evidence.sheet.now; target = t.number } };

    ghost invariant = { IsAimed };
}

impl<'a> Target<'a> {
    pub fn at(
        prepared: &'a Prepared<'a>,
        sums: &'a RunningSums<'a>,
        narrowed: &'a Slots,
        number: usize,
    ) -> Target<'a>
        requires summing { SumsOf prepared.now sums.now }
        requires narrowed { NarrowedTo prepared.now number narrowed.now }
        requires to_end { number ≤ end_number prepared.now }
        ensures { result ≡ record { sheet = prepared.now; target = number } }
    {
        let sheet = prepared.sheet;
        let candidates = prepared.candidates.as_slice();
        let feature = candidates[number];
        Target {
            evidence: Evidence {
                sheet,
                candidates,
                lines: &prepared.lines,
                slots: &prepared.slots,
                narrowed,
                sums,
            },
            rules: &prepared.rules,
            curves: &prepared.curves,
            interrupters: Interrupters::before(sheet.features.as_slice(), feature),
            feature,
            number,
        }
    }

    // What the step from a source gains, where it is legal.
    pub fn step_from(&self, source: usize) -> Option<i64>
        requires { source < self.now.target }
        ensures { result ≡ step (steps self.now.sheet) source self.now.target }
    {
        let from = self.evidence.candidate(source);
        let rule = self.rules.of_types(from.kind, self.feature.kind)?;
        if !self.interrupters.meets(&rule, &from) {
            return None;
        }
        let region = self.evidence.region_score(source, self.number);
        let penalty = self
            .curves
            .penalty_at(rule.function, self.feature.position - from.position);
        Some(whole::plus(whole::minus(region, penalty), self.feature.score))
    }
}
