// The region score of a step: the sum over the Q lines of its pair of types, each over the rows of the slot that it asks for.

#![tactic(auto)]

ghost use Rattle.std.specs.Prelude.{◌≡◌, ◌<◌, ◌≤◌, length, get_or, nat_abs};
ghost use Rattle.gaze.specs.Ranges.{QualifierRanges};
ghost use Rattle.gaze.specs.Sheet.{begin, candidate};
ghost use Rattle.gaze.specs.Step.{region_score};
ghost use Rattle.rows.specs.Rows.{scored};
ghost use Rattle.slots.specs.Slots.{slot_in, slots_of};
ghost use Rattle.sums.specs.Sums.{position};

use gaze::{Feature, Qualifier, Sheet};
use lines::Lines;
use slots::Slots;
use sums::RunningSums;

// A sheet, what is made of it once, and the slots' rows that end at one target: all that scores the regions of the steps into that target.
#[derive(Clone, Copy)]
pub struct Evidence<'a> {
    pub sheet: &'a Sheet,
    pub candidates: &'a [Feature],
    pub lines: &'a Lines<'a>,
    pub slots: &'a Slots,
    pub narrowed: &'a Slots,
    pub sums: &'a RunningSums<'a>,
}

impl<'a> Evidence<'a> {
    ghost use Rattle.regions.specs.Evidence.{Summing, Region, Narrowed, Holds, worth};

    pub fn candidate(&self, i: usize) -> Feature
        requires { i < length self.now.candidates.now }
        ensures { result ≡ get_or self.now.candidates.now i begin }
    {
        self.candidates[i]
    }

    // The score of all of a slot's rows over the region between two candidates: by method 2 it is in the running sums of a slot that is summed up.
    fn slot_score(&self, slot: usize, method: u32, source: usize, target: usize) -> i64
        requires summing { Summing self.now }
        requires slot_low { slot < 64 }
        requires region { Region self.now.candidates.now source target }
        ensures { result ≡ scored method (position self.now.candidates.now source) (position self.now.candidates.now target) (slot_in self.now.slots.now slot) }
    {
        let s = self.candidate(source).position;
        let t = self.candidate(target).position;
        let rows = self.slots.slot(slot);
        if method == 1 {
            return slots::share_to(rows, s, t);
        }
        match self.sums.pair_score(slot, source, target) {
            Some(score) => score,
            None => rows::score_rows(rows, method, s, t),
        }
    }

    // The score of one Q line over the region between two candidates.
    fn line_score(&self, q: &Qualifier, source: usize, target: usize) -> i64
        requires summing { Summing self.now }
        requires slots { self.now.slots.now ≡ slots_of self.now.sheet.now.segments }
        requires region { Region self.now.candidates.now source target }
        requires ranged { QualifierRanges q.now }
        requires narrowed { Narrowed self.now.slots.now self.now.narrowed.now (position self.now.candidates.now target) q.now }
        ensures { result ≡ worth self.now source target q.now }
    {
        let s = self.candidate(source).position;
        let t = self.candidate(target).position;
        let slot = slots::slot_of(q.kind, q.phase, t);
        match q.matching {
            0 => self.slot_score(slot, q.method, source, target),
            1 => rows::score_rows(self.slots.starting(slot, s), q.method, s, t),
            2 => rows::score_rows(self.narrowed.slot(slot), q.method, s, t),
            _ => rows::score_rows(self.narrowed.starting(slot, s), q.method, s, t),
        }
    }

    // The region score of the step between two candidates.
    pub fn region_score(&self, source: usize, target: usize) -> i64
        requires held { Holds self.now target }
        requires ordered { source ≤ target }
        ensures value { result ≡ region_score self.now.sheet.now.qualifiers self.now.sheet.now.segments (candidate self.now.sheet.now source) (candidate self.now.sheet.now target) }
        ensures small { nat_abs result ≤ 640000000000000 }
    {
        let lines = self
            .lines
            .of_types(self.candidate(source).kind, self.candidate(target).kind);
        let mut sum: i64 = 0;
        for q in lines {
            let score = self.line_score(q, source, target);
            sum = whole::plus(sum, score);
        }
        sum
    }
}
