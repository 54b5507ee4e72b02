// The tables that are made of a sheet once, and lent from then on.

ghost use Rattle.std.specs.Prelude.{◌≡◌, ◌⊎◌, ◌≤◌, false};
ghost use Rattle.std.specs.Fn.{FnReturnsAt};
ghost use Rattle.gaze.specs.Lists.{Each};
ghost use Rattle.gaze.specs.Ranges.{QualifierRanges, InRange};
ghost use Rattle.gaze.specs.Sheet.{candidates, end_number};
ghost use Rattle.slots.specs.Slots.{slots_of};
ghost use Rattle.sums.specs.Sums.{Places};
ghost use Rattle.step.specs.Steps.{SlotsMarked, NarrowedTo};

use arrayvec::ArrayVec;
use gaze::{Feature, Qualifier, Sheet};
use lines::Lines;
use penalty::Curves;
use rules::Rules;
use slots::Slots;
use std::marker::Model;

// The slots that the Q lines of which `asks` holds ask for, whichever the target.
fn marks<F: Fn(&Qualifier) -> bool>(qualifiers: &[Qualifier], asks: F) -> [bool; 64]
    requires callable { F.IsAlwaysCallable asks }
    requires ranged { Each QualifierRanges qualifiers.now }
    ensures { Each (λ q. FnReturnsAt F.Fn asks q false ⊎ SlotsMarked result q) qualifiers.now }
{
    let mut marks = [false; 64];
    for q in qualifiers {
        if asks(q) {
            slots::mark(q.kind, q.phase, &mut marks);
        }
    }
    marks
}

// A sheet, its candidates, its lines in tables, its segments by slot, and of the slots those that are narrowed to each target and those that are summed
// up. To contracts it is the sheet.
#[derive(Drop)]
pub struct Prepared<'a> {
    pub(crate) sheet: &'a Sheet,
    pub(crate) candidates: ArrayVec<Feature, 1026>,
    pub(crate) rules: Rules<'a>,
    pub(crate) curves: Curves<'a>,
    pub(crate) lines: Lines<'a>,
    pub(crate) slots: Slots,
    narrowed: [bool; 64],
    summed: [bool; 64],
}

impl<'a> Model for Prepared<'a> {
    ghost use Rattle.gaze.specs.Sheet.{Sheet as Lines};

    ghost Value = { Lines };

    ghost use Rattle.step.specs.Prepared.{IsPrepared};

    ghost view = { λ p. p.sheet.now };

    ghost invariant = { IsPrepared };
}

impl<'a> Prepared<'a> {
    // Not inlined, so that what it takes of the stack is given back before the search.
    #[inline(never)]
    pub fn of(sheet: &'a Sheet) -> Prepared<'a>
        ensures value { result ≡ sheet.now }
        ensures ranged { InRange sheet.now }
    {
        let qualifiers = sheet.qualifiers.as_slice();
        Prepared {
            sheet,
            candidates: sheet.candidates(),
            rules: Rules::of(sheet.rules.as_slice()),
            curves: Curves::of(sheet.points.as_slice()),
            lines: Lines::of(qualifiers),
            slots: Slots::of(sheet.segments.as_slice()),
            narrowed: marks(qualifiers, |q| 2 <= q.matching),
            summed: marks(qualifiers, |q| q.method == 2 && q.matching == 0),
        }
    }

    // BEGIN, the features, END.
    pub fn candidates(&self) -> &[Feature]
        ensures value { result.now ≡ candidates self.now }
        ensures places { Places result.now }
    {
        self.candidates.as_slice()
    }

    // The segments by slot.
    pub fn slots(&self) -> &Slots
        ensures { result.now ≡ slots_of self.now.segments }
    {
        &self.slots
    }

    // The slots that are summed up, among them all that the Q lines with method 2 and match 0 ask for. Which they are changes no score.
    pub fn summed(&self) -> [bool; 64]
        ensures { Each (λ q. q.method ≡ 2 → q.matching ≡ 0 → SlotsMarked result q) self.now.qualifiers }
    {
        self.summed
    }

    // Narrows the slots that ask for it to a target.
    pub fn narrow_to(&self, target: usize, narrowed: &mut Slots)
        requires { target ≤ end_number self.now }
        ensures { NarrowedTo self.now target narrowed.new }
    {
        narrowed.narrow_to(
            &self.slots,
            &self.narrowed,
            self.candidates.as_slice()[target].position,
        );
    }
}
