// The six groups of lines, each known by its letter: what a line says, the ranges of its fields, and the order of the lines.

#![tactic(auto, unfolding(crate::specs::Kinds::in_range, crate::specs::Kinds::interruption, crate::specs::Records::ranged, crate::specs::Records::line_of, crate::specs::Order::order))]

ghost use Rattle.std.specs.Prelude.{◌≡◌, true, false, List, ℕ, ℤ, pos, MatchOption};
ghost use Rattle.std.specs.Option.{ok_or};
ghost use Rattle.gaze.specs.Ranges.{point_keys, rule_keys, qualifier_keys, feature_keys, segment_keys};
ghost use Rattle.text.specs.Fields.{line};
ghost use Rattle.refusal.specs.declared.Reason.TheVariants.{Malformed};
ghost use Rattle.kinds.specs.Kinds.{Letter, L, P, R, Q, F, S, most_of, field, between, thousandths, source_type, interruption};
ghost use Rattle.kinds.specs.Records.{line_of, number, interruption_of, ranged, length_of, point_of, rule_of, qualifier_of, feature_of, segment_of};
ghost use Rattle.kinds.specs.Order.{order, disorder};
ghost use Rattle.kinds.specs.Keys.{length_keys};

use gaze::{Feature, Interruption, Point, Qualifier, Rule, Segment};
use refusal::Reason;
use std::cmp::Ordering;
use text::read_line;

// The L line: how many bases the sequence has.
#[derive(Clone, Copy, Default)]
pub struct Length {
    pub bases: u32,
}

// A line of a group, as the record that it is.
pub trait Line: Copy + Default {
    // The group's letter, the record that a row of numbers is, and the keys that order the group.
    ghost letter: { Letter };

    ghost of: { List ℤ → Self };

    ghost keys: { Self → List ℕ };

    // What a line says, by its bytes without the LF, in a sequence of so many bases.
    fn read(bytes: &[u8], bases: u32) -> Result<Self, Reason>
        ensures { result ≡ line_of letter of bases bytes.now };

    // How a line stands to the next one.
    fn order(&self, next: &Self) -> Ordering
        ensures { result ≡ order (keys self.now) (keys next.now) };
}

// A line that says how many lines its group may have at most. A trait of its own, since a vector that has room for just so many says it by its capacity.
pub trait Limited: Line {
    fn most() -> usize
        ensures { result ≡ most_of Self.letter };
}

// The numbers of a line with this letter and `N` fields, with a space before each.
fn numbers<const N: usize>(bytes: &[u8], letter: u8) -> Result<[i64; N], Reason>
    ensures { result ≡ ok_or (line letter 32 N bytes.now) Malformed }
{
    read_line(bytes, letter, b' ').ok_or(Reason::Malformed)
}

impl Line for Length {
    ghost letter = { L };

    ghost of = { length_of };

    ghost keys = { length_keys };

    fn read(bytes: &[u8], _bases: u32) -> Result<Length, Reason> {
        length_of(numbers(bytes, b'L')?).ok_or(Reason::Range)
    }

    fn order(&self, _next: &Length) -> Ordering {
        Ordering::Equal
    }
}

impl Limited for Length {
    fn most() -> usize {
        1
    }
}

impl Line for Point {
    ghost letter = { P };

    ghost of = { point_of };

    ghost keys = { point_keys };

    fn read(bytes: &[u8], _bases: u32) -> Result<Point, Reason> {
        point_of(numbers(bytes, b'P')?).ok_or(Reason::Range)
    }

    fn order(&self, next: &Point) -> Ordering {
        [self.function, self.distance].cmp(&[next.function, next.distance])
    }
}

impl Limited for Point {
    fn most() -> usize {
        512
    }
}

impl Line for Rule {
    ghost letter = { R };

    ghost of = { rule_of };

    ghost keys = { rule_keys };

    fn read(bytes: &[u8], _bases: u32) -> Result<Rule, Reason> {
        rule_of(numbers(bytes, b'R')?).ok_or(Reason::Range)
    }

    fn order(&self, next: &Rule) -> Ordering {
        [self.source, self.target].cmp(&[next.source, next.target])
    }
}

impl Limited for Rule {
    fn most() -> usize {
        256
    }
}

impl Line for Qualifier {
    ghost letter = { Q };

    ghost of = { qualifier_of };

    ghost keys = { qualifier_keys };

    fn read(bytes: &[u8], _bases: u32) -> Result<Qualifier, Reason> {
        qualifier_of(numbers(bytes, b'Q')?).ok_or(Reason::Range)
    }

    fn order(&self, next: &Qualifier) -> Ordering {
        [self.source, self.target, self.kind].cmp(&[next.source, next.target, next.kind])
    }
}

impl Limited for Qualifier {
    fn most() -> usize {
        256
    }
}

impl Line for Feature {
    ghost letter = { F };

    ghost of = { feature_of };

    ghost keys = { feature_keys };

    fn read(bytes: &[u8], bases: u32) -> Result<Feature, Reason> {
        feature_of(numbers(bytes, b'F')?, bases).ok_or(Reason::Range)
    }

    fn order(&self, next: &Feature) -> Ordering {
        [self.position, self.kind].cmp(&[next.position, next.kind])
    }
}

impl Limited for Feature {
    fn most() -> usize {
        1024
    }
}

impl Line for Segment {
    ghost letter = { S };

    ghost of = { segment_of };

    ghost keys = { segment_keys };

    fn read(bytes: &[u8], bases: u32) -> Result<Segment, Reason> {
        segment_of(numbers(bytes, b'S')?, bases).ok_or(Reason::Range)
    }

    fn order(&self, next: &Segment) -> Ordering {
        [self.start, self.end, self.kind].cmp(&[next.start, next.end, next.kind])
    }
}

impl Limited for Segment {
    fn most() -> usize {
        1024
    }
}

// The number, where it lies in low..=high.
#[tactic(auto, unfolding(crate::specs::Kinds::between))]
fn within(z: i64, low: u32, high: u32) -> Option<u32>
    ensures { MatchOption result (between (pos low) (pos high) z ≡ false) (λ n. (between (pos low) (pos high) z ≡ true) × (z ≡ pos n)) }
{
    u32::try_from(z).ok().filter(|n| (low..=high).contains(n))
}

// The number, where a score or a penalty may be it.
#[tactic(auto, unfolding(crate::specs::Kinds::thousandths))]
fn scored(z: i64) -> Option<i64>
    ensures { MatchOption result (thousandths z ≡ false) (λ score. (thousandths z ≡ true) × (score ≡ z)) }
{
    (-10_000_000..=10_000_000).contains(&z).then_some(z)
}

// The number, where a source may be of that type.
#[tactic(auto, unfolding(crate::specs::Kinds::between))]
fn source_of(z: i64) -> Option<u32>
    ensures { MatchOption result (source_type z ≡ false) (λ n. (source_type z ≡ true) × (z ≡ pos n)) }
{
    within(z, 0, 31).filter(|source| *source != 1)
}

fn length_of(row: [i64; 1]) -> Option<Length>
    ensures { result ≡ ranged L length_of 0 row }
{
    let [bases] = row;
    Some(Length {
        bases: within(bases, 1, 4_000_000)?,
    })
}

fn point_of(row: [i64; 3]) -> Option<Point>
    ensures { result ≡ ranged P point_of 0 row }
{
    let [function, distance, penalty] = row;
    Some(Point {
        function: within(function, 1, 16)?,
        distance: within(distance, 0, 4_000_000)?,
        penalty: scored(penalty)?,
    })
}

#[tactic(auto, unfolding(crate::specs::Kinds::between, crate::specs::Kinds::interruption))]
fn interruption_of(row: [i64; 9]) -> Option<Interruption>
    ensures { MatchOption result (interruption row ≡ false) (λ i. (interruption row ≡ true) × (i ≡ interruption_of (number row 5) (number row 6) (number row 7))) }
{
    let [.., from, kind, remainder, _] = row;
    match from {
        0 => (kind == 0 && remainder == 0).then_some(Interruption::None),
        1 => Some(Interruption::FromSource {
            kind: within(kind, 2, 31)?,
            remainder: within(remainder, 0, 2)?,
        }),
        2 => Some(Interruption::FromTarget {
            kind: within(kind, 2, 31)?,
            remainder: within(remainder, 0, 2)?,
        }),
        _ => None,
    }
}

fn rule_of(row: [i64; 9]) -> Option<Rule>
    ensures { result ≡ ranged R rule_of 0 row }
{
    let [source, target, min, max, phase, .., function] = row;
    let rule = Rule {
        source: source_of(source)?,
        target: within(target, 1, 31)?,
        min: within(min, 0, 4_000_000)?,
        max: within(max, 0, 4_000_000)?,
        phase: within(phase, 0, 3)?,
        interruption: interruption_of(row)?,
        function: within(function, 0, 17)?,
    };
    (rule.min <= rule.max).then_some(rule)
}

// The Q line of these numbers, where each lies in its range.
pub fn qualifier_of(row: [i64; 6]) -> Option<Qualifier>
    ensures { result ≡ ranged Q qualifier_of 0 row }
{
    let [source, target, kind, method, phase, matching] = row;
    Some(Qualifier {
        source: source_of(source)?,
        target: within(target, 1, 31)?,
        kind: within(kind, 0, 15)?,
        method: within(method, 1, 2)?,
        phase: within(phase, 0, 3)?,
        matching: within(matching, 0, 3)?,
    })
}

fn feature_of(row: [i64; 3], bases: u32) -> Option<Feature>
    ensures { result ≡ ranged F feature_of bases row }
{
    let [kind, position, score] = row;
    Some(Feature {
        kind: within(kind, 2, 31)?,
        position: within(position, 1, bases)?,
        score: scored(score)?,
    })
}

// The S line of these numbers, where each lies in its range, in a sequence of so many bases.
pub fn segment_of(row: [i64; 4], bases: u32) -> Option<Segment>
    ensures { result ≡ ranged S segment_of bases row }
{
    let [kind, start, end, score] = row;
    let segment = Segment {
        kind: within(kind, 0, 15)?,
        start: within(start, 1, bases)?,
        end: within(end, 1, bases)?,
        score: scored(score)?,
    };
    (segment.start <= segment.end).then_some(segment)
}

// What is wrong with a line in the order right after another, by how the other stands to it.
pub fn disorder(order: Ordering) -> Option<Reason>
    ensures { result ≡ disorder order }
{
    match order {
        Ordering::Less => None,
        Ordering::Equal | Ordering::Greater => Some(Reason::Disorder),
    }
}
