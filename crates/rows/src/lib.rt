// The score of segments over one region, by either method. All of the rows count: which do, another crate says.

#![tactic(auto)]

ghost use Rattle.std.specs.Prelude.{◌≡◌, ◌-◌, ◌<◌, ◌≤◌, nat_abs};
ghost use Rattle.gaze.specs.SegmentScore.{share, largest_share, rate_at, largest_rate, sum_over};
ghost use Rattle.rows.specs.Rows.{Good, scored};
ghost use Rattle.rows.specs.Maximum.{larger_with, can_win};
ghost use Rattle.rows.specs.Peaks.{Edge, Flat};

use gaze::Segment;
use std::marker::Model;

// A segment on the longest sequence, with its rate. To contracts it is the segment.
#[derive(Clone, Copy)]
pub struct Row {
    pub segment: Segment,
    pub rate: i64,
}

impl Model for Row {
    ghost use Rattle.gaze.specs.declared.Segment.{Segment};

    ghost Value = { Segment };

    ghost use Rattle.rows.specs.Rows.{IsRated, row_of};

    ghost view = { λ r. r.segment };

    ghost invariant = { IsRated };

    ghost inverse = { row_of };
}

impl Default for Row {
    fn default() -> Row {
        Row {
            segment: Segment {
                kind: 0,
                start: 1,
                end: 1,
                score: 0,
            },
            rate: 0,
        }
    }
}

impl Row {
    pub fn of(segment: Segment) -> Row
        requires { Good segment }
        ensures { result ≡ segment }
    {
        let bases = segment.end + 1 - segment.start;
        Row {
            segment,
            rate: whole::floor(whole::times(segment.score, 1000), bases),
        }
    }
}

// The larger of a maximum, where there is one yet, and one more number.
fn larger_with(largest: Option<i64>, z: i64) -> i64
    ensures { result ≡ larger_with largest z }
{
    match largest {
        Some(value) => whole::larger(value, z),
        None => z,
    }
}

// ---- method 1

// The share of a segment: divided only where an edge of the region cuts it.
fn share(segment: &Segment, a: u32, b: u32) -> i64
    requires good { Good segment.now }
    requires ordered { a ≤ b }
    ensures { result ≡ share a b segment.now }
{
    if b < segment.start || segment.end < a {
        return 0;
    }
    if a <= segment.start && segment.end <= b {
        return segment.score;
    }
    let overlap = b.min(segment.end) + 1 - a.max(segment.start);
    let size = segment.end + 1 - segment.start;
    whole::floor(whole::times(segment.score, overlap), size)
}

// Whether a share of `score` can change the maximum: no share is above both its score and 0.
fn can_win(largest: Option<i64>, score: i64) -> bool
    ensures { result ≡ can_win largest score }
{
    match largest {
        Some(value) => value < 0 || value < score,
        None => true,
    }
}

// The largest share among the rows.
pub fn best_share(rows: &[Row], a: u32, b: u32) -> i64
    requires { a ≤ b }
    ensures { result ≡ largest_share a b rows.now }
{
    let mut largest = None;
    for row in rows {
        if can_win(largest, row.segment.score) {
            largest = Some(larger_with(largest, share(&row.segment, a, b)));
        }
    }
    largest.unwrap_or(0)
}

// ---- method 2

// What a row gives at the base `x`: its rate where it holds `x`, else 0.
fn rate_at(row: &Row, x: u32) -> i64
    ensures { result ≡ rate_at x row.now }
{
    if row.segment.start <= x && x <= row.segment.end {
        row.rate
    } else {
        0
    }
}

// The next base at which a segment gives something else than at `x`; `to` where there is none.
fn edge(segment: &Segment, x: u32, to: u32) -> u32
    requires good { Good segment.now }
    requires ahead { x < to }
    ensures { Edge segment.now x result }
{
    if x < segment.start {
        segment.start
    } else if x <= segment.end {
        segment.end + 1
    } else {
        to
    }
}

// The largest rate at a base, and the base up to which it stays the same.
#[derive(Clone, Copy)]
pub struct Plateau {
    pub value: i64,
    pub next: u32,
}

// The plateau of the rows at `x`.
pub fn flat_from(rows: &[Row], x: u32, to: u32) -> Plateau
    requires { x < to }
    ensures flat { Flat rows.now x to result.value result.next }
    ensures small { nat_abs result.value ≤ 10000000000 }
{
    let mut largest = None;
    let mut next = to;
    for row in rows {
        largest = Some(larger_with(largest, rate_at(row, x)));
        next = next.min(edge(&row.segment, x, to));
    }
    Plateau {
        value: largest.unwrap_or(0),
        next,
    }
}

// The sum of the largest rates from `from` to `to`, which is left out: from plateau to plateau, never base by base.
pub fn sum_rates(rows: &[Row], from: u32, to: u32) -> i64
    requires ordered { from ≤ to }
    requires bounded { to ≤ 4000001 }
    ensures { result ≡ sum_over (largest_rate rows.now) from (to - from) }
{
    let mut at = from;
    let mut sum = 0;
    // A `while`, since it jumps from plateau to plateau and counts nothing.
    while at < to {
        let plateau = flat_from(rows, at, to);
        let gained = whole::times(plateau.value, plateau.next - at);
        sum = whole::plus(sum, gained);
        at = plateau.next;
    }
    sum
}

// ---- either method

// The score of the rows, which are all chosen, by either method.
pub fn score_rows(rows: &[Row], method: u32, s: u32, t: u32) -> i64
    requires ordered { s ≤ t }
    requires bounded { t ≤ 4000000 }
    ensures { result ≡ scored method s t rows.now }
{
    if method == 1 {
        return best_share(rows, s, t);
    }
    whole::floor(sum_rates(rows, s, t + 1), 1000)
}
