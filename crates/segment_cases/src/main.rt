// Segment scores of small cases, one on a line: both methods, every match, a phase of a negative difference, and the ends of the ranges.

#![tactic(auto)]

ghost use Rattle.std.specs.Prelude.{◌≡◌, ℕ, ◌≤◌};
ghost use Rattle.gaze.specs.SegmentScore.{segment_score};
ghost use Rattle.segment_cases.specs.Cases.{segment, cases};

use gaze::{Qualifier, Segment};
use std::io;

fn segment(kind: u32, start: u32, end: u32, score: i64) -> Segment
    ensures { result ≡ segment kind start end score }
{
    Segment {
        kind,
        start,
        end,
        score,
    }
}

#[tactic(auto, unfolding(gaze::specs::Lists::Each))]
fn score_of(q: Qualifier, s: u32, t: u32) -> i64
    requires ordered { s ≤ t }
    requires bounded { t ≤ 4000000 }
    ensures { result ≡ segment_score q s t cases }
{
    let segments = [
        segment(3, 1, 1, 10_000_000),
        segment(2, 10, 12, 100),
        segment(0, 10, 21, -2401),
        segment(1, 10, 21, -2401),
        segment(6, 10, 21, -2401),
        segment(6, 13, 15, 7),
        segment(1, 50, 60, 5),
        segment(5, 100, 110, 500),
        segment(5, 100, 120, 700),
        segment(5, 105, 120, 900),
        segment(4, 4_000_000, 4_000_000, -10_000_000),
    ];
    segment::region_score(&segments, q, s, t)
}

// A Q line that asks for segments of a type.
fn line(kind: u32, method: u32, phase: u32, matching: u32) -> Qualifier {
    Qualifier {
        source: 0,
        target: 1,
        kind,
        method,
        phase,
        matching,
    }
}

fn print_score(rt: &impl Print, q: Qualifier, s: u32, t: u32) -> io::Result<()>
    requires { (s ≤ t) × (t ≤ 4000000) }
{
    let score = score_of(q, s, t);
    println!(rt; "{score}")
}

// One segment, cut by the region; then with a second, far away.
fn shares(rt: &impl Print) -> io::Result<()> {
    print_score(rt, line(0, 1, 3, 0), 10, 12)?;
    print_score(rt, line(1, 1, 3, 0), 10, 12)
}

// Both quotients are rounded down; then one base of three.
fn rates(rt: &impl Print) -> io::Result<()> {
    print_score(rt, line(2, 2, 3, 0), 10, 12)?;
    print_score(rt, line(2, 1, 3, 0), 11, 11)?;
    print_score(rt, line(2, 2, 3, 0), 11, 11)
}

// Segments of one base with the largest and the smallest score, at the ends of the longest sequence.
fn ends(rt: &impl Print) -> io::Result<()> {
    print_score(rt, line(3, 1, 3, 0), 1, 1)?;
    print_score(rt, line(3, 2, 3, 0), 1, 4_000_000)?;
    print_score(rt, line(4, 1, 3, 0), 4_000_000, 4_000_000)?;
    print_score(rt, line(4, 2, 3, 0), 1, 4_000_000)?;
    print_score(rt, line(4, 2, 3, 0), 1, 3_999_999)
}

fn matches(rt: &impl Print) -> io::Result<()> {
    print_score(rt, line(5, 1, 3, 0), 100, 120)?;
    print_score(rt, line(5, 1, 3, 1), 100, 120)?;
    print_score(rt, line(5, 1, 3, 2), 100, 120)?;
    print_score(rt, line(5, 1, 3, 3), 100, 120)?;
    print_score(rt, line(5, 2, 3, 0), 100, 120)?;
    print_score(rt, line(5, 2, 3, 1), 100, 120)?;
    print_score(rt, line(5, 2, 3, 2), 100, 120)?;
    print_score(rt, line(5, 2, 3, 3), 100, 120)?;
    print_score(rt, line(5, 1, 3, 1), 101, 120)
}

// The segment that starts behind the target differs from it by -1, which is reduced to 2, and lifts the score to 0.
fn phases(rt: &impl Print) -> io::Result<()> {
    print_score(rt, line(6, 1, 2, 0), 10, 12)?;
    print_score(rt, line(6, 1, 1, 0), 10, 12)?;
    print_score(rt, line(6, 1, 0, 0), 10, 13)?;
    print_score(rt, line(6, 1, 3, 0), 14, 15)
}

fn main(rt: HostRuntime) -> io::Result<()> {
    shares(&rt)?;
    rates(&rt)?;
    ends(&rt)?;
    matches(&rt)?;
    phases(&rt)
}
