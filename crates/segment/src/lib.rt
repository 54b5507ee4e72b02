// The segment score of a Q line over one region, from the segments of a sheet: which of them count, and their score.

#![tactic(auto)]

ghost use Rattle.std.specs.Prelude.{◌≡◌, ◌≤◌};
ghost use Rattle.gaze.specs.SegmentScore.{meets_phase, meets_match, asked, segment_score};
ghost use Rattle.segment.specs.Choice.{fits, Region};

use arrayvec::ArrayVec;
use gaze::{Qualifier, Segment};
use rows::Row;

// ---- which segments count

// Whether a segment meets the phase for the target position `t`. The sum with 2 * start stands for the difference.
pub fn meets_phase(segment: &Segment, phase: u32, t: u32) -> bool
    requires bounded { t ≤ 4000000 }
    requires start_bounded { segment.now.start ≤ 4000000 }
    ensures { result ≡ meets_phase phase t segment.now }
{
    phase == 3 || (t + 2 * segment.start) % 3 == phase
}

// Whether a segment starts at the source `s`, ends at the target `t`, or both, as the match asks.
pub fn meets_match(segment: &Segment, matching: u32, s: u32, t: u32) -> bool
    ensures { result ≡ meets_match matching s t segment.now }
{
    let starts = matching == 0 || matching == 2 || segment.start == s;
    let ends = matching == 0 || matching == 1 || segment.end == t;
    starts && ends
}

// Whether a segment is of the type asked for and meets the phase for the target position `t`.
pub fn fits(segment: &Segment, kind: u32, phase: u32, t: u32) -> bool
    requires bounded { t ≤ 4000000 }
    requires start_bounded { segment.now.start ≤ 4000000 }
    ensures { result ≡ fits kind phase t segment.now }
{
    segment.kind == kind && meets_phase(segment, phase, t)
}

fn asked(segment: &Segment, q: Qualifier, s: u32, t: u32) -> bool
    requires bounded { t ≤ 4000000 }
    requires start_bounded { segment.now.start ≤ 4000000 }
    ensures { result ≡ asked q s t segment.now }
{
    fits(segment, q.kind, q.phase, t) && meets_match(segment, q.matching, s, t)
}

// ---- one region

// The segment score of the Q line `q` for the region from `s` to `t`.
pub fn region_score(segments: &[Segment], q: Qualifier, s: u32, t: u32) -> i64
    requires { Region segments.now s t }
    ensures { result ≡ segment_score q s t segments.now }
{
    let mut chosen: ArrayVec<Row, 1024> = ArrayVec::new();
    for segment in segments {
        if asked(segment, q, s, t) {
            chosen.push(Row::of(*segment));
        }
    }
    rows::score_rows(&chosen, q.method, s, t)
}
