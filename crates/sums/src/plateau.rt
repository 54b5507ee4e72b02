// How far a plateau goes: as long as one row gives the largest rate and none gives more, wherever others start or end.

ghost use Rattle.std.specs.Prelude.{◌≡◌, ℕ, ◌≤◌, ◌<◌, pos, ◌≤ℤ◌};
ghost use Rattle.gaze.specs.SegmentScore.{largest_rate};
ghost use Rattle.rows.specs.Peaks.{Flat};
ghost use Rattle.sums.specs.Plateau.{Spanned};

use rows::{Plateau, Row};

// Of the bases from some base on: before `until` some row gives the value, before `limit` none gives more.
#[derive(Clone, Copy)]
pub struct Span {
    pub until: u32,
    pub limit: u32,
}

// One more row. One that gives less than a value that is not below 0 changes nothing, wherever it starts or ends.
fn span_on(span: Span, x: u32, value: i64, row: &Row) -> Span
    requires { pos 0 ≤ℤ value }
    ensures { Spanned x value row.now span result }
{
    let start = row.segment.start;
    let end = row.segment.end;
    if value < row.rate && x <= end {
        return Span {
            until: span.until,
            limit: span.limit.min(start),
        };
    }
    if value == row.rate && start <= x {
        return Span {
            until: span.until.max(end + 1),
            limit: span.limit,
        };
    }
    span
}

// A base up to which, from `x` on, the largest rate is `value`; it may be `x` itself.
fn level_to(rows: &[Row], x: u32, value: i64, ahead: u32) -> u32
    requires { pos 0 ≤ℤ value }
    ensures within { result ≤ ahead }
    ensures same { (y : ℕ) → x ≤ y → y < result → largest_rate rows.now y ≡ value }
{
    let mut span = Span {
        until: x,
        limit: ahead,
    };
    for row in rows {
        span = span_on(span, x, value, row);
    }
    span.until.min(span.limit)
}

// The end of a plateau: where the row that gives the largest rate ends or a better one starts, and not where any other starts or ends.
pub fn lengthen(rows: &[Row], x: u32, flat: Plateau, ahead: u32) -> u32
    requires { Flat rows.now x ahead flat.value flat.next }
    ensures { Flat rows.now x ahead flat.value result }
{
    if flat.value < 0 {
        return flat.next;
    }
    flat.next.max(level_to(rows, x, flat.value, ahead))
}
