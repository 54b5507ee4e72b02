// The length penalty of a function at a distance. The points of functions 1 to 16 stand in strict order by function and distance, so that a
// function's are those from `first[f]` to `first[f + 1]`, the last left out. Function 17 is a table.

#![tactic(auto)]

mod intron;

ghost use Rattle.std.specs.Prelude.{◌≡◌, ◌<◌, ◌≤◌, map, nat_abs};
ghost use Rattle.gaze.specs.Lists.{Each};
ghost use Rattle.gaze.specs.Ranges.{Group, PointRanges, point_keys};
ghost use Rattle.gaze.specs.Penalty.{on_line, interpolated, intron_penalty, penalty};
ghost use Rattle.penalty.specs.Intron.{IntronTable};
ghost use Rattle.sorted.specs.Sorted.{Rising};

use gaze::Point;
use std::marker::Model;

// The points of a sheet, with where each function's begin, and function 17's table. To contracts it is the list of the points.
#[derive(Drop)]
pub struct Curves<'a> {
    points: &'a [Point],
    first: [usize; 18],
    intron: [i64; 1024],
}

impl<'a> Model for Curves<'a> {
    ghost use Rattle.std.specs.Prelude.{List};
    ghost use Rattle.gaze.specs.declared.Point.{Point};

    ghost Value = { List Point };

    ghost use Rattle.penalty.specs.Curves.{IsTabled};

    ghost view = { λ c. c.points.now };

    ghost invariant = { IsTabled };
}

impl<'a> Curves<'a> {
    pub fn of(points: &'a [Point]) -> Curves<'a>
        requires { Group 512 PointRanges point_keys points.now }
        ensures { result ≡ points.now }
    {
        Curves {
            points,
            first: sorted::first_rows(points, |point| point.function as usize),
            intron: intron_table(),
        }
    }

    // The penalty of a function at the distance `d`.
    pub fn penalty_at(&self, function: u32, d: u32) -> i64
        requires known { function ≤ 17 }
        requires bounded { d ≤ 4000000 }
        ensures value { result ≡ penalty self.now function d }
        ensures small { nat_abs result ≤ 80000010000000 }
    {
        if function == 0 {
            return 0;
        }
        if function == 17 {
            return intron_at(&self.intron, d);
        }
        let f = function as usize;
        curve_at(&self.points[self.first[f]..self.first[f + 1]], d)
    }
}

fn intron_table() -> [i64; 1024]
    ensures { IntronTable result }
{
    intron::INTRON
}

fn intron_at(intron: &[i64; 1024], d: u32) -> i64
    requires { IntronTable intron.now }
    ensures { result ≡ intron_penalty d }
{
    intron[d.min(1023) as usize]
}

// The line through `p` and `q`, at `d`.
fn on_line(p: &Point, q: &Point, d: u32) -> i64
    requires from { p.now.distance < d }
    requires to { d ≤ q.now.distance }
    requires ranged { PointRanges p.now × PointRanges q.now }
    ensures { result ≡ on_line p.now q.now d }
{
    let rise = whole::minus(q.penalty, p.penalty);
    let part = whole::floor(whole::times(rise, d - p.distance), q.distance - p.distance);
    whole::plus(p.penalty, part)
}

// The penalty that the points of one function give. The ends are flat.
fn curve_at(points: &[Point], d: u32) -> i64
    requires rising { Rising (map (λ p. p.distance) points.now) }
    requires ranged { Each PointRanges points.now }
    ensures { result ≡ interpolated points.now d }
{
    let (before, after) = points.split_at(points.partition_point(|point| point.distance < d));
    match (before.last(), after.first()) {
        (Some(p), Some(q)) => on_line(p, q, d),
        (Some(last), None) => last.penalty,
        (None, Some(first)) => first.penalty,
        (None, None) => 0,
    }
}
