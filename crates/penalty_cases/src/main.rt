// Penalties at distances before, at, between and beyond points: each is compared with the number that it has to be.

#![tactic(auto)]

ghost use Rattle.std.specs.Prelude.{◌≡◌, ◌≤◌};
ghost use Rattle.gaze.specs.Penalty.{penalty};
ghost use Rattle.penalty_cases.specs.Cases.{point, points};

use gaze::Point;
use penalty::Curves;
use std::io;

fn point(function: u32, distance: u32, penalty: i64) -> Point
    ensures { result ≡ point function distance penalty }
{
    Point {
        function,
        distance,
        penalty,
    }
}

fn value(function: u32, d: u32) -> i64
    requires known { function ≤ 17 }
    requires bounded { d ≤ 4000000 }
    ensures { result ≡ penalty points function d }
{
    let points = [
        point(1, 0, 0),
        point(1, 3, -10),
        point(2, 7, 250),
        point(3, 10, -5),
        point(3, 4000000, 9999),
    ];
    Curves::of(&points).penalty_at(function, d)
}

fn compare(rt: &impl Print, function: u32, d: u32, right: i64) -> io::Result<()>
    requires { (function ≤ 17) × (d ≤ 4000000) }
{
    let verdict = if value(function, d) == right {
        "right"
    } else {
        "wrong"
    };
    println!(rt; "function {function} at {d}: {verdict}")
}

fn main(rt: HostRuntime) -> io::Result<()> {
    compare(&rt, 0, 4000000, 0)?;
    compare(&rt, 1, 0, 0)?;
    compare(&rt, 1, 1, -4)?;
    compare(&rt, 1, 2, -7)?;
    compare(&rt, 1, 3, -10)?;
    compare(&rt, 1, 4, -10)?;
    compare(&rt, 1, 4000000, -10)?;
    compare(&rt, 2, 0, 250)?;
    compare(&rt, 2, 7, 250)?;
    compare(&rt, 2, 4000000, 250)?;
    compare(&rt, 3, 0, -5)?;
    compare(&rt, 3, 10, -5)?;
    compare(&rt, 3, 11, -5)?;
    compare(&rt, 3, 2000000, 4996)?;
    compare(&rt, 3, 4000000, 9999)?;
    compare(&rt, 4, 1, 0)?;
    compare(&rt, 17, 0, 9000)?;
    compare(&rt, 17, 20, 6000)?;
    compare(&rt, 17, 48, 1500)?;
    compare(&rt, 17, 100, 191)?;
    compare(&rt, 17, 1022, 3995)?;
    compare(&rt, 17, 1023, 4000)?;
    compare(&rt, 17, 1024, 4000)?;
    compare(&rt, 17, 4000000, 4000)?;
    Ok(())
}
