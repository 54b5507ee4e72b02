// Refusal 6: looks for a Q line without its rule, and for a rule whose function has no point.

#![tactic(auto)]

ghost use Rattle.std.specs.Prelude.{◌≡◌, ◌&&◌, ◌||◌, Bool, eqb};
ghost use Rattle.std.specs.List.{list_any};
ghost use Rattle.std.specs.Fn.{FnReturnsAt};
ghost use Rattle.links.specs.Links.{lines_in, has_rule, has_points, linked};

use gaze::{Point, Qualifier, Rule};
use group::Placed;
use refusal::{Reason, Refusal};

fn has_rule(rules: &[Placed<Rule>], source: u32, target: u32) -> bool
    ensures { result ≡ list_any (λ p. eqb p.line.source source && eqb p.line.target target) rules.now }
{
    rules.iter().any(|rule| rule.line.source == source && rule.line.target == target)
}

fn has_point(points: &[Placed<Point>], function: u32) -> bool
    ensures { result ≡ list_any (λ p. eqb p.line.function function) points.now }
{
    points.iter().any(|point| point.line.function == function)
}

// Function 0 is zero and function 17 is shipped: they need no point.
#[tactic(auto, using(crate::proofs::Sought::some_line), unfolding(crate::specs::Links::has_points))]
fn has_points(points: &[Placed<Point>], function: u32) -> bool
    ensures { result ≡ has_points (lines_in points.now) function }
{
    function == 0 || function == 17 || has_point(points, function)
}

// Refuses the first line that lacks what it needs.
fn linked<T: Copy, F: Fn(&T) -> bool>(lines: &[Placed<T>], has: F) -> Result<(), Refusal>
    requires { F.IsAlwaysCallable has }
    ensures { (test : T → Bool) → ((line : T) (passes : Bool) → FnReturnsAt F.Fn has line passes → passes ≡ test line) → result ≡ linked test lines.now }
{
    for placed in lines {
        if !has(&placed.line) {
            return Err(Refusal {
                reason: Reason::Link,
                place: placed.place,
            });
        }
    }
    Ok(())
}

// The first Q line that has no rule is refused.
pub fn find_rules(qualifiers: &[Placed<Qualifier>], rules: &[Placed<Rule>]) -> Result<(), Refusal>
    ensures { result ≡ linked (λ q. has_rule (lines_in rules.now) q.source q.target) qualifiers.now }
{
    linked(
        qualifiers,
        |qualifier| has_rule(rules, qualifier.source, qualifier.target),
    )
}

// The first R line whose function has no point is refused.
pub fn find_points(rules: &[Placed<Rule>], points: &[Placed<Point>]) -> Result<(), Refusal>
    ensures { result ≡ linked (λ r. has_points (lines_in points.now) r.function) rules.now }
{
    linked(rules, |rule| has_points(points, rule.function))
}
