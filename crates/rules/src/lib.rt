// Rules: which one a pair of candidates has, by a table, and whether the pair meets all of it. Interruption, from the source or from the
// target, is one comparison for each pair: of the source's position with the last interrupter before the target.

#![tactic(auto)]

ghost use Rattle.std.specs.Prelude.{◌≡◌, ◌<◌, ◌≤◌, IfSome};
ghost use Rattle.gaze.specs.Lists.{first_of};
ghost use Rattle.gaze.specs.Step.{meets, meets_distance, meets_phase, interrupted};
ghost use Rattle.gaze.specs.Ranges.{Group, RuleRanges, rule_keys, FeatureRanges, feature_keys, InterruptionRanges};
ghost use Rattle.rules.specs.Rules.{of_types, pair_number};

use gaze::{Feature, Interruption, Rule};
use std::marker::Model;

// The rules of a sheet. At 32 × source type + target type stands which of them the pair has. To contracts it is the list of the rules.
#[derive(Drop)]
pub struct Rules<'a> {
    rules: &'a [Rule],
    table: [Option<u8>; 1024],
}

impl<'a> Model for Rules<'a> {
    ghost use Rattle.std.specs.Prelude.{List};
    ghost use Rattle.gaze.specs.declared.Rule.{Rule};

    ghost Value = { List Rule };

    ghost use Rattle.rules.specs.Table.{IsTabled};

    ghost view = { λ r. r.rules.now };

    ghost invariant = { IsTabled };
}

impl<'a> Rules<'a> {
    pub fn of(rules: &'a [Rule]) -> Rules<'a>
        requires { Group 256 RuleRanges rule_keys rules.now }
        ensures { result ≡ rules.now }
    {
        let mut table = [None; 1024];
        // No two rules are of one pair, so none takes another's place.
        for (i, rule) in rules.iter().enumerate() {
            table[pair_of(rule.source, rule.target)] = Some(i as u8);
        }
        Rules { rules, table }
    }

    // The rule of a pair of types, if there is one.
    pub fn of_types(&self, source: u32, target: u32) -> Option<Rule>
        requires source_type { source < 32 }
        requires target_type { target < 32 }
        ensures rule { result ≡ first_of (of_types source target) self.now }
        ensures ranged { IfSome result RuleRanges }
    {
        let i = self.table[pair_of(source, target)]?;
        Some(self.rules[i as usize])
    }
}

// A target, with the last position before it at which a feature of each type stands at each remainder modulo 3; 0, beyond no source, where there
// is none. To contracts it is the sheet's features and the target.
#[derive(Drop)]
pub struct Interrupters<'a> {
    features: &'a [Feature],
    target: Feature,
    // Without an `Option`, which was not plainer: positions begin at 1, so that with 0 for none one comparison decides.
    last: [[u32; 3]; 32],
}

impl<'a> Model for Interrupters<'a> {
    ghost use Rattle.rules.specs.Interrupters.{Ended};

    ghost Value = { Ended };

    ghost use Rattle.rules.specs.LastSeen.{IsLastSeen};

    ghost view = { λ i. record { features = i.features.now; target = i.target } };

    ghost invariant = { IsLastSeen };
}

impl<'a> Interrupters<'a> {
    pub fn before(features: &'a [Feature], target: Feature) -> Interrupters<'a>
        requires { Group 1024 (FeatureRanges 4000000) feature_keys features.now }
        ensures { result ≡ record { features = features.now; target = target } }
    {
        let count = features.partition_point(|feature| feature.position < target.position);
        let mut last = [[0; 3]; 32];
        for feature in &features[..count] {
            last[feature.kind as usize][(feature.position % 3) as usize] = feature.position;
        }
        Interrupters {
            features,
            target,
            last,
        }
    }

    // Whether a source and the target meet all of a rule.
    pub fn meets(&self, rule: &Rule, source: &Feature) -> bool
        requires ranged { RuleRanges rule.now }
        requires ordered { source.now.position ≤ self.now.target.position }
        requires within { self.now.target.position ≤ 4000000 }
        ensures { result ≡ meets self.now.features rule.now source.now self.now.target }
    {
        let distance = self.target.position - source.position;
        meets_distance(rule, distance)
            && meets_phase(rule, distance)
            && !self.interrupted(rule.interruption, source)
    }

    // Whether one stands between: the last one before the target lies beyond the source.
    fn interrupted(&self, interruption: Interruption, source: &Feature) -> bool
        requires ranged { InterruptionRanges interruption }
        requires ordered { source.now.position ≤ self.now.target.position }
        requires within { self.now.target.position ≤ 4000000 }
        ensures { result ≡ interrupted self.now.features interruption source.now self.now.target }
    {
        let s = source.position;
        match interruption {
            Interruption::None => false,
            Interruption::FromSource { kind, remainder } => {
                s < self.last[kind as usize][((s + remainder) % 3) as usize]
            }
            // Twice the remainder is added to the target's position: modulo 3 that takes it away.
            Interruption::FromTarget { kind, remainder } => {
                s < self.last[kind as usize][((self.target.position + 2 * remainder) % 3) as usize]
            }
        }
    }
}

fn pair_of(source: u32, target: u32) -> usize
    ensures { result ≡ pair_number source target }
{
    32 * source as usize + target as usize
}

fn meets_distance(rule: &Rule, distance: u32) -> bool
    ensures { result ≡ meets_distance rule.now distance }
{
    rule.min <= distance && distance <= rule.max
}

fn meets_phase(rule: &Rule, distance: u32) -> bool
    ensures { result ≡ meets_phase rule.now distance }
{
    rule.phase == 3 || distance % 3 == rule.phase
}
