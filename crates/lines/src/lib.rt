// Q lines by the pair of types that they qualify: where each pair's lines begin and end, so that a step looks at its own lines only.

#![tactic(auto)]

ghost use Rattle.std.specs.Prelude.{◌≡◌, ◌<◌, ◌≤◌, length};
ghost use Rattle.gaze.specs.Lists.{keep, Each};
ghost use Rattle.gaze.specs.Ranges.{Group, QualifierRanges, qualifier_keys};
ghost use Rattle.lines.specs.Lines.{of_types, pair_number};

use gaze::Qualifier;
use std::marker::Model;

// The Q lines of a sheet. At 32 × source + target stands where the lines of that pair begin; the entry after it is where they end. To contracts
// it is the list of the lines.
#[derive(Drop)]
pub struct Lines<'a> {
    qualifiers: &'a [Qualifier],
    first: [usize; 1025],
}

impl<'a> Model for Lines<'a> {
    ghost use Rattle.std.specs.Prelude.{List};
    ghost use Rattle.gaze.specs.declared.Qualifier.{Qualifier};

    ghost Value = { List Qualifier };

    ghost use Rattle.lines.specs.Table.{IsTabled};

    ghost view = { λ l. l.qualifiers.now };

    ghost invariant = { IsTabled };
}

impl<'a> Lines<'a> {
    pub fn of(qualifiers: &'a [Qualifier]) -> Lines<'a>
        requires { Group 256 QualifierRanges qualifier_keys qualifiers.now }
        ensures { result ≡ qualifiers.now }
    {
        Lines {
            qualifiers,
            first: sorted::first_rows(qualifiers, |line| pair_of(line.source, line.target)),
        }
    }

    // The lines of a pair of types.
    pub fn of_types(&self, source: u32, target: u32) -> &[Qualifier]
        requires source_type { source < 32 }
        requires target_type { target < 32 }
        ensures lines { result.now ≡ keep (of_types source target) self.now }
        ensures few { length result.now ≤ 256 }
        ensures ranged { Each QualifierRanges result.now }
    {
        let pair = pair_of(source, target);
        &self.qualifiers[self.first[pair]..self.first[pair + 1]]
    }
}

fn pair_of(source: u32, target: u32) -> usize
    ensures { result ≡ pair_number source target }
{
    32 * source as usize + target as usize
}
