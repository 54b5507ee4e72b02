// Reads a sheet, or refuses it with a reason and a place.

#![tactic(auto)]

ghost use Rattle.std.specs.Prelude.{◌≡◌, ◌≤◌, length, Some};
ghost use Rattle.kinds.specs.Kinds.{most_of};
ghost use Rattle.group.specs.Group.{items_of};
ghost use Rattle.links.specs.Links.{lines_in};
ghost use Rattle.trailer.specs.Trailer.{trailer_of};
ghost use Rattle.sheet.specs.Reading.{bases_of, group_at, of_groups, reading};

use arrayvec::ArrayVec;
use gaze::{Feature, Point, Qualifier, Rule, Segment, Sheet};
use group::{Placed, read_group_into};
use kinds::{Length, Limited};
use links::{find_points, find_rules};
use refusal::{Reason, Refusal};
use trailer::{Trailer, read_trailer};

// The group that stands from one place up to another, in a sequence of so many bases.
fn group_at<L: Limited, const N: usize>(
    bytes: &[u8],
    from: usize,
    to: usize,
    bases: u32,
) -> Result<ArrayVec<Placed<L>, N>, Refusal>
    requires room { most_of L.letter ≤ N }
    requires inside { (from ≤ to) × (to ≤ length bytes.now) × (length bytes.now ≤ 65536) }
    ensures { items_of result ≡ group_at L.letter L.of L.keys bases bytes.now from to }
{
    let mut group = ArrayVec::new();
    read_group_into(&bytes[from..to], from, bases, &mut group)?;
    Ok(group)
}

// The L line's number; 0 where there is no such line.
fn bases_of(lengths: &ArrayVec<Placed<Length>, 1>) -> u32
    ensures { result ≡ bases_of lengths.now.items }
{
    match lengths.as_slice() {
        [length, ..] => length.line.bases,
        [] => 0,
    }
}

fn lines_in<T: Copy + Default, const N: usize>(placed: &ArrayVec<Placed<T>, N>) -> ArrayVec<T, N>
    ensures { result.items ≡ lines_in placed.now.items }
{
    let mut lines = ArrayVec::new();
    for placed in placed.as_slice() {
        lines.push(placed.line);
    }
    lines
}

// L stands from the top up to the first offset, each other group from its offset up to the next.
#[tactic(auto, using(trailer::proofs::Offsets::rising), unfolding(crate::specs::Reading::of_groups))]
fn read_groups(bytes: &[u8], trailer: Trailer) -> Result<Sheet, Refusal>
    requires short { length bytes.now ≤ 65536 }
    requires trailer { trailer_of bytes.now ≡ Some trailer }
    ensures { result ≡ of_groups bytes.now trailer }
{
    let Trailer { p, r, q, f, s, top } = trailer;
    let lengths = group_at::<Length, 1>(bytes, 0, p, 0)?;
    let points = group_at::<Point, 512>(bytes, p, r, 0)?;
    let rules = group_at::<Rule, 256>(bytes, r, q, 0)?;
    let qualifiers = group_at::<Qualifier, 256>(bytes, q, f, 0)?;
    let bases = bases_of(&lengths);
    let features = group_at::<Feature, 1024>(bytes, f, s, bases)?;
    let segments = group_at::<Segment, 1024>(bytes, s, top, bases)?;
    find_rules(qualifiers.as_slice(), rules.as_slice())?;
    find_points(rules.as_slice(), points.as_slice())?;
    Ok(Sheet {
        bases,
        points: lines_in(&points),
        rules: lines_in(&rules),
        qualifiers: lines_in(&qualifiers),
        features: lines_in(&features),
        segments: lines_in(&segments),
    })
}

#[tactic(auto, unfolding(crate::specs::Reading::reading))]
pub fn read(bytes: &[u8]) -> Result<Sheet, Refusal>
    ensures { result ≡ reading bytes.now }
{
    if bytes.is_empty() || bytes.len() > 65536 {
        return Err(Refusal {
            reason: Reason::Size,
            place: 0,
        });
    }
    let Some(trailer) = read_trailer(bytes) else {
        return Err(Refusal {
            reason: Reason::Trailer,
            place: 0,
        });
    };
    read_groups(bytes, trailer)
}
