// Reads the lines of one group, whichever it is, up to the first line at fault.

#![tactic(auto)]

ghost use Rattle.std.specs.Prelude.{◌≡◌, [], ◌+◌, ◌<◌, ◌≤◌, length, IfOk};
ghost use Rattle.arrayvec.specs.ArrayVec.{array_vec_len};
ghost use Rattle.kinds.specs.Kinds.{most_of};
ghost use Rattle.text.specs.Lines.{lines};
ghost use Rattle.group.specs.Group.{in_turn, read, lines_before, outcome_of, items_of};

use arrayvec::ArrayVec;
use kinds::{Limited, Line, disorder};
use refusal::{Reason, Refusal};
use text::find;

// A line, and its offset in the sheet.
#[derive(Clone, Copy, Default)]
pub struct Placed<T> {
    pub line: T,
    pub place: u64,
}

// What a line is right after the lines `done`, by what its bytes say: it may be one too many, or out of order.
#[tactic(auto, using(crate::proofs::Turns::in_turn_is, crate::proofs::Turns::last_is), unfolding(crate::specs::Group::in_turn))]
fn in_turn<L: Line, const N: usize>(
    done: &ArrayVec<Placed<L>, N>,
    most: usize,
    line: Result<L, Reason>,
) -> Result<L, Reason>
    requires most { most ≡ most_of L.letter }
    requires room { most ≤ N }
    ensures line { result ≡ in_turn (most_of L.letter) L.keys done.now.items line }
    ensures room { IfOk result (λ _. array_vec_len done.now < N) }
{
    if let Err(Reason::Malformed) = line {
        return line;
    }
    if done.len() >= most {
        return Err(Reason::Crowded);
    }
    let line = line?;
    if let Some(before) = done.as_slice().last() {
        if let Some(reason) = disorder(before.line.order(&line)) {
            return Err(reason);
        }
    }
    Ok(line)
}

// Reads the lines of a group, which may have `most` lines, whatever the vector has room for.
#[tactic(auto, using(crate::proofs::Turns::end_low, crate::proofs::Turns::end_high, crate::proofs::Turns::read_end, crate::proofs::Turns::read_refused, crate::proofs::Turns::read_on, crate::proofs::Turns::before_end, crate::proofs::Turns::before_refused, crate::proofs::Turns::before_on))]
fn read_lines<L: Line, const N: usize>(
    bytes: &[u8],
    offset: usize,
    bases: u32,
    most: usize,
    group: &mut ArrayVec<Placed<L>, N>,
) -> Result<(), Refusal>
    requires most { most ≡ most_of L.letter }
    requires room { most ≤ N }
    requires short { offset + length bytes.now ≤ 65536 }
    ensures outcome { outcome_of result group.new.items ≡ read L.letter L.of L.keys bases offset [] (lines bytes.now) }
    ensures before { group.new.items ≡ lines_before L.letter L.of L.keys bases offset [] (lines bytes.now) }
{
    group.clear();
    let mut place = 0;
    // Written as a `while`, since a refusal needs the place of its line: `split_inclusive` gives no places, and leaves each line its LF.
    while place < bytes.len() {
        let end = find(bytes, place, b'\n');
        let at = (offset + place) as u64;
        // A `match` and not `map_err`, since the clause of its closure did not unfold in the proof.
        match in_turn(group, most, L::read(&bytes[place..end], bases)) {
            Ok(line) => group.push(Placed { line, place: at }),
            Err(reason) => return Err(Refusal { reason, place: at }),
        }
        place = end + 1;
    }
    Ok(())
}

// Reads the lines of a group, which stand in the sheet from `offset` on, and leaves in the vector those before the first line at fault.
pub fn read_group_into<L: Limited, const N: usize>(
    bytes: &[u8],
    offset: usize,
    bases: u32,
    group: &mut ArrayVec<Placed<L>, N>,
) -> Result<(), Refusal>
    requires room { most_of L.letter ≤ N }
    requires short { offset + length bytes.now ≤ 65536 }
    ensures outcome { outcome_of result group.new.items ≡ read L.letter L.of L.keys bases offset [] (lines bytes.now) }
    ensures before { group.new.items ≡ lines_before L.letter L.of L.keys bases offset [] (lines bytes.now) }
{
    read_lines(bytes, offset, bases, L::most(), group)
}

// The same, given back in a vector that has room for just as many lines as the group may have.
pub fn read_group<L: Line, const N: usize>(
    bytes: &[u8],
    offset: usize,
    bases: u32,
) -> Result<ArrayVec<Placed<L>, N>, Refusal>
    requires room { N ≡ most_of L.letter }
    requires short { offset + length bytes.now ≤ 65536 }
    ensures { items_of result ≡ read L.letter L.of L.keys bases offset [] (lines bytes.now) }
{
    let mut group = ArrayVec::new();
    read_lines(bytes, offset, bases, N, &mut group)?;
    Ok(group)
}

#[cfg(test)]
mod tests {
    use super::*;
    use gaze::Feature;
    use std::test::Fail;

    #[test]
    fn a_group_is_given_back_or_refused_at_its_line() -> Result<(), Fail> {
        let Ok(group) = read_group::<Feature, 1024>(b"F 2 10 1500\nF 3 12 -700\n", 40, 100) else {
            return Err("two lines in order are refused".into());
        };
        let [first, second] = group.as_slice() else {
            return Err("there are not two lines".into());
        };
        if first.place != 40 || second.place != 52 {
            return Err("a line's place is not that of its first byte".into());
        }
        if second.line.position != 12 || second.line.score != -700 {
            return Err("the second line is another".into());
        }
        let Err(refusal) = read_group::<Feature, 1024>(b"F 2 10 1500\nF 2 10 1500\n", 40, 100)
        else {
            return Err("a line is accepted twice".into());
        };
        if refusal.reason != Reason::Disorder || refusal.place != 52 {
            return Err("the second line is refused for another reason, or elsewhere".into());
        }
        Ok(())
    }
}
