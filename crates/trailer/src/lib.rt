// Reads the trailer of a sheet: its last line, which says where the groups begin.

#![tactic(auto)]

ghost use Rattle.std.specs.Prelude.{◌≡◌, ◌≤◌, length};
ghost use Rattle.trailer.specs.Trailer.{begins, last_begin, offset, trailer_of};

use text::read_line;

// Where the groups P, R, Q, F and S begin, and the T line itself.
#[derive(Clone, Copy)]
pub struct Trailer {
    pub p: usize,
    pub r: usize,
    pub q: usize,
    pub f: usize,
    pub s: usize,
    pub top: usize,
}

// Whether a line begins at a place.
fn begins(bytes: &[u8], place: usize) -> bool
    requires { place ≤ length bytes.now }
    ensures { result ≡ begins bytes.now place }
{
    place == 0 || bytes[place - 1] == b'\n'
}

// Where the last line begins of those that begin at a place or before it.
fn last_begin(bytes: &[u8], place: usize) -> usize
    requires { place ≤ length bytes.now }
    ensures begins { result ≡ last_begin bytes.now place }
    ensures before { result ≤ place }
{
    for start in (1..=place).rev() {
        if begins(bytes, start) {
            return start;
        }
    }
    0
}

// The offset that a number of the T line is, where the offset before it is `low` and the T line begins at `top`, if it is right.
fn offset(bytes: &[u8], top: usize, low: usize, number: i64) -> Option<usize>
    requires { (top ≤ length bytes.now) × (length bytes.now ≤ 65536) }
    ensures { result ≡ offset bytes.now top low number }
{
    let place = usize::try_from(number).ok()?;
    if (low..=top).contains(&place) && begins(bytes, place) {
        return Some(place);
    }
    None
}

#[tactic(auto, unfolding(crate::specs::Trailer::trailer_of, crate::specs::Trailer::offsets_of))]
pub fn read_trailer(bytes: &[u8]) -> Option<Trailer>
    requires { (1 ≤ length bytes.now) × (length bytes.now ≤ 65536) }
    ensures { result ≡ trailer_of bytes.now }
{
    let last = bytes.len() - 1;
    if bytes[last] != b'\n' {
        return None;
    }
    let top = last_begin(bytes, last);
    let row = read_line::<5>(&bytes[top..last], b'T', b' ')?;
    let p = offset(bytes, top, 1, row[0])?;
    let r = offset(bytes, top, p, row[1])?;
    let q = offset(bytes, top, r, row[2])?;
    let f = offset(bytes, top, q, row[3])?;
    let s = offset(bytes, top, f, row[4])?;
    Some(Trailer { p, r, q, f, s, top })
}
