// Segments grouped once by type and by the remainder of their start, so that a Q line finds the rows that can count for a target in one place; and of
// such a slot the rows that start at a source or end at a target.

#![tactic(auto)]

ghost use Rattle.std.specs.List.Sorted.{IsPartitionPoint};
ghost use Rattle.std.specs.Prelude.{◌≡◌, true, false, ltb, [], ◌++◌, ◌+◌, ◌<◌, ◌≤◌, length, replicate, filter};
ghost use Rattle.arrayvec.specs.ArrayVec.{array_vec_len};
ghost use Rattle.gaze.specs.Lists.{keep, Each};
ghost use Rattle.gaze.specs.Ranges.{Group, SegmentRanges, segment_keys};
ghost use Rattle.gaze.specs.SegmentScore.{largest_share};
ghost use Rattle.slots.specs.Held.{starts_of};
ghost use Rattle.slots.specs.Slots.{slot_of, class_phase, in_slot, Marked, slots_of, slot_in, starts_at, ends_at, ending, Rising};

use arrayvec::ArrayVec;
use gaze::Segment;
use rows::Row;
use std::marker::Model;

// ---- which slot

// The slot that a Q line of this type and phase asks for at the target position `t`.
pub fn slot_of(kind: u32, phase: u32, t: u32) -> usize
    requires kind_small { kind ≤ 15 }
    requires phase_small { phase ≤ 3 }
    requires bounded { t ≤ 4000000 }
    ensures value { result ≡ slot_of kind phase t }
    ensures low { result < 64 }
{
    if phase == 3 {
        return (4 * kind + 3) as usize;
    }
    (4 * kind + (t + 2 * phase) % 3) as usize
}

fn class_phase(class: u32) -> u32
    ensures { result ≡ class_phase class }
{
    if class == 3 { 3 } else { 0 }
}

// Marks the slots that a Q line of this type and phase can ask for.
pub fn mark(kind: u32, phase: u32, used: &mut [bool])
    requires kind_small { kind ≤ 15 }
    requires phase_small { phase ≤ 3 }
    requires room { 64 ≤ length used.old }
    ensures { Marked kind phase used.old used.new }
{
    let first = (4 * kind) as usize;
    if phase == 3 {
        used[first + 3] = true;
        return;
    }
    used[first] = true;
    used[first + 1] = true;
    used[first + 2] = true;
}

// ---- the grouping

// Rows by slot: `at[j]` to `at[j + 1]` are those of slot `j`. A segment stands in two slots of its type: in that of its remainder, and in that of all. To contracts it is the list of the 64 slots' segments, each in the order of their starts.
#[derive(Drop)]
pub struct Slots {
    rows: ArrayVec<Row, 2048>,
    // The start of each row, beside the rows: whoever searches a crowded slot for a source reads four bytes of a row and not all of it.
    starts: ArrayVec<u32, 2048>,
    at: [usize; 65],
}

impl Model for Slots {
    ghost use Rattle.std.specs.Prelude.{List};
    ghost use Rattle.gaze.specs.declared.Segment.{Segment};

    ghost Value = { List (List Segment) };

    ghost use Rattle.slots.specs.Held.{slots_in, IsGrouped};

    ghost view = { slots_in };

    ghost invariant = { IsGrouped };
}

impl Slots {
    // No rows in any slot. Not inlined, so that a caller keeps no second copy on its stack.
    #[inline(never)]
    pub fn empty() -> Slots
        ensures { result ≡ replicate 64 [] }
    {
        Slots {
            rows: ArrayVec::new(),
            starts: ArrayVec::new(),
            at: [0; 65],
        }
    }

    // The segments of a sheet by slot. Not inlined, so that a caller keeps no second copy on its stack.
    #[inline(never)]
    pub fn of(segments: &[Segment]) -> Slots
        requires { Group 1024 (SegmentRanges 4000000) segment_keys segments.now }
        ensures { result ≡ slots_of segments.now }
    {
        let mut rows = ArrayVec::new();
        let mut starts = ArrayVec::new();
        let mut at = [0; 65];
        for j in 0..64 {
            push_slot(&mut rows, segments, j);
            at[j + 1] = rows.len();
        }
        list_starts(&mut starts, rows.as_slice());
        Slots { rows, starts, at }
    }

    // The rows of one slot.
    pub fn slot(&self, j: usize) -> &[Row]
        requires { j < 64 }
        ensures rows { result.now ≡ slot_in self.now j }
        ensures rising { Rising result.now }
        ensures few { length result.now ≤ 1024 }
    {
        &self.rows.as_slice()[self.at[j]..self.at[j + 1]]
    }

    // The first of a slot's rows that does not start before `s`, or one beyond the last.
    fn first_in_slot(&self, j: usize, s: u32) -> usize
        requires { j < 64 }
        ensures bound { result ≤ length (slot_in self.now j) }
        ensures first { IsPartitionPoint (λ g. ltb g.start s ≡ true) (λ g. ltb g.start s ≡ false) (slot_in self.now j) result }
    {
        self.starts.as_slice()[self.at[j]..self.at[j + 1]].partition_point(|start| *start < s)
    }

    // Those of a slot's rows that start at `s`.
    pub fn starting(&self, j: usize, s: u32) -> &[Row]
        requires { j < 64 }
        ensures { result.now ≡ keep (starts_at s) (slot_in self.now j) }
    {
        starting(&self.slot(j)[self.first_in_slot(j, s)..], s)
    }

    // Takes the place of what was held: of every slot of `slots` that is used the rows that end at `t`.
    pub fn narrow_to(&mut self, slots: &Slots, used: &[bool; 64], t: u32)
        ensures { self.new ≡ ending used.now t slots.now }
    {
        self.rows.clear();
        self.at[0] = 0;
        for j in 0..64 {
            if used[j] {
                let slot = &slots.rows.as_slice()[slots.at[j]..slots.at[j + 1]];
                push_ending(&mut self.rows, slot, t);
            }
            self.at[j + 1] = self.rows.len();
        }
        list_starts(&mut self.starts, self.rows.as_slice());
    }
}

// The segments that stand in slot `j`, behind the rows that are there.
fn push_slot(rows: &mut ArrayVec<Row, 2048>, segments: &[Segment], j: usize)
    requires low { j < 64 }
    requires each { Each (SegmentRanges 4000000) segments.now }
    requires room { array_vec_len rows.old + length (filter (in_slot j) segments.now) ≤ 2048 }
    ensures { rows.new.items ≡ rows.old.items ++ filter (in_slot j) segments.now }
{
    let class = (j % 4) as u32;
    let phase = class_phase(class);
    for segment in segments {
        if segment::fits(segment, (j / 4) as u32, phase, class) {
            rows.push(Row::of(*segment));
        }
    }
}

// Those of a slot that end at `t`, behind the rows that are there.
fn push_ending(rows: &mut ArrayVec<Row, 2048>, slot: &[Row], t: u32)
    requires { array_vec_len rows.old + length slot.now ≤ 2048 }
    ensures { rows.new.items ≡ rows.old.items ++ filter (ends_at t) slot.now }
{
    for row in slot {
        if row.segment.end == t {
            rows.push(*row);
        }
    }
}

// The start of each row, in the place of what was listed.
fn list_starts(starts: &mut ArrayVec<u32, 2048>, rows: &[Row])
    requires { length rows.now ≤ 2048 }
    ensures { starts.new.items ≡ starts_of rows.now }
{
    starts.clear();
    for row in rows {
        starts.push(row.segment.start);
    }
}

// ---- rows by their starts

// The first of the rows that does not start before `s`, or one beyond the last. Where it is the very first, nothing is searched: whoever has found the
// place may ask again.
fn first_from(rows: &[Row], s: u32) -> usize
    requires { Rising rows.now }
    ensures bound { result ≤ length rows.now }
    ensures first { IsPartitionPoint (λ g. ltb g.start s ≡ true) (λ g. ltb g.start s ≡ false) rows.now result }
{
    match rows.first() {
        Some(row) if row.segment.start < s => rows.partition_point(|row| row.segment.start < s),
        _ => 0,
    }
}

// Those of the rows that start at `s`.
pub fn starting(rows: &[Row], s: u32) -> &[Row]
    requires { Rising rows.now }
    ensures { result.now ≡ keep (starts_at s) rows.now }
{
    let from_source = &rows[first_from(rows, s)..];
    // One by one and not by halves: whoever asks looks at these few rows anyway.
    let count = from_source
        .iter()
        .position(|row| s < row.segment.start)
        .unwrap_or(from_source.len());
    &from_source[..count]
}

// The largest share among the rows. Those that start behind the region are not looked at: they enter with 0.
pub fn share_to(rows: &[Row], s: u32, t: u32) -> i64
    requires rising { Rising rows.now }
    requires ordered { s ≤ t }
    requires bounded { t ≤ 4000000 }
    ensures { result ≡ largest_share s t rows.now }
{
    let behind = rows.partition_point(|row| row.segment.start <= t);
    let near = rows::best_share(&rows[..behind], s, t);
    if behind == rows.len() {
        return near;
    }
    whole::larger(near, 0)
}
