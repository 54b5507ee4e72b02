// The rows that are open at a base. A walk looks at these alone, so it is fast however many rows there are.

ghost use Rattle.std.specs.Prelude.{◌≡◌, ◌<◌, ◌≤◌, [], length, leb};
ghost use Rattle.slots.specs.Slots.{Rising};
ghost use Rattle.sums.specs.Window.{Near, Opened};

use arrayvec::ArrayVec;
use rows::Row;

// The rows that are open, the number of the next row to open, and the base up to which the open ones are enough.
#[derive(Drop)]
pub struct Window {
    pub rows: ArrayVec<Row, 1024>,
    pub next: usize,
    pub ahead: u32,
}

// Whether a row does not end before `from`.
fn lasts(row: &Row, from: u32) -> bool
    ensures { result ≡ leb from row.now.end }
{
    from <= row.segment.end
}

// Of the rows that end before `from` only the first is kept: each gives 0 from there on.
fn close_rows(rows: &mut ArrayVec<Row, 1024>, from: u32)
    ensures { Near from rows.old.items rows.new.items }
{
    let mut far = false;
    rows.retain(|row| {
        let on = lasts(row, from);
        let keeps = on || !far;
        far = far || !on;
        keeps
    });
}

impl Window {
    // No row is open.
    pub fn none() -> Window
        ensures rows { result.rows.items ≡ [] }
        ensures next { result.next ≡ 0 }
        ensures ahead { result.ahead ≡ 0 }
    {
        Window {
            rows: ArrayVec::new(),
            next: 0,
            ahead: 0,
        }
    }

    // Opens the rows that start by `x`, and some that start behind it: the more, the less often the rows are looked through for ended ones.
    fn open_rows(&mut self, rows: &[Row], x: u32)
        requires rising { Rising rows.now }
        requires few { length rows.now ≤ 1024 }
        requires bounded { x ≤ 4000000 }
        requires opened { Opened rows.now x self.old }
        ensures ahead { x < self.new.ahead }
        ensures opened { Opened rows.now x self.new }
    {
        let most = self.rows.len() + 16;
        for row in &rows[self.next..] {
            if x < self.ahead && most <= self.rows.len() {
                return;
            }
            self.ahead = row.segment.start;
            self.rows.push(*row);
            self.next += 1;
        }
        self.ahead = 4_000_001;
    }

    // From the rows that are open at the base `from` to those at `x`, a later one.
    pub fn reopen(&mut self, rows: &[Row], from: u32, x: u32)
        requires rising { Rising rows.now }
        requires few { length rows.now ≤ 1024 }
        requires onward { from ≤ x }
        requires bounded { x ≤ 4000000 }
        requires opened { Opened rows.now from self.old }
        ensures ahead { x < self.new.ahead }
        ensures opened { Opened rows.now x self.new }
    {
        if x < self.ahead {
            return;
        }
        close_rows(&mut self.rows, x);
        self.open_rows(rows, x);
    }
}
