// A walk over the bases from plateau to plateau, with the sum of the largest rates so far.

ghost use Rattle.std.specs.Prelude.{◌≡◌, ◌≤◌, ◌<◌, ◌-◌, ◌*◌, nat_abs, length};
ghost use Rattle.slots.specs.Slots.{Rising};
ghost use Rattle.sums.specs.Table.{upto};

use crate::plateau::lengthen;
use crate::window::Window;
use rows::Row;
use std::marker::Model;

// The sum of the largest rates up to `at`, which is left out; the largest rate of each base from there to `to`, which is left out; and the rows that are open.
#[derive(Drop)]
pub struct Walk<'a> {
    rows: &'a [Row],
    at: u32,
    sum: i64,
    value: i64,
    to: u32,
    window: Window,
}

impl<'a> Model for Walk<'a> {
    ghost use Rattle.sums.specs.Walk.{Stand, IsWalked};

    ghost Value = { Stand };

    ghost view = { λ w. record { segments = w.rows.now; at = w.at; to = w.to } };

    ghost invariant = { IsWalked };
}

impl<'a> Walk<'a> {
    // Before the first base.
    pub fn over(rows: &'a [Row]) -> Walk<'a>
        requires rising { Rising rows.now }
        requires few { length rows.now ≤ 1024 }
        ensures { result ≡ record { segments = rows.now; at = 1; to = 1 } }
    {
        Walk {
            rows,
            at: 1,
            sum: 0,
            value: 0,
            to: 1,
            window: Window::none(),
        }
    }

    // The sum up to `p`, which is left out, on the plateau.
    pub fn reached(&self, p: u32) -> i64
        requires behind { self.now.at ≤ p }
        requires within { p ≤ self.now.to }
        ensures value { result ≡ upto self.now.segments p }
        ensures small { nat_abs result ≤ (p - 1) * 10000000000 }
    {
        whole::plus(self.sum, whole::times(self.value, p - self.at))
    }

    // On to the next plateau.
    fn advance(&mut self)
        requires bounded { self.old.to ≤ 4000000 }
        ensures segments { self.new.segments ≡ self.old.segments }
        ensures begun { self.new.at ≡ self.old.to }
        ensures onward { self.old.to < self.new.to }
    {
        let x = self.to;
        self.sum = self.reached(x);
        self.window.reopen(self.rows, self.at, x);
        let open = self.window.rows.as_slice();
        let flat = rows::flat_from(open, x, self.window.ahead);
        self.to = lengthen(open, x, flat, self.window.ahead);
        self.at = x;
        self.value = flat.value;
    }

    // On to the plateau that holds `p`.
    pub fn walk_to(&mut self, p: u32)
        requires behind { self.old.at ≤ p }
        requires bounded { p ≤ 4000000 }
        ensures segments { self.new.segments ≡ self.old.segments }
        ensures begun { self.new.at ≤ p }
        ensures beyond { p < self.new.to }
    {
        // A `while`, since it jumps from plateau to plateau and counts nothing.
        while self.to <= p {
            self.advance();
        }
    }
}
