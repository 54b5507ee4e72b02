// Arithmetic on i64 whose contracts speak of whole numbers, so that no other crate's proof meets the bits.

#![tactic(auto)]

ghost use Rattle.std.specs.Prelude.{◌≡◌, ◌<◌, pos, ◌+ℤ◌, ◌-ℤ◌, ◌*ℤ◌};
ghost use Rattle.std.specs.Int.{w64};
ghost use Rattle.std.proofs.Common.{SFits};
ghost use Rattle.whole.specs.Whole.{floor_of, larger_of};

pub fn plus(a: i64, b: i64) -> i64
    requires { SFits w64 (a +ℤ b) }
    ensures { result ≡ a +ℤ b }
{
    a + b
}

pub fn minus(a: i64, b: i64) -> i64
    requires { SFits w64 (a -ℤ b) }
    ensures { result ≡ a -ℤ b }
{
    a - b
}

pub fn times(a: i64, n: u32) -> i64
    requires { SFits w64 (a *ℤ pos n) }
    ensures { result ≡ a *ℤ pos n }
{
    a * i64::from(n)
}

pub fn larger(a: i64, b: i64) -> i64
    ensures { result ≡ larger_of a b }
{
    a.max(b)
}

// a / m, rounded towards minus infinity.
pub fn floor(a: i64, m: u32) -> i64
    requires { 0 < m }
    ensures { result ≡ floor_of a m }
{
    a.div_euclid(i64::from(m))
}
