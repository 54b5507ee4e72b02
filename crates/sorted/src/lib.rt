// Rows in the order of a key: where those from each key on begin, by halves.

#![tactic(auto)]

ghost use Rattle.std.specs.Prelude.{◌≡◌, ℕ, length, map};
ghost use Rattle.std.specs.Fn.{ComputesKey};
ghost use Rattle.sorted.specs.Sorted.{Rising, First, FirstRows};

use std::array;

// The first row whose key is `x` or more.
fn first_from<T, F: Fn(&T) -> usize>(rows: &[T], key: &F, x: usize) -> usize
    requires { F.IsAlwaysCallable key.now }
    ensures { (k : T → ℕ) → ComputesKey F.Fn k key.now → Rising (map k rows.now) → First (map k rows.now) x result }
{
    rows.partition_point(|row| key(row) < x)
}

// For each key below `N` the first row whose key is that or more.
pub fn first_rows<T, F: Fn(&T) -> usize, const N: usize>(rows: &[T], key: F) -> [usize; N]
    requires { F.IsAlwaysCallable key }
    ensures long { length result ≡ N }
    ensures found { (k : T → ℕ) → ComputesKey F.Fn k key → Rising (map k rows.now) → FirstRows (map k rows.now) result }
{
    array::from_fn(|x| first_from(rows, &key, x))
}
