// Chains over rows of steps: the choice among the sources of one target, the chain that the chosen sources give, and whether a list is a chain.
// Where the steps come from is the business of the crates above.

#![tactic(auto)]

ghost use Rattle.std.specs.Prelude.{◌≡◌, not, IsTrue, ◌↔◌, ◌+◌, ◌-◌, ◌≤◌, ◌<◌, ◌++◌, T, length, reverse, drop, get_or};
ghost use Rattle.arrayvec.specs.ArrayVec.{array_vec_len};
ghost use Rattle.std.specs.List.Sorted.{IsStrictlyIncreasing};
ghost use Rattle.gaze.specs.Chain.{Steps, Chain};
ghost use Rattle.chains.specs.Answer.{Finished, Answers};
ghost use Rattle.chains.specs.Tables.{source_of, Row, Searched, Going, way_back, Leading};
ghost use Rattle.chains.specs.Within.{SumFits, considered, Chosen};

use arrayvec::ArrayVec;

// A candidate that is reached: its best total, and the source that it comes from.
#[derive(Clone, Copy)]
pub struct Reached {
    pub total: i64,
    pub source: u32,
}

// For each candidate so far, from BEGIN on, whether it is reached.
pub type Entries = ArrayVec<Option<Reached>, 1026>;

// The entry of BEGIN, which is reached with nothing gained.
pub fn begin() -> Entries
    ensures length { array_vec_len result ≡ 1 }
    ensures searched { (m : Steps) → Searched m result.items }
{
    let mut entries = ArrayVec::new();
    entries.push(Some(Reached {
        total: 0,
        source: 0,
    }));
    entries
}

// The choice after one more source: it takes the place of the choice among the earlier ones unless the step from it is not legal, it is not
// reached, or it gives less. So of two with the same total the later stays.
fn consider(
    step: Option<i64>,
    entry: Option<Reached>,
    source: u32,
    choice: Option<Reached>,
) -> Option<Reached>
    requires { SumFits step entry }
    ensures { result ≡ considered step entry source choice }
{
    let (Some(gain), Some(reached)) = (step, entry) else {
        return choice;
    };
    let total = reached.total + gain;
    match choice {
        Some(best) if total < best.total => choice,
        _ => Some(Reached { total, source }),
    }
}

// The choice among all sources of the next target.
fn pick(steps: &[Option<i64>], entries: &[Option<Reached>]) -> Option<Reached>
    requires { Going steps.now entries.now }
    ensures { Chosen steps.now entries.now (length entries.now) result }
{
    let mut choice = None;
    for (source, entry) in entries.iter().enumerate() {
        // Indexed, since the proof of the form with `zip` did not close.
        choice = consider(steps[source], *entry, source as u32, choice);
    }
    choice
}

// Adds the entry of the next target, from the row of its steps and the entries before it.
pub fn settle(steps: &[Option<i64>], entries: &mut Entries)
    requires { Going steps.now entries.old.items }
    ensures length { array_vec_len entries.new ≡ array_vec_len entries.old + 1 }
    ensures searched { (m : Steps) → Row m (length entries.old.items) steps.now → Searched m entries.old.items → Searched m entries.new.items }
{
    entries.push(pick(steps, entries.as_slice()));
}

// The source that the candidate `place` comes from.
fn source(entries: &[Option<Reached>], place: usize) -> usize
    requires { place < length entries.now }
    ensures { result ≡ source_of (get_or entries.now place None) }
{
    entries[place].map_or(0, |reached| reached.source as usize)
}

// Writes the chain that ends at `last` into the front of `chain`, and returns its length.
pub fn trace(entries: &[Option<Reached>], last: usize, chain: &mut [u32]) -> usize
    requires { Leading entries.now last (length chain.old) }
    ensures counted { result ≡ length (way_back entries.now last) }
    ensures written { chain.new ≡ reverse (way_back entries.now last) ++ drop result chain.old }
{
    let mut count = 0;
    let mut place = last;
    while place != 0 {
        chain[count] = place as u32;
        count += 1;
        place = source(entries, place);
    }
    chain[count] = 0;
    chain[..=count].reverse();
    count + 1
}

// The best chain, of which `count` candidates stand in the caller's buffer.
#[derive(Clone, Copy)]
pub struct Found {
    pub score: i64,
    pub count: usize,
}

// The answer for the last of the candidates: the best chain to it, written into the front of `chain`, if there is a valid one.
pub fn answer(entries: &[Option<Reached>], chain: &mut [u32]) -> Option<Found>
    requires finished { Finished entries.now }
    requires room { length entries.now ≤ length chain.old }
    ensures { (m : Steps) → Searched m entries.now → Answers m (length entries.now - 1) chain.old result chain.new }
{
    let last = entries.len() - 1;
    let reached = entries[last]?;
    let count = trace(entries, last, chain);
    Some(Found {
        score: reached.total,
        count,
    })
}

// Whether each number is above the one before it.
fn rises(numbers: &[u32]) -> bool
    ensures { IsTrue result ↔ IsStrictlyIncreasing numbers.now }
{
    numbers.windows(2).all(|pair| pair[0] < pair[1])
}

// Whether `chain` is a chain that ends at `e`.
pub fn is_chain(e: usize, chain: &[u32]) -> bool
    ensures sound { T result → Chain e chain.now }
    ensures complete { T (not result) → Chain e chain.now → ⊥ }
{
    let (Some(first), Some(last)) = (chain.first(), chain.last()) else {
        return false;
    };
    *first == 0 && *last as usize == e && rises(chain)
}
