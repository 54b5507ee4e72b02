// Reads numbers, words and lines of a text. Which byte separates and which letter begins a line is the caller's to say.

#![tactic(auto)]

ghost use Rattle.std.specs.Prelude.{◌≡◌, ◌≢◌, true, List, ◌∷◌, ℕ, ◌≤◌, length, MatchOption};
ghost use Rattle.text.specs.Number.{all_digits, value, leading_zero, plain, unsigned, negative, number};
ghost use Rattle.text.specs.Words.{before, onwards, next_place};
ghost use Rattle.text.specs.Fields.{line};

pub fn all_digits(word: &[u8]) -> bool
    ensures { result ≡ all_digits word.now }
{
    word.iter().all(u8::is_ascii_digit)
}

// The number that at most nine digits write, leading zeros among them.
#[tactic(auto, using(crate::proofs::Digits::digits_along))]
pub fn value(digits: &[u8]) -> u64
    requires { (all_digits digits.now ≡ true) × (length digits.now ≤ 9) }
    ensures { result ≡ value digits.now }
{
    let mut number = 0;
    for digit in digits {
        number = 10 * number + u64::from(*digit - b'0');
    }
    number
}

#[tactic(auto, unfolding(crate::specs::Number::leading_zero))]
fn leading_zero(word: &[u8]) -> bool
    ensures { result ≡ leading_zero word.now }
{
    matches!(word, [b'0', _, ..])
}

// 1 to 9 digits with no leading zero.
#[tactic(auto, unfolding(crate::specs::Number::plain))]
fn is_plain(word: &[u8]) -> bool
    ensures { result ≡ plain word.now }
{
    (1..=9).contains(&word.len()) && !leading_zero(word) && all_digits(word)
}

// The number that a word with no sign writes.
#[tactic(auto, using(crate::proofs::Digits::plain_words), unfolding(crate::specs::Number::unsigned))]
fn unsigned(word: &[u8]) -> Option<i64>
    ensures { result ≡ unsigned word.now }
{
    if is_plain(word) {
        Some(value(word) as i64)
    } else {
        None
    }
}

// The number that "-" and `word` write.
#[tactic(auto, using(crate::proofs::Digits::plain_words), unfolding(crate::specs::Number::unsigned, crate::specs::Number::negative))]
fn negative(word: &[u8]) -> Option<i64>
    ensures { result ≡ negative word.now }
{
    let number = unsigned(word)?;
    (number != 0).then_some(-number)
}

// The number that a word writes, if it writes one.
#[tactic(auto, using(crate::proofs::Digits::number_unsigned), unfolding(crate::specs::Number::number))]
pub fn read_number(word: &[u8]) -> Option<i64>
    ensures { result ≡ number word.now }
{
    match word {
        [b'-', digits @ ..] => negative(digits),
        _ => unsigned(word),
    }
}

// What stands before the first `separator`, and what stands from there on.
fn cut(text: &[u8], separator: u8) -> (&[u8], &[u8])
    ensures { (result.0.now ≡ before separator text.now) × (result.1.now ≡ onwards separator text.now) }
{
    text.split_at(
        text.iter()
            .position(|byte| *byte == separator)
            .unwrap_or(text.len()),
    )
}

// The place of the first `separator` at `place` or after it; where there is none, the end of the text, or `place` if that is beyond the end.
#[tactic(auto, unfolding(crate::specs::Words::next_place, crate::specs::Words::before))]
pub fn find(text: &[u8], place: usize, separator: u8) -> usize
    ensures { result ≡ next_place separator place text.now }
{
    if text.len() <= place {
        return place;
    }
    let (word, _) = cut(&text[place..], separator);
    place + word.len()
}

// What stands behind the first byte, where that is `first`.
fn behind(bytes: &[u8], first: u8) -> Option<&[u8]>
    ensures { MatchOption result ((rest : List ℕ) → bytes.now ≢ first ∷ rest) (λ rest. bytes.now ≡ first ∷ rest.now) }
{
    bytes.strip_prefix(&[first])
}

// The numbers of the `N` fields behind the letter; none where the line is malformed. `bytes` are those of the line without its LF.
#[tactic(auto, using(crate::proofs::Fields::line_ends))]
pub fn read_line<const N: usize>(bytes: &[u8], letter: u8, separator: u8) -> Option<[i64; N]>
    ensures { result ≡ line letter separator N bytes.now }
{
    let mut rest = behind(bytes, letter)?;
    let mut row = [0; N];
    for number in row.iter_mut() {
        let word = behind(rest, separator)?;
        let (digits, after) = cut(word, separator);
        *number = read_number(digits)?;
        rest = after;
    }
    rest.is_empty().then_some(row)
}
