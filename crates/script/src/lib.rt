// The parts of reading a script and of writing its answers that touch nothing outside: the words of a line, numbers, and a line that is
// put together piece by piece.
#![tactic(auto)]

mod line;

ghost use Rattle.std.specs.Prelude.{◌≡◌, ◌≤◌, pos, IfSome};
ghost use Rattle.std.specs.Option.{option_map};
ghost use Rattle.script.specs.Words.{word as word_of, words as words_of};
ghost use Rattle.script.specs.Numbers.{digits as digits_of, number as number_of, time as time_of, below};

use date::Time;
pub use line::{Line, ROOM};

// ---- Words, parted by one space

// How many words a line has: one more than it has spaces.
pub fn words(line: &[u8]) -> usize
    ensures { result ≡ words_of line.now }
{
    let mut n = 1;
    for b in line {
        if *b == b' ' {
            n += 1;
        }
    }
    n
}

// Word k of a line, counted from 0; no bytes where there is none.
pub fn word(line: &[u8], k: usize) -> &[u8]
    ensures { result.now ≡ word_of k line.now }
{
    line.split(|b| *b == b' ').nth(k).unwrap_or(&[])
}

// ---- Numbers

// The number that digits write, where it is at most `most`.
#[tactic(auto, using(crate::proofs::NumberLaws::digit_turns))]
fn digits(s: &[u8], most: u64) -> Option<u64>
    ensures value { result ≡ digits_of most 0 s.now }
    ensures bound { IfSome result (λ n. n ≤ most) }
{
    let mut n: u64 = 0;
    for b in s {
        if !b.is_ascii_digit() {
            return None;
        }
        n = n.checked_mul(10)?.checked_add(u64::from(*b - b'0'))?;
        if most < n {
            return None;
        }
    }
    Some(n)
}

// The number that a word writes in decimal, where it is at most `most`.
fn number_within(s: &[u8], most: u64) -> Option<u64>
    ensures value { result ≡ number_of most s.now }
    ensures bound { IfSome result (λ n. n ≤ most) }
{
    if s.is_empty() {
        return None;
    }
    digits(s, most)
}

// The number that a word writes in decimal.
pub fn read_number(s: &[u8]) -> Option<u64>
    ensures { result ≡ number_of 18446744073709551615 s.now }
{
    number_within(s, u64::MAX)
}

fn before_1970(s: &[u8]) -> Option<Time>
    ensures { option_map (λ t. t.seconds) result ≡ option_map below (number_of 9223372036854775808 s.now) }
{
    let n = number_within(s, 9223372036854775808)?;
    let seconds = 0i64.checked_sub_unsigned(n)?;
    Some(Time { seconds })
}

fn since_1970(s: &[u8]) -> Option<Time>
    ensures { option_map (λ t. t.seconds) result ≡ option_map pos (number_of 9223372036854775807 s.now) }
{
    let n = number_within(s, 9223372036854775807)?;
    Some(Time { seconds: n as i64 })
}

// The time that a word writes, in seconds from 1970, with a `-` in front where it is before.
pub fn read_time(s: &[u8]) -> Option<Time>
    ensures { option_map (λ t. t.seconds) result ≡ time_of s.now }
{
    match s {
        [b'-', digits @ ..] => before_1970(digits),
        _ => since_1970(s),
    }
}
