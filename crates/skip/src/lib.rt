// Where a value ends, in a text that was validated before: nothing is validated again, and only quotes, backslashes and brackets matter.
#![tactic(auto)]

ghost use Rattle.std.specs.Prelude.{◌≡◌, true, ◌+◌, ◌≤◌, length};
ghost use Rattle.skip.specs.Skim.{Bare, Leads, StringEnd, BracketEnd, WordEnd};
ghost use Rattle.skip.specs.Ends.{Ends};

use canonical_json::digits_end;

// How many bytes of a string are looked at together.
const BLOCK: usize = 16;

// Whether the block at `at` has neither a quote nor a backslash. There is no branch on a byte, so that it compiles to vector instructions.
#[tactic(auto, using(crate::proofs::StepLaws::block_start))]
fn plain_block(s: &[u8], at: usize) -> bool
    requires { at + 16 ≤ length s.now }
    ensures { result ≡ true → Bare s.now at (at + 16) }
{
    let mut plain = true;
    for b in &s[at..at + BLOCK] {
        plain &= (*b != b'"') & (*b != b'\\');
    }
    plain
}

// Past the plain blocks from `at` on.
#[tactic(auto, using(crate::proofs::StepLaws::run_rules))]
fn plain_run(s: &[u8], at: usize) -> usize
    requires { at ≤ length s.now }
    ensures { Leads s.now at result (Bare s.now at result) }
{
    let mut i = at;
    while BLOCK <= s.len() - i && plain_block(s, i) {
        i += BLOCK;
    }
    i
}

// The same from any place on.
pub fn bare_end(s: &[u8], at: usize) -> usize
    ensures { Bare s.now at result × (at ≤ result) }
{
    if s.len() < at {
        return at;
    }
    plain_run(s, at)
}

// Just past the string whose opening quote stands before `at`; a backslash takes the next byte with it.
#[tactic(auto, using(crate::proofs::StepLaws::string_rules))]
fn string_end(s: &[u8], at: usize) -> usize
    requires { at ≤ length s.now }
    ensures { StringEnd s.now at result }
{
    let mut i = plain_run(s, at);
    while i < s.len() {
        let b = s[i];
        if b == b'"' {
            return i + 1;
        }
        if b != b'\\' {
            i += 1;
        } else if s.len() - i < 2 {
            return s.len();
        } else {
            i = plain_run(s, i + 2);
        }
    }
    i
}

// Just past the bracket that closes the one before `at`.
#[tactic(auto, using(crate::proofs::StepLaws::bracket_rules))]
fn bracket_end(s: &[u8], at: usize) -> usize
    requires { at ≤ length s.now }
    ensures { BracketEnd s.now at result }
{
    let mut depth: usize = 1;
    let mut i = at;
    while i < s.len() {
        let b = s[i];
        i += 1;
        match b {
            b'"' => i = string_end(s, i),
            b'[' | b'{' => depth += 1,
            b']' | b'}' => {
                depth -= 1;
                if depth == 0 {
                    return i;
                }
            }
            _ => {}
        }
    }
    i
}

// n bytes on, or the end of the text.
#[tactic(auto, using(crate::proofs::StepLaws::word_rules))]
fn word_end(s: &[u8], at: usize, n: usize) -> usize
    requires { at ≤ length s.now }
    ensures { WordEnd s.now at n result }
{
    at + n.min(s.len() - at)
}

// Just past the value at `at`, by its first byte. Where no value stands there, any end after `at`.
#[tactic(auto, using(crate::proofs::ValueLaws::value_rules))]
pub fn value(s: &[u8], at: usize) -> Option<usize>
    ensures { Ends s.now at result }
{
    if s.len() <= at {
        return None;
    }
    let next = at + 1;
    Some(match s[at] {
        b'"' => string_end(s, next),
        b'[' | b'{' => bracket_end(s, next),
        b'f' => word_end(s, next, 4),
        b'n' | b't' => word_end(s, next, 3),
        _ => digits_end(s, next),
    })
}
