// Values inside a canonical text, by place: members by name, elements in order, strings, numbers.
// A place is an index into the text. The text was validated before: where no value stands at a place, the answer is any that ends.
#![tactic(auto)]

ghost use Rattle.std.specs.Prelude.{◌≡◌, length, drop};
ghost use Rattle.base.specs.Bytes.{Bytes, same};
ghost use Rattle.canonical_json.specs.Read.{raw};
ghost use Rattle.lookup.specs.Place.{EndsAt, KnownEnd, FoundEnd, EndsBy, FindsMember, note, FindsMembers};
ghost use Rattle.lookup.specs.Walk.{Opens, Follows, FirstElement, NextElement, NextElementBy, MemberAt, FirstMember, NextMember, NextMemberBy, MemberBy};
ghost use Rattle.lookup.specs.Leaves.{string_in, order_of, Copies, leading_to, number_in, truth_in};

use std::cmp::Ordering;

// Just past the value at `at`. The contract speaks of values that stand there, so nothing is validated again.
pub fn value_end(s: &[u8], at: usize) -> Option<usize>
    ensures { EndsAt s.now at result }
{
    skip::value(s, at)
}

// The same, where a reader of the value may have told its end.
fn end_by(s: &[u8], at: usize, known: Option<usize>) -> Option<usize>
    ensures { EndsBy s.now at known result }
{
    match known {
        Some(e) if at < e && e <= s.len() => Some(e),
        _ => value_end(s, at),
    }
}

// ---- Elements of an array

// The place of the next element; past the last one, just past the closing bracket.
#[derive(Clone, Copy)]
pub enum Element {
    NoArray,
    End(usize),
    At(usize),
}

// What follows the opening byte at `at`: the closing byte, or the first element or member.
#[tactic(auto, using(crate::proofs::ItemLaws::opened_rules))]
fn opened(s: &[u8], at: usize, start: u8, close: u8) -> Element
    ensures { Opens s.now at start close result }
{
    let Some(first) = s.get(at) else {
        return Element::NoArray;
    };
    if *first != start {
        return Element::NoArray;
    }
    let i = at + 1;
    match s.get(i) {
        None => Element::NoArray,
        Some(b) if *b == close => Element::End(i + 1),
        Some(_) => Element::At(i),
    }
}

// What follows the value at `i`, whose end may be known: the closing byte, or a comma and the next element or member.
fn following(s: &[u8], i: usize, close: u8, end: Option<usize>) -> Element
    ensures { Follows s.now i close end result }
{
    let Some(e) = end_by(s, i, end) else {
        return Element::NoArray;
    };
    match s.get(e) {
        None => Element::NoArray,
        Some(b) if *b == close => Element::End(e + 1),
        Some(_) => Element::At(e + 1),
    }
}

// The first element of the array at `at`.
pub fn first_element(s: &[u8], at: usize) -> Element
    ensures { FirstElement s.now at result }
{
    opened(s, at, b'[', b']')
}

// The element after the one at `i`.
pub fn next_element(s: &[u8], i: usize) -> Element
    ensures { NextElement s.now i result }
{
    following(s, i, b']', None)
}

// The same, where a reader of the element at `i` may have told its end.
pub fn next_element_by(s: &[u8], i: usize, end: Option<usize>) -> Element
    ensures { NextElementBy s.now i end result }
{
    following(s, i, b']', end)
}

// ---- Members of an object

// The next member: the place of its name, just past the opening quote, and the place of its value; past the last one, just past the
// closing brace.
#[derive(Clone, Copy)]
pub enum Member {
    NoObject,
    End(usize),
    At { name: usize, value: usize },
}

// The member whose name's opening quote stands at `i`.
#[tactic(auto, using(crate::proofs::MemberLaws::member_rules))]
fn member_at(s: &[u8], i: usize) -> Member
    ensures { MemberAt s.now i result }
{
    match value_end(s, i) {
        Some(e) if e < s.len() => Member::At {
            name: i + 1,
            value: e + 1,
        },
        _ => Member::NoObject,
    }
}

// The member that the opening brace or a comma leads to.
fn member_by(s: &[u8], found: Element) -> Member
    ensures { MemberBy s.now found result }
{
    match found {
        Element::NoArray => Member::NoObject,
        Element::End(e) => Member::End(e),
        Element::At(i) => member_at(s, i),
    }
}

// The first member of the object at `at`.
pub fn first_member(s: &[u8], at: usize) -> Member
    ensures { FirstMember s.now at result }
{
    member_by(s, opened(s, at, b'{', b'}'))
}

// The member after the one whose value stands at `value`.
pub fn next_member(s: &[u8], value: usize) -> Member
    ensures { NextMember s.now value result }
{
    next_member_by(s, value, None)
}

// The same, where a reader of the value may have told its end.
pub fn next_member_by(s: &[u8], value: usize, end: Option<usize>) -> Member
    ensures { NextMemberBy s.now value end result }
{
    member_by(s, following(s, value, b'}', end))
}

// A value, by its place, whose end a reader may have told.
#[derive(Clone, Copy)]
pub struct Extent {
    pub at: usize,
    pub end: Option<usize>,
}

// What was read of a value, and where the value ends, if that is known.
#[derive(Clone, Copy)]
pub struct Spanned<T> {
    pub value: T,
    pub end: Option<usize>,
}

// Of no value is the end known.
pub fn no_extent() -> Extent
    ensures { result.end ≡ None }
{
    Extent { at: 0, end: None }
}

// The value that was found, with what is known of its end.
pub fn extent_of(found: Option<usize>, end: Option<usize>) -> Extent
    ensures { (s : Bytes) → FoundEnd s found end → KnownEnd s result.at result.end }
{
    match found {
        None => no_extent(),
        Some(at) => Extent { at, end },
    }
}

// What is known of the end of the value at `at`.
fn known_end(at: usize, known: Extent) -> Option<usize>
    ensures { (s : Bytes) → KnownEnd s known.at known.end → KnownEnd s at result }
{
    if at == known.at { known.end } else { None }
}

// The value of the member of that name, in the object at `at`.
pub fn find_member(s: &[u8], at: usize, name: &[u8]) -> Option<usize>
    ensures { FindsMember s.now at name.now result }
{
    find_member_by(s, at, name, no_extent())
}

// The same, without a walk over the value whose end is known.
pub fn find_member_by(s: &[u8], at: usize, name: &[u8], known: Extent) -> Option<usize>
    ensures { KnownEnd s.now known.at known.end → FindsMember s.now at name.now result }
{
    let mut m = first_member(s, at);
    while let Member::At { name: n, value } = m {
        if text_is(s, n, name) {
            return Some(value);
        }
        m = next_member_by(s, value, known_end(value, known));
    }
    None
}

// ---- Several members in one walk

// The values of four members by their places, and the end of the object that they were looked for in.
#[derive(Clone, Copy)]
pub struct Members {
    pub first: Option<usize>,
    pub second: Option<usize>,
    pub third: Option<usize>,
    pub fourth: Option<usize>,
    pub end: Option<usize>,
}

// What was found of that name, once the member is seen whose name is read at `i` and whose value stands at `value`.
#[tactic(auto, using(crate::proofs::SeveralLaws::note_rules))]
pub fn noted(s: &[u8], i: usize, value: usize, name: &[u8], found: Option<usize>) -> Option<usize>
    ensures { result ≡ note (same (raw (drop i s.now)) name.now) value found }
{
    if found.is_none() && text_is(s, i, name) {
        Some(value)
    } else {
        found
    }
}

// The members of those names in the object at `at`, in one walk.
pub fn find_members(s: &[u8], at: usize, a: &[u8], b: &[u8], c: &[u8], d: &[u8]) -> Members
    ensures { FindsMembers s.now at a.now b.now c.now d.now result }
{
    find_members_by(s, at, a, b, c, d, no_extent())
}

// The same, without a walk over the value whose end is known.
pub fn find_members_by(
    s: &[u8],
    at: usize,
    a: &[u8],
    b: &[u8],
    c: &[u8],
    d: &[u8],
    known: Extent,
) -> Members
    ensures { KnownEnd s.now known.at known.end → FindsMembers s.now at a.now b.now c.now d.now result }
{
    let mut first = None;
    let mut second = None;
    let mut third = None;
    let mut fourth = None;
    let mut m = first_member(s, at);
    while let Member::At { name, value } = m {
        first = noted(s, name, value, a, first);
        second = noted(s, name, value, b, second);
        third = noted(s, name, value, c, third);
        fourth = noted(s, name, value, d, fourth);
        m = next_member_by(s, value, known_end(value, known));
    }
    let end = match m {
        Member::End(e) => Some(e),
        _ => None,
    };
    Members {
        first,
        second,
        third,
        fourth,
        end,
    }
}

// ---- Strings: `i` stands just past the opening quote; escapes are undone

// Where the string at `at` begins, just past its opening quote.
#[tactic(auto, using(crate::proofs::StringLaws::string_rules))]
pub fn string_at(s: &[u8], at: usize) -> Option<usize>
    ensures { result ≡ string_in at (drop at s.now) }
{
    match s.get(at)? {
        b'"' => Some(at + 1),
        _ => None,
    }
}

// How the string stands to `k`: byte by byte, a shorter prefix first.
#[tactic(auto, using(crate::proofs::StringLaws::order_rules))]
pub fn text_order(s: &[u8], i: usize, k: &[u8]) -> Ordering
    ensures { result ≡ order_of (raw (drop i s.now)) k.now }
{
    let mut p = i;
    for x in k {
        let Some((b, next)) = canonical_json::char_at(s, p) else {
            return Ordering::Less;
        };
        if b != *x {
            return b.cmp(x);
        }
        p = next;
    }
    match canonical_json::char_at(s, p) {
        None => Ordering::Equal,
        Some(_) => Ordering::Greater,
    }
}

// Whether the string is `k`.
pub fn text_is(s: &[u8], i: usize, k: &[u8]) -> bool
    ensures { result ≡ same (raw (drop i s.now)) k.now }
{
    text_order(s, i, k).is_eq()
}

// How many bytes the string has.
pub fn text_len(s: &[u8], i: usize) -> usize
    ensures { result ≡ length (raw (drop i s.now)) }
{
    let mut p = skip::bare_end(s, i);
    let mut n = p - i;
    while let Some((_, next)) = canonical_json::char_at(s, p) {
        p = next;
        n += 1;
    }
    n
}

// Copies the string's bytes to the front of `out`; where they do not fit, `out` stays as it is.
#[tactic(auto, using(crate::proofs::StringLaws::copy_rules))]
pub fn copy_text(s: &[u8], i: usize, out: &mut [u8]) -> bool
    ensures { Copies (raw (drop i s.now)) out.old result out.new }
{
    if out.len() < text_len(s, i) {
        return false;
    }
    let mut p = i;
    let mut j = 0;
    while let Some((b, next)) = canonical_json::char_at(s, p) {
        out[j] = b;
        p = next;
        j += 1;
    }
    true
}

// ---- Numbers and truth values

// The number that the digits in front write, where it is at most hi. No sum wraps, however many digits there are.
#[tactic(auto, using(crate::proofs::NumberLaws::digits_rules))]
fn digits(s: &[u8], hi: u64) -> Option<u64>
    ensures { result ≡ leading_to hi s.now }
{
    let mut n: u64 = 0;
    for b in s {
        if !b.is_ascii_digit() {
            return Some(n);
        }
        n = n.checked_mul(10)?.checked_add(u64::from(*b - b'0'))?;
        if hi < n {
            return None;
        }
    }
    Some(n)
}

// The whole number from lo to hi that stands at `at`.
#[tactic(auto, using(crate::proofs::NumberLaws::number_rules))]
pub fn number_at(s: &[u8], at: usize, lo: u64, hi: u64) -> Option<u64>
    ensures { result ≡ number_in lo hi (drop at s.now) }
{
    if !s.get(at)?.is_ascii_digit() {
        return None;
    }
    let n = digits(&s[at..], hi)?;
    if lo <= n { Some(n) } else { None }
}

// true or false, where it stands at `at`.
#[tactic(auto, using(crate::proofs::TruthLaws::truth_rules))]
pub fn truth_at(s: &[u8], at: usize) -> Option<bool>
    ensures { result ≡ truth_in (drop at s.now) }
{
    match s.get(at)? {
        b't' => Some(true),
        b'f' => Some(false),
        _ => None,
    }
}
