// Canonical JSON text (01, "Text"): is a text canonical, and where does a value in it end.
#![tactic(auto)]

ghost use Rattle.std.specs.Prelude.{◌≡◌, true, ◌↔◌, ◌+◌, ◌≤◌, ◌<◌, length, drop, get_or};
ghost use Rattle.base.specs.Bytes.{less, is_digit};
ghost use Rattle.canonical_json.specs.Lead.{seq, lead_of};
ghost use Rattle.canonical_json.specs.Read.{end_of, chars, esc, read_str, kind_of, word as word_of, number as number_of, digits as digits_of, array as array_of, object as object_of, member as member_of, rises, read, raw};
ghost use Rattle.canonical_json.specs.Strings.{Skips, plain, PlainRun, shared, SharedRun};
ghost use Rattle.canonical_json.specs.Names.{CharRead, last_of};
ghost use Rattle.canonical_json.specs.Json.{Canonical, max_depth};

// How deep objects and arrays may hold one another.
pub const MAX_DEPTH: u8 = 8;

// How many bytes of a string are tested together.
const BLOCK: usize = 16;

// What a lead byte says of the bytes that follow it: how many, and the range of the first.
#[derive(Clone, Copy)]
pub struct Sequence {
    pub more: u8,
    pub lo: u8,
    pub hi: u8,
}

// A lead byte that `more` bytes follow, the first of them from lo to hi.
fn follow(more: u8, lo: u8, hi: u8) -> Option<Sequence>
    ensures { result ≡ seq more lo hi }
{
    Some(Sequence { more, lo, hi })
}

// RFC 3629, section 4: how many bytes follow the lead byte, and the range of the second.
#[tactic(auto, unfolding(crate::specs::Lead::lead_of))]
pub fn lead(b: u8) -> Option<Sequence>
    ensures { result ≡ lead_of b }
{
    match b {
        0..=31 => None,
        32..=127 => follow(0, 0, 0),
        128..=193 => None,
        194..=223 => follow(1, 128, 191),
        224 => follow(2, 160, 191),
        225..=236 => follow(2, 128, 191),
        237 => follow(2, 128, 159),
        238..=239 => follow(2, 128, 191),
        240 => follow(3, 144, 191),
        241..=243 => follow(3, 128, 191),
        244 => follow(3, 128, 143),
        _ => None,
    }
}

// The escape whose backslash stands just before `at`.
#[tactic(auto, using(crate::proofs::Chars::escape_rules))]
fn escape_end(s: &[u8], at: usize) -> Option<usize>
    ensures { Skips s.now (esc (drop at s.now)) at result }
{
    match s.get(at)? {
        b'"' | b'\\' => Some(at + 1),
        _ => None,
    }
}

// The `more` bytes of a character from `at` on, the first of them from `lo` to `hi`.
#[tactic(auto, using(crate::proofs::Chars::tail_rules))]
fn tail_end(s: &[u8], at: usize, more: u8, lo: u8, hi: u8) -> Option<usize>
    ensures { Skips s.now (chars (drop at s.now) more lo hi) at result }
{
    let mut i = at;
    let mut low = lo;
    let mut high = hi;
    for _ in 0..more {
        let b = *s.get(i)?;
        if b < low || high < b {
            return None;
        }
        low = 128;
        high = 191;
        i += 1;
    }
    Some(i)
}

// The escape or the character at i, where no quote stands. ASCII comes first: it is most of what is read.
#[tactic(auto, using(crate::proofs::Chars::char_rules))]
fn char_end(s: &[u8], i: usize) -> Option<usize>
    requires { (i < length s.now) × (get_or s.now i 0 ≡ 34 → ⊥) }
    ensures { Skips s.now (read_str (drop i s.now)) (i + 1) result }
{
    let b = s[i];
    let j = i + 1;
    if b == b'\\' {
        return escape_end(s, j);
    }
    if b < 32 {
        return None;
    }
    if b < 128 {
        return Some(j);
    }
    let Sequence { more, lo, hi } = lead(b)?;
    tail_end(s, j, more, lo, hi)
}

// Whether the byte stands for itself in a string, and takes no other with it.
#[tactic(auto, unfolding(crate::specs::Strings::plain))]
fn is_plain(b: u8) -> bool
    ensures { result ≡ plain b }
{
    (31 < b) & (b < 128) & (b != b'"') & (b != b'\\')
}

// Whether the bytes of a block are plain. They are tested together: no branch for each.
fn is_plain_block(s: &[u8], at: usize) -> bool
    requires { at + 16 ≤ length s.now }
    ensures { result ≡ true → PlainRun s.now at 16 }
{
    let mut all = true;
    for b in &s[at..at + BLOCK] {
        all &= is_plain(*b);
    }
    all
}

// Past the blocks of plain bytes that stand at `at`.
#[tactic(auto, using(crate::proofs::PlainLaws::plain_rules))]
fn plain_end(s: &[u8], at: usize) -> usize
    ensures { end_of (length s.now) (read_str (drop at s.now)) ≡ end_of (length s.now) (read_str (drop result s.now)) }
{
    let mut i = at;
    while i < s.len() && BLOCK <= s.len() - i && is_plain_block(s, i) {
        i += BLOCK;
    }
    i
}

// The string whose opening quote stands just before `at`. Long runs of plain bytes come first: they are most of what is read.
#[tactic(auto, using(crate::proofs::Chars::string_rules))]
pub fn string(s: &[u8], at: usize) -> Option<usize>
    ensures { result ≡ end_of (length s.now) (read_str (drop at s.now)) }
{
    let mut i = plain_end(s, at);
    while i < s.len() {
        if s[i] == b'"' {
            return Some(i + 1);
        }
        i = char_end(s, i)?;
    }
    None
}

// The kinds of value, as the first byte tells them.
#[derive(Clone, Copy)]
pub enum Kind {
    Text,
    Minus,
    Digit,
    Array,
    Object,
    True,
    False,
    Null,
    Other,
}

// What a value is, by its first byte.
#[tactic(auto, unfolding(crate::specs::Read::kind_of))]
fn kind_of(b: u8) -> Kind
    ensures { result ≡ kind_of b }
{
    match b {
        b'"' => Kind::Text,
        b'-' => Kind::Minus,
        b'[' => Kind::Array,
        b'f' => Kind::False,
        b'n' => Kind::Null,
        b't' => Kind::True,
        b'{' => Kind::Object,
        b'0'..=b'9' => Kind::Digit,
        _ => Kind::Other,
    }
}

// Past the digits at `at`; the end of the text where none is left there.
#[tactic(auto, using(crate::proofs::Numbers::digits_rules))]
pub fn digits_end(s: &[u8], at: usize) -> usize
    ensures { end_of (length s.now) (digits_of (drop at s.now)) ≡ Some result }
{
    for i in at..s.len() {
        if !s[i].is_ascii_digit() {
            return i;
        }
    }
    s.len()
}

// The digits of a number, after its minus where there is one.
#[tactic(auto, using(crate::proofs::Numbers::number_rules))]
pub fn number(s: &[u8], at: usize, neg: bool) -> Option<usize>
    ensures { result ≡ end_of (length s.now) (number_of neg (drop at s.now)) }
{
    match s.get(at)? {
        b'0' if neg => None,
        b'0' => Some(at + 1),
        b'1'..=b'9' => Some(digits_end(s, at + 1)),
        _ => None,
    }
}

// The bytes w stand at `at`.
#[tactic(auto, using(crate::proofs::Words::stands, crate::proofs::Words::differs))]
fn word(s: &[u8], at: usize, w: &[u8]) -> Option<usize>
    requires { at ≤ length s.now }
    ensures { result ≡ end_of (length s.now) (word_of w.now (drop at s.now)) }
{
    if s[at..].starts_with(w) {
        Some(at + w.len())
    } else {
        None
    }
}

// The byte of a name at i, or that the name ends there.
#[tactic(auto, using(crate::proofs::NameLaws::char_rules))]
pub fn char_at(s: &[u8], i: usize) -> Option<(u8, usize)>
    ensures { CharRead s.now i result }
{
    let first = *s.get(i)?;
    if first == b'"' {
        return None;
    }
    let j = i + 1;
    if first == b'\\' {
        return Some((*s.get(j)?, j + 1));
    }
    Some((first, j))
}

// Whether the bytes are one plain byte.
#[tactic(auto, unfolding(crate::specs::Strings::shared))]
fn is_shared(x: u8, y: u8) -> bool
    ensures { result ≡ shared x y }
{
    let one = is_plain(x);
    one & (x == y)
}

// Whether the blocks have the same plain bytes.
fn is_shared_block(s: &[u8], a: usize, b: usize) -> bool
    requires { (a + 16 ≤ length s.now) × (b + 16 ≤ length s.now) }
    ensures { result ≡ true → SharedRun s.now a b 16 }
{
    let mut all = true;
    for k in 0..BLOCK {
        all &= is_shared(s[a + k], s[b + k]);
    }
    all
}

// Past the blocks that the names share: names that follow one another mostly begin alike.
#[tactic(auto, using(crate::proofs::SharedLaws::shared_rules))]
fn shared_end(s: &[u8], a: usize, b: usize) -> (usize, usize)
    ensures { less (raw (drop a s.now)) (raw (drop b s.now)) ≡ less (raw (drop result.0 s.now)) (raw (drop result.1 s.now)) }
{
    let mut i = a;
    let mut j = b;
    while i < s.len()
        && BLOCK <= s.len() - i
        && j < s.len()
        && BLOCK <= s.len() - j
        && is_shared_block(s, i, j)
    {
        i += BLOCK;
        j += BLOCK;
    }
    (i, j)
}

// The name at a is less than the name at b: byte by byte, a shorter prefix first.
#[tactic(auto, using(crate::proofs::NameLaws::less_rules))]
fn name_less(s: &[u8], a: usize, b: usize) -> bool
    ensures { result ≡ less (raw (drop a s.now)) (raw (drop b s.now)) }
{
    let (mut i, mut j) = shared_end(s, a, b);
    loop {
        let Some((y, jj)) = char_at(s, j) else {
            return false;
        };
        let Some((x, ii)) = char_at(s, i) else {
            return true;
        };
        if x != y {
            return x < y;
        }
        i = ii;
        j = jj;
    }
}

// The name at k follows the one before.
fn in_order(s: &[u8], last: Option<usize>, k: usize) -> bool
    ensures { result ≡ rises (last_of s.now last) (raw (drop k s.now)) }
{
    match last {
        None => true,
        Some(p) => name_less(s, p, k),
    }
}

// The value at `at`; objects and arrays may hold one another `depth` deep.
#[cycle(array_object_pair_value)]
#[tactic(auto, using(crate::proofs::Values::value_rules))]
pub fn value(s: &[u8], at: usize, depth: u8) -> Option<usize>
    ensures { result ≡ end_of (length s.now) (read depth (drop at s.now)) }
{
    let kind = kind_of(*s.get(at)?);
    let next = at + 1;
    match kind {
        Kind::Text => string(s, next),
        Kind::Minus => number(s, next, true),
        Kind::Digit => number(s, at, false),
        Kind::Array if 0 < depth => array(s, next, depth - 1),
        Kind::Object if 0 < depth => object(s, next, depth - 1),
        Kind::True => word(s, next, b"rue"),
        Kind::False => word(s, next, b"alse"),
        Kind::Null => word(s, next, b"ull"),
        Kind::Array | Kind::Object | Kind::Other => None,
    }
}

// The array whose opening bracket stands just before `at`; its elements may go `depth` deep.
#[cycle(array_object_pair_value)]
#[tactic(auto, using(crate::proofs::Loops::array_rules))]
pub fn array(s: &[u8], at: usize, depth: u8) -> Option<usize>
    ensures { result ≡ end_of (length s.now) (array_of (read depth) (drop at s.now)) }
{
    if *s.get(at)? == b']' {
        return Some(at + 1);
    }
    let mut i = at;
    loop {
        let e = value(s, i, depth)?;
        match s.get(e)? {
            b']' => return Some(e + 1),
            b',' => i = e + 1,
            _ => return None,
        }
    }
}

// The member at i, whose name must follow the one before.
#[cycle(array_object_pair_value)]
#[tactic(auto, using(crate::proofs::Members::pair_rules))]
fn pair(s: &[u8], i: usize, last: Option<usize>, depth: u8) -> Option<usize>
    ensures { result ≡ end_of (length s.now) (member_of (read depth) (last_of s.now last) (drop i s.now)) }
{
    if *s.get(i)? != b'"' {
        return None;
    }
    let k = i + 1;
    let e = string(s, k)?;
    if !in_order(s, last, k) {
        return None;
    }
    if *s.get(e)? != b':' {
        return None;
    }
    value(s, e + 1, depth)
}

// The object whose opening brace stands just before `at`; its values may go `depth` deep.
#[cycle(array_object_pair_value)]
#[tactic(auto, using(crate::proofs::Members::object_rules))]
pub fn object(s: &[u8], at: usize, depth: u8) -> Option<usize>
    ensures { result ≡ end_of (length s.now) (object_of (read depth) (drop at s.now)) }
{
    if *s.get(at)? == b'}' {
        return Some(at + 1);
    }
    let mut i = at;
    let mut last = None;
    loop {
        let e = pair(s, i, last, depth)?;
        match s.get(e)? {
            b'}' => return Some(e + 1),
            b',' => {
                last = Some(i + 1);
                i = e + 1;
            }
            _ => return None,
        }
    }
}

// Whether the text is canonical.
#[tactic(auto, using(crate::proofs::Canonical::verdict_rules))]
pub fn is_canonical(s: &[u8]) -> bool
    ensures { (result ≡ true) ↔ Canonical max_depth s.now }
{
    value(s, 0, MAX_DEPTH) == Some(s.len())
}
