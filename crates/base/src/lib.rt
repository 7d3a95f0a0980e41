// Byte strings: equality, windows by index, lower-case hex.
#![tactic(auto)]

ghost use Rattle.std.specs.Prelude.{◌≡◌, ◌+◌, ◌*◌, ◌<◌, length, take, drop};
ghost use Rattle.base.specs.Bytes.{same as same_of};
ghost use Rattle.base.specs.Window.{byte_at, window};
ghost use Rattle.base.specs.Hex.{digit_of, all_hex, is_hex, Undone, undone};

// Whether a and b are the same bytes.
pub fn same(a: &[u8], b: &[u8]) -> bool
    ensures { result ≡ same_of a.now b.now }
{
    a == b
}

// Whether the bytes w stand at `at`.
pub fn has_at(s: &[u8], at: usize, w: &[u8]) -> bool
    ensures { result ≡ same_of (take (length w.now) (drop at s.now)) w.now }
{
    match s.get(at..) {
        Some(rest) => rest.starts_with(w),
        None => w.is_empty(),
    }
}

// The value of a lower-case hex digit, or 16.
#[tactic(auto, unfolding(crate::specs::Hex::digit_of))]
pub fn hex_digit(b: u8) -> u8
    ensures { result ≡ digit_of b }
{
    match b {
        b'0'..=b'9' => b - b'0',
        b'a'..=b'f' => b - b'a' + 10,
        _ => 16,
    }
}

// The value of a byte that is a digit: one test tells a letter from a decimal digit.
#[tactic(auto, unfolding(crate::specs::Hex::digit_of))]
fn digit_value(b: u8) -> u8
    requires { digit_of b < 16 }
    ensures { result ≡ digit_of b }
{
    if b < b'a' { b - b'0' } else { b - b'a' + 10 }
}

// The byte k places after i, 0 past the end.
pub fn byte_after(a: &[u8], i: usize, k: usize) -> u8
    ensures { result ≡ byte_at a.now (i + k) }
{
    let Some(rest) = a.get(i..) else { return 0 };
    rest.get(k).copied().unwrap_or(0)
}

// Whether the n bytes of a from i on are the n bytes of b from j on.
pub fn same_window(a: &[u8], i: usize, b: &[u8], j: usize, n: usize) -> bool
    ensures { result ≡ same_of (window a.now i n) (window b.now j n) }
{
    (0..n).all(|k| byte_after(a, i, k) == byte_after(b, j, k))
}

// Whether every byte of s is a lower-case hex digit. All are looked at, so that the compiler can take many at once.
fn all_hex(s: &[u8]) -> bool
    ensures { result ≡ all_hex s.now }
{
    let mut ok = true;
    for b in s {
        ok &= hex_digit(*b) < 16;
    }
    ok
}

// Whether s is n bytes in hex.
pub fn is_hex(s: &[u8], n: usize) -> bool
    ensures { result ≡ is_hex n s.now }
{
    s.len() % 2 == 0 && s.len() / 2 == n && all_hex(s)
}

// Undoes hex into the whole of `out`, two digits to a byte. Where s is not exactly that many digits, `out` stays as it is.
pub fn undo_hex(s: &[u8], out: &mut [u8]) -> bool
    ensures { Undone s.now out.old result out.new }
{
    if !is_hex(s, out.len()) {
        return false;
    }
    for (i, byte) in out.iter_mut().enumerate() {
        let high = digit_value(s[i * 2]);
        let low = digit_value(s[i * 2 + 1]);
        *byte = high * 16 + low;
    }
    true
}

// The N bytes that s writes, if it is exactly 2 N digits.
pub fn hex_array<const N: usize>(s: &[u8]) -> Option<[u8; N]>
    ensures { result ≡ undone N s.now }
{
    let mut bytes = [0u8; N];
    let accepted = undo_hex(s, &mut bytes);
    accepted.then_some(bytes)
}
