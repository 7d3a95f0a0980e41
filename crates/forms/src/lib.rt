// Leaves and small forms (01, "Forms"), read at a place of a canonical text: hex, numbers, words, dates, what is said of a listed file.
// A contract `Takes s at F o` says: where a value stands at the place, o is what the form F says of it. `Reads` says where it ends, too.
#![tactic(auto)]

ghost use Rattle.std.specs.Prelude.{◌≡◌, ◌≤◌, drop};
ghost use Rattle.std.specs.Option.{option_map};
ghost use Rattle.canonical_json.specs.Read.{raw};
ghost use Rattle.canonical_json.specs.Fields.{keep, number};
ghost use Rattle.lookup.specs.Place.{Takes, Reads};
ghost use Rattle.date.specs.Calendar.{date_of};
ghost use Rattle.date.specs.View.{view_date};
ghost use Rattle.rules.specs.Limits.{key_size, signature_size, max_version};
ghost use Rattle.rules.specs.Take.{word, unhex, hex, date as date_form};
ghost use Rattle.rules.specs.Forms.{sha256, listed as listed_form};
ghost use Rattle.records.specs.View.{view_id, view_listed};
ghost use Rattle.forms.specs.Member.{TakesMust, TakesMay};
ghost use Rattle.forms.specs.View.{Fills, digits_at, undone_at, HexAt};

use date::Time;
use lookup::Spanned;
use records::{Id, Listed};

// ---- Strings of a known length: `i` stands just past the opening quote

// Copies the string's bytes into the whole of `out`. Where it has another number of bytes, `out` stays as it is.
fn fill_text(s: &[u8], i: usize, out: &mut [u8]) -> bool
    ensures { Fills (raw (drop i s.now)) out.old result out.new }
{
    lookup::text_len(s, i) == out.len() && lookup::copy_text(s, i, out)
}

// ---- Hex

// N bytes as digits, the string just past its opening quote at `i`. In a canonical text hex has no escape; the answer is pinned for every text.
fn hex_escaped<const N: usize>(s: &[u8], i: usize) -> Option<[u8; N]>
    requires { N ≤ signature_size }
    ensures { result ≡ unhex N (raw (drop i s.now)) }
{
    let mut pairs = [[0u8; 2]; N];
    let digits = pairs.as_flattened_mut();
    if !fill_text(s, i, digits) {
        return None;
    }
    base::hex_array(digits)
}

// The same: undone where they stand, if a quote closes them.
fn hex_in<const N: usize>(s: &[u8], i: usize) -> Option<[u8; N]>
    requires { N ≤ signature_size }
    ensures { result ≡ unhex N (raw (drop i s.now)) }
{
    let digits = N * 2;
    if base::byte_after(s, i, digits) == b'"' {
        if let Some(bytes) = base::hex_array(&s[i..i + digits]) {
            return Some(bytes);
        }
    }
    hex_escaped(s, i)
}

// A keyid, a public key or a digest: 64 lower-case hex digits, the string just past its opening quote at `i`.
pub fn id_in(s: &[u8], i: usize) -> Option<Id>
    ensures { option_map view_id result ≡ unhex key_size (raw (drop i s.now)) }
{
    let bytes = hex_in(s, i)?;
    Some(Id { bytes })
}

// 128 digits.
pub fn sig_in(s: &[u8], i: usize) -> Option<[u8; 64]>
    ensures { result ≡ unhex signature_size (raw (drop i s.now)) }
{
    hex_in(s, i)
}

pub fn id_at(s: &[u8], at: usize) -> Option<Id>
    ensures { Takes s.now at (hex key_size) (option_map view_id result) }
{
    id_in(s, lookup::string_at(s, at)?)
}

// The member that was found: one that must be there. So for the other fields.
pub fn id_field(s: &[u8], found: Option<usize>) -> Option<Id>
    ensures { TakesMust s.now found (hex key_size) (option_map view_id result) }
{
    id_at(s, found?)
}

// ---- Hex that is tested where it stands, and undone by who asks for it

// Whether n bytes in hex stand at `i`, and a quote after them.
pub fn has_digits(s: &[u8], i: usize, n: usize) -> bool
    ensures { result ≡ digits_at n s.now i }
{
    if s.len() / 2 < n {
        return false;
    }
    let digits = n * 2;
    base::byte_after(s, i, digits) == b'"' && base::is_hex(&s[i..i + digits], n)
}

// Where the digits begin, if the value at `at` is n bytes in hex. No digit is ever escaped, so that they stand there as they are.
fn digits_at(s: &[u8], at: usize, n: usize) -> Option<usize>
    ensures { Takes s.now at (hex n) (undone_at s.now result) × HexAt n s.now result }
{
    let i = lookup::string_at(s, at)?;
    if has_digits(s, i, n) { Some(i) } else { None }
}

pub fn digits_field(s: &[u8], found: Option<usize>, n: usize) -> Option<usize>
    ensures { TakesMust s.now found (hex n) (undone_at s.now result) × HexAt n s.now result }
{
    digits_at(s, found?, n)
}

// ---- Numbers

pub fn number_field(s: &[u8], found: Option<usize>, lo: u64, hi: u64) -> Option<u64>
    ensures { TakesMust s.now found (number lo hi) result }
{
    lookup::number_at(s, found?, lo, hi)
}

// A member that may be missing: there is a number within where it is there, and none where the form is broken.
fn number_may(s: &[u8], found: Option<usize>, lo: u64, hi: u64) -> Option<Option<u64>>
    ensures { TakesMay s.now found (number lo hi) result }
{
    let Some(at) = found else {
        return Some(None);
    };
    let n = lookup::number_at(s, at, lo, hi)?;
    Some(Some(n))
}

// "version" 1 to 9,007,199,254,740,991 (A7).
pub fn version_field(s: &[u8], found: Option<usize>) -> Option<u64>
    ensures { TakesMust s.now found (number 1 max_version) result }
{
    number_field(s, found, 1, records::MAX_VERSION)
}

// ---- Words and dates

fn word_at(s: &[u8], at: usize, k: &[u8]) -> bool
    ensures { Takes s.now at (word k.now) (keep result tt) }
{
    lookup::string_at(s, at).is_some_and(|i| lookup::text_is(s, i, k))
}

// Whether the member is the string `k`.
pub fn word_field(s: &[u8], found: Option<usize>, k: &[u8]) -> bool
    ensures { TakesMust s.now found (word k.now) (keep result tt) }
{
    found.is_some_and(|at| word_at(s, at, k))
}

fn date_in(s: &[u8], i: usize) -> Option<Time>
    ensures { view_date result ≡ date_of (raw (drop i s.now)) }
{
    let mut text = [0u8; 20];
    if !fill_text(s, i, &mut text) {
        return None;
    }
    date::parse(&text)
}

fn date_at(s: &[u8], at: usize) -> Option<Time>
    ensures { Takes s.now at date_form (view_date result) }
{
    date_in(s, lookup::string_at(s, at)?)
}

pub fn date_field(s: &[u8], found: Option<usize>) -> Option<Time>
    ensures { TakesMust s.now found date_form (view_date result) }
{
    date_at(s, found?)
}

// ---- What is said of a listed file

// The "sha256" of the hashes at `at`.
fn digest_at(s: &[u8], at: usize) -> Option<Id>
    ensures { Takes s.now at sha256 (option_map view_id result) }
{
    id_field(s, lookup::find_member(s, at, b"sha256"))
}

// "hashes", where it is there.
fn digest_may(s: &[u8], found: Option<usize>) -> Option<Option<Id>>
    ensures { TakesMay s.now found sha256 (option_map (option_map view_id) result) }
{
    let Some(at) = found else {
        return Some(None);
    };
    let digest = digest_at(s, at)?;
    Some(Some(digest))
}

// The record of these: length and digest where they are given.
pub fn listed(version: u64, length: Option<u64>, digest: Option<Id>) -> Listed
    ensures { view_listed result ≡ record { version = version; length = length; digest = option_map view_id digest } }
{
    Listed {
        version,
        measured: length.is_some(),
        length: length.unwrap_or(0),
        hashed: digest.is_some(),
        digest: digest.unwrap_or(Id { bytes: [0u8; 32] }),
    }
}

// "version", and where they are given "length" and "hashes".
pub fn listed_at(s: &[u8], at: usize) -> Option<Spanned<Listed>>
    ensures { Reads view_listed s.now at listed_form result }
{
    let m = lookup::find_members(s, at, b"version", b"length", b"hashes", b"");
    let version = version_field(s, m.first)?;
    let length = number_may(s, m.second, 0, records::MAX_LENGTH)?;
    let digest = digest_may(s, m.third)?;
    Some(Spanned {
        value: listed(version, length, digest),
        end: m.end,
    })
}
