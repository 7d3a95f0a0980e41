// The envelope of a file (01, "Forms"): signature entries, the signed part by its place, and what every role's file says.
#![tactic(auto)]

ghost use Rattle.std.specs.Prelude.{◌≡◌, drop, take, IsSome};
ghost use Rattle.std.specs.Option.{option_map};
ghost use Rattle.base.specs.Bytes.{bytes, same};
ghost use Rattle.canonical_json.specs.Read.{raw};
ghost use Rattle.canonical_json.specs.Fields.{keep};
ghost use Rattle.lookup.specs.Place.{Takes, KnownEnd, Reads};
ghost use Rattle.rules.specs.Forms.{known_spec};
ghost use Rattle.rules.specs.Reading.{read_envelope};
ghost use Rattle.rules.specs.Steps.{fault_number};
ghost use Rattle.records.specs.View.{view_entries};
ghost use Rattle.answers.specs.Number.{refusal_number};
ghost use Rattle.envelope.specs.Header.{ReadsEntry, keyids, spec_known, header, view_header};
ghost use Rattle.forms.specs.Member.{TakesMust};
ghost use Rattle.envelope.specs.Open.{object, Unfolds, Opens, view_fault};

use answers::Refusal;
use date::Time;
use lookup::{Element, Extent, Member, Spanned};
use records::{Entries, Id};

// Why a file says nothing: the refusals of reading.
#[derive(Clone, Copy, Debug, PartialEq, Eq)]
pub enum Fault {
    TooLong,
    NotText,
    BadForm,
    OtherKeyid,
    OtherSpec,
}

impl From<Fault> for Refusal {
    ghost from_gives = { λ f r. refusal_number r ≡ fault_number (view_fault f) };

    #[tactic(auto, unfolding(rules::specs::Steps::fault_number))]
    fn from(fault: Fault) -> Refusal {
        match fault {
            Fault::TooLong => Refusal::TooLong,
            Fault::NotText => Refusal::NotText,
            Fault::BadForm => Refusal::BadForm,
            Fault::OtherKeyid => Refusal::OtherKeyid,
            Fault::OtherSpec => Refusal::OtherSpec,
        }
    }
}

// What a file's signed part says, with the keyids of its signature entries.
#[derive(Clone, Copy)]
pub struct Signed<T> {
    pub signed: T,
    pub entries: Entries,
}

// ---- Signature entries

// An entry, by where the digits of its keyid and of its signature stand.
#[derive(Clone, Copy)]
pub struct EntryAt {
    pub keyid: usize,
    pub sig: usize,
}

// The entry at `at` if it has no members but "keyid" and "sig". Names rise, so that it has one text only: {"keyid":"digits","sig":"digits"}.
fn plain_entry(s: &[u8], at: usize) -> Option<Spanned<EntryAt>>
    ensures { IsSome result → ReadsEntry s.now at result }
{
    let opening = b"{\"keyid\":\"";
    let between = b"\",\"sig\":\"";
    let closing = b"\"}";
    if !base::has_at(s, at, opening) {
        return None;
    }
    let keyid = at + opening.len();
    if !forms::has_digits(s, keyid, records::KEY) {
        return None;
    }
    let e = keyid + records::KEY * 2;
    if !base::has_at(s, e, between) {
        return None;
    }
    let sig = e + between.len();
    if !forms::has_digits(s, sig, records::SIGNATURE) {
        return None;
    }
    let f = sig + records::SIGNATURE * 2;
    if !base::has_at(s, f, closing) {
        return None;
    }
    Some(Spanned {
        value: EntryAt { keyid, sig },
        end: Some(f + closing.len()),
    })
}

// The entry at `at`, whatever else it has: "keyid" and "sig".
fn walked_entry(s: &[u8], at: usize) -> Option<Spanned<EntryAt>>
    ensures { ReadsEntry s.now at result }
{
    let m = lookup::find_members(s, at, b"keyid", b"sig", b"", b"");
    let keyid = forms::digits_field(s, m.first, records::KEY)?;
    let sig = forms::digits_field(s, m.second, records::SIGNATURE)?;
    Some(Spanned {
        value: EntryAt { keyid, sig },
        end: m.end,
    })
}

// "keyid" and "sig": the one text first, which is that of nearly every entry.
pub fn entry_at(s: &[u8], at: usize) -> Option<Spanned<EntryAt>>
    ensures { ReadsEntry s.now at result }
{
    match plain_entry(s, at) {
        Some(entry) => Some(entry),
        None => walked_entry(s, at),
    }
}

// The keyids of at most 16 entries.
pub fn entries_at(s: &[u8], at: usize) -> Option<Spanned<Entries>>
    ensures { Reads view_entries s.now at keyids result }
{
    let mut ids = [Id { bytes: [0u8; 32] }; records::MAX_ENTRIES];
    let mut n: usize = 0;
    let mut e = lookup::first_element(s, at);
    loop {
        match e {
            Element::At(i) => {
                if records::MAX_ENTRIES <= n {
                    return None;
                }
                let entry = entry_at(s, i)?;
                ids[n] = forms::id_in(s, entry.value.keyid)?;
                n += 1;
                e = lookup::next_element_by(s, i, entry.end);
            }
            Element::NoArray => return None,
            Element::End(past) => {
                return Some(Spanned {
                    value: Entries { count: n, ids },
                    end: Some(past),
                });
            }
        }
    }
}

// ---- The header: what every role's file says besides its body

// Whether the string begins with `1.`: it is read just past its opening quote.
fn one_dot(s: &[u8], i: usize) -> bool
    ensures { result ≡ same (take 2 (raw (drop i s.now))) (bytes "1.") }
{
    let Some((a, j)) = canonical_json::char_at(s, i) else {
        return false;
    };
    if a != b'1' {
        return false;
    }
    let Some((b, _)) = canonical_json::char_at(s, j) else {
        return false;
    };
    b == b'.'
}

// Whether it is `1` or begins with `1.`.
fn spec_in(s: &[u8], i: usize) -> bool
    ensures { result ≡ known_spec (raw (drop i s.now)) }
{
    lookup::text_is(s, i, b"1") || one_dot(s, i)
}

// Whether the "spec_version" at `at` is known.
fn spec_at(s: &[u8], at: usize) -> Option<bool>
    ensures { Takes s.now at spec_known result }
{
    let i = lookup::string_at(s, at)?;
    Some(spec_in(s, i))
}

fn spec_field(s: &[u8], found: Option<usize>) -> Option<bool>
    ensures { TakesMust s.now found spec_known result }
{
    spec_at(s, found?)
}

#[derive(Clone, Copy)]
pub struct Header {
    pub known: bool,
    pub version: u64,
    pub expires: Time,
}

// "_type" with its name, "spec_version", "version", "expires". The end of the body, which stands among them, may be known.
pub fn header_at(s: &[u8], at: usize, kind: &[u8], body: Extent) -> Option<Header>
    ensures { KnownEnd s.now body.at body.end → Takes s.now at (header kind.now) (option_map view_header result) }
{
    let m = lookup::find_members_by(
        s,
        at,
        b"_type",
        b"spec_version",
        b"version",
        b"expires",
        body,
    );
    if !forms::word_field(s, m.first, kind) {
        return None;
    }
    let known = spec_field(s, m.second)?;
    let version = forms::version_field(s, m.third)?;
    let expires = forms::date_field(s, m.fourth)?;
    Some(Header {
        known,
        version,
        expires,
    })
}

// ---- The envelope

fn is_object(s: &[u8], at: usize) -> bool
    ensures { Takes s.now at object (keep result tt) }
{
    !matches!(lookup::first_member(s, at), Member::NoObject)
}

// An envelope that was opened: the place of the signed part, and the keyids of its entries.
#[derive(Clone, Copy)]
pub struct Opened {
    pub start: usize,
    pub entries: Entries,
}

// The envelope of a canonical text, where it has the form.
fn envelope_in(file: &[u8]) -> Option<Opened>
    ensures { Unfolds file.now result }
{
    let found = lookup::find_member(file, 0, b"signatures")?;
    let read = entries_at(file, found)?;
    let extent = Extent {
        at: found,
        end: read.end,
    };
    let start = lookup::find_member_by(file, 0, b"signed", extent)?;
    if !is_object(file, start) {
        return None;
    }
    Some(Opened {
        start,
        entries: read.value,
    })
}

// Refusals 1 to 3. The file is validated once; what follows looks into a text that is known to be canonical.
pub fn open_envelope(file: &[u8]) -> Result<Opened, Fault>
    ensures { Opens file.now result (read_envelope file.now) }
{
    if records::MAX_FILE < file.len() {
        return Err(Fault::TooLong);
    }
    if !canonical_json::is_canonical(file) {
        return Err(Fault::NotText);
    }
    envelope_in(file).ok_or(Fault::BadForm)
}
