// A snapshot file, read (01, refusals 1 to 4).
#![tactic(auto)]

ghost use Rattle.std.specs.Prelude.{◌≡◌, drop};
ghost use Rattle.std.specs.Option.{option_map};
ghost use Rattle.canonical_json.specs.Read.{raw};
ghost use Rattle.lookup.specs.Place.{Reads};
ghost use Rattle.rules.specs.Limits.{max_name};
ghost use Rattle.rules.specs.Take.{name_of};
ghost use Rattle.rules.specs.Forms.{named as named_form, names as names_form};
ghost use Rattle.rules.specs.State.{snapshot_in};
ghost use Rattle.records.specs.View.{view_name, view_named, view_names, view_snapshot};
ghost use Rattle.forms.specs.Member.{ReadsMust};
ghost use Rattle.envelope.specs.Open.{view_read};

use envelope::{Fault, Signed};
use lookup::{Member, Spanned};
use records::{Name, Named, Names, Snapshot};

// A name of 1 to 32 bytes, escapes undone: it is read just past its opening quote at `i`.
fn name_in(s: &[u8], i: usize) -> Option<Name>
    ensures { option_map view_name result ≡ name_of max_name (raw (drop i s.now)) }
{
    let length = lookup::text_len(s, i);
    let mut bytes = [0u8; records::MAX_NAME];
    let fits = lookup::copy_text(s, i, &mut bytes);
    if length < 1 || !fits {
        return None;
    }
    Some(Name { length, bytes })
}

// The member whose name is read at `i` and whose value stands at `at`: the name with what is said of it, and where that ends.
fn named_at(s: &[u8], i: usize, at: usize) -> Option<Spanned<Named>>
    ensures { Reads view_named s.now at (named_form (raw (drop i s.now))) result }
{
    let name = name_in(s, i)?;
    let said = forms::listed_at(s, at)?;
    Some(Spanned {
        value: Named {
            name,
            listed: said.value,
        },
        end: said.end,
    })
}

// ---- "meta"

// What stands in an array of names where none was read.
fn blank() -> Named {
    Named {
        name: Name {
            length: 0,
            bytes: [0u8; records::MAX_NAME],
        },
        listed: forms::listed(0, None, None),
    }
}

// 1 to 32 names, each with what is said of it, `targets.json` among them.
fn names_at(s: &[u8], at: usize) -> Option<Spanned<Names>>
    ensures { Reads view_names s.now at names_form result }
{
    let mut named = [blank(); records::MAX_NAMES];
    let mut n: usize = 0;
    let mut targets = None;
    let mut m = lookup::first_member(s, at);
    while let Member::At { name, value } = m {
        if records::MAX_NAMES <= n {
            return None;
        }
        let read = named_at(s, name, value)?;
        named[n] = read.value;
        n += 1;
        targets = lookup::noted(s, name, value, b"targets.json", targets);
        m = lookup::next_member_by(s, value, read.end);
    }
    let Member::End(e) = m else {
        return None;
    };
    if n < 1 || targets.is_none() {
        return None;
    }
    Some(Spanned {
        value: Names { count: n, named },
        end: Some(e),
    })
}

fn meta_names(s: &[u8], found: Option<usize>) -> Option<Spanned<Names>>
    ensures { ReadsMust view_names s.now found names_form result }
{
    names_at(s, found?)
}

// ---- The file

// What a snapshot file says, with the keyids of its entries; or the refusal.
pub fn read_snapshot(file: &[u8]) -> Result<Signed<Snapshot>, Fault>
    ensures { view_read view_snapshot result ≡ snapshot_in file.now }
{
    let opened = envelope::open_envelope(file)?;
    let found = lookup::find_member(file, opened.start, b"meta");
    let meta = meta_names(file, found).ok_or(Fault::BadForm)?;
    let body = lookup::extent_of(found, meta.end);
    let header = envelope::header_at(file, opened.start, b"snapshot", body).ok_or(Fault::BadForm)?;
    if !header.known {
        return Err(Fault::OtherSpec);
    }
    Ok(Signed {
        signed: Snapshot {
            version: header.version,
            expires: header.expires,
            names: meta.value,
        },
        entries: opened.entries,
    })
}
