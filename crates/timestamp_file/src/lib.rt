// A timestamp file, read (01, refusals 1 to 4).
#![tactic(auto)]

ghost use Rattle.std.specs.Prelude.{◌≡◌};
ghost use Rattle.base.specs.Bytes.{bytes};
ghost use Rattle.lookup.specs.Place.{Reads};
ghost use Rattle.rules.specs.Take.{sole};
ghost use Rattle.rules.specs.Forms.{listed};
ghost use Rattle.rules.specs.State.{timestamp_in};
ghost use Rattle.records.specs.View.{view_listed, view_timestamp};
ghost use Rattle.forms.specs.Member.{ReadsMust};
ghost use Rattle.envelope.specs.Open.{view_read};

use envelope::{Fault, Signed};
use lookup::{Member, Spanned};
use records::{Listed, Timestamp};

// What is said of the one name, and where the object at `at` ends.
fn sole_listed(s: &[u8], at: usize) -> Option<Spanned<Listed>>
    ensures { Reads view_listed s.now at (sole (bytes "snapshot.json") listed) result }
{
    let Member::At { name, value } = lookup::first_member(s, at) else {
        return None;
    };
    if !lookup::text_is(s, name, b"snapshot.json") {
        return None;
    }
    let said = forms::listed_at(s, value)?;
    let Member::End(e) = lookup::next_member_by(s, value, said.end) else {
        return None;
    };
    Some(Spanned {
        value: said.value,
        end: Some(e),
    })
}

// "meta" with the one name `snapshot.json`.
fn meta_listed(s: &[u8], found: Option<usize>) -> Option<Spanned<Listed>>
    ensures { ReadsMust view_listed s.now found (sole (bytes "snapshot.json") listed) result }
{
    sole_listed(s, found?)
}

// What a timestamp file says, with the keyids of its entries; or the refusal.
pub fn read_timestamp(file: &[u8]) -> Result<Signed<Timestamp>, Fault>
    ensures { view_read view_timestamp result ≡ timestamp_in file.now }
{
    let opened = envelope::open_envelope(file)?;
    let found = lookup::find_member(file, opened.start, b"meta");
    let meta = meta_listed(file, found).ok_or(Fault::BadForm)?;
    let body = lookup::extent_of(found, meta.end);
    let header = envelope::header_at(file, opened.start, b"timestamp", body).ok_or(Fault::BadForm)?;
    if !header.known {
        return Err(Fault::OtherSpec);
    }
    Ok(Signed {
        signed: Timestamp {
            version: header.version,
            expires: header.expires,
            snapshot: meta.value,
        },
        entries: opened.entries,
    })
}
