// Looking into a file (01, "Text"): its signed part and its signature entries. Only the envelope is asked for, refusals 1 to 3.
#![tactic(auto)]

ghost use Rattle.std.specs.Prelude.{◌≡◌, ◌+◌};
ghost use Rattle.std.specs.Option.{option_map};
ghost use Rattle.base.specs.Bytes.{bytes};
ghost use Rattle.lookup.specs.Place.{Finds, Takes};
ghost use Rattle.rules.specs.Take.{must};
ghost use Rattle.rules.specs.Asked.{look as look_into, signed_part, entry_at};
ghost use Rattle.inspect.specs.View.{view_look, view_looked, view_entry_read, view_asked};
ghost use Rattle.inspect.specs.Elements.{element_at, asked_entry};

use answers::{Answer, Refusal};
use lookup::Element;
use records::Id;

// ---- The signed part

// The signed part by its place and length, and the number of entries; zeros where it is refused.
#[derive(Clone, Copy)]
pub struct Looked {
    pub answer: Answer,
    pub start: usize,
    pub length: usize,
    pub entries: usize,
}

fn find_part(file: &[u8]) -> Result<Looked, Refusal>
    ensures { view_looked result ≡ look_into file.now }
{
    let opened = envelope::open_envelope(file)?;
    // the signed part stands at its place, so that it ends
    let end = lookup::value_end(file, opened.start).ok_or(Refusal::BadForm)?;
    Ok(Looked {
        answer: Ok(()),
        start: opened.start,
        length: end - opened.start,
        entries: opened.entries.all().len(),
    })
}

// "A refused look gives an empty part and 0".
pub fn look(file: &[u8]) -> Looked
    ensures { view_look result ≡ look_into file.now }
{
    match find_part(file) {
        Ok(looked) => looked,
        Err(refusal) => Looked {
            answer: Err(refusal),
            start: 0,
            length: 0,
            entries: 0,
        },
    }
}

// The signed part itself, in the caller's own bytes: the same memory, from its place on. Empty where the look is refused.
pub fn signed_part(file: &[u8]) -> &[u8]
    ensures result_value { result.now ≡ signed_part file.now }
    ensures ref_ptr_value { (result.ref_ptr.0 ≡ file.entry.ref_ptr.0) × (result.ref_ptr.1 ≡ (look_into file.now).start + file.entry.ref_ptr.1) }
{
    let looked = look(file);
    &file[looked.start..looked.start + looked.length]
}

// ---- One entry

// One entry; zeros where it is refused.
#[derive(Clone, Copy)]
pub struct EntryRead {
    pub answer: Answer,
    pub keyid: Id,
    pub sig: [u8; 64],
}

// Where the element at that place of the array at `at` stands.
fn nth_element(s: &[u8], at: usize, place: usize) -> Option<usize>
    ensures { Finds s.now at (element_at place) result }
{
    let mut e = lookup::first_element(s, at);
    for _ in 0..place {
        let Element::At(i) = e else {
            return None;
        };
        e = lookup::next_element(s, i);
    }
    match e {
        Element::At(i) => Some(i),
        _ => None,
    }
}

// Where the entry at that place stands: the envelope is the whole file.
fn find_entry(file: &[u8], place: usize) -> Option<usize>
    ensures { Finds file.now 0 (must (bytes "signatures") (element_at place)) result }
{
    let entries = lookup::find_member(file, 0, b"signatures")?;
    nth_element(file, entries, place)
}

// The entry at `at`.
fn entry_in(s: &[u8], at: usize) -> Option<EntryRead>
    ensures { Takes s.now at asked_entry (option_map view_entry_read result) }
{
    let entry = envelope::entry_at(s, at)?.value;
    let keyid = forms::id_in(s, entry.keyid)?;
    let sig = forms::sig_in(s, entry.sig)?;
    Some(EntryRead {
        answer: Ok(()),
        keyid,
        sig,
    })
}

fn listed_entry(file: &[u8], place: usize) -> Result<EntryRead, Refusal>
    ensures { view_asked result ≡ entry_at file.now place }
{
    envelope::open_envelope(file)?;
    let at = find_entry(file, place).ok_or(Refusal::NotListed)?;
    // every entry of an envelope that opens has its form
    entry_in(file, at).ok_or(Refusal::BadForm)
}

// "its place counted from 0"; "refused, they give that many zeros".
pub fn entry(file: &[u8], place: usize) -> EntryRead
    ensures { view_entry_read result ≡ entry_at file.now place }
{
    match listed_entry(file, place) {
        Ok(entry) => entry,
        Err(refusal) => EntryRead {
            answer: Err(refusal),
            keyid: Id { bytes: [0u8; 32] },
            sig: [0u8; 64],
        },
    }
}
