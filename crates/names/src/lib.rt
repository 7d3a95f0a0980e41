// Names that a snapshot lists: whether one was lost, what is said of `targets.json`, and a file against what is listed of it.
#![tactic(auto)]

ghost use Rattle.std.specs.Prelude.{◌≡◌};
ghost use Rattle.base.specs.Bytes.{bytes, same};
ghost use Rattle.rules.specs.Conditions.{lost as lost_of, other_length, other_digest};
ghost use Rattle.records.specs.View.{view_id, view_name, view_names, view_listed};
ghost use Rattle.names.specs.TargetsEntry.{TargetsEntry};

use records::{Id, Listed, Name, Names};

fn same_name(a: &Name, b: &Name) -> bool
    ensures { result ≡ same (view_name a.now) (view_name b.now) }
{
    a.text() == b.text()
}

// ---- Refusal 13: not "Every name in the held snapshot is still listed, with a version not lower"

pub fn lost(held: &Names, new: &Names) -> bool
    ensures { result ≡ lost_of (view_names held.now) (view_names new.now) }
{
    let mut lost = false;
    'held: for old in held.listed() {
        for now in new.listed() {
            if same_name(&old.name, &now.name) {
                if now.listed.version < old.listed.version {
                    lost = true;
                    break 'held;
                }
                continue 'held;
            }
        }
        lost = true;
        break 'held;
    }
    lost
}

// ---- The `targets.json` entry

fn is_targets(name: &Name) -> bool
    ensures { result ≡ same (bytes "targets.json") (view_name name.now) }
{
    name.text() == b"targets.json".as_slice()
}

// What is said of `targets.json`; where it is not listed, a version that no file has.
pub fn targets_entry(names: Names) -> Listed
    ensures { TargetsEntry (view_names names) (view_listed result) }
{
    match names.listed().iter().find(|named| is_targets(&named.name)) {
        Some(named) => named.listed,
        None => Listed {
            version: 0,
            measured: false,
            length: 0,
            hashed: false,
            digest: Id { bytes: [0; 32] },
        },
    }
}

// ---- Refusal 8: "Length and digest are compared where listed"

#[tactic(auto, unfolding(rules::specs::Conditions::other_length, records::specs::View::view_listed, canonical_json::specs::Fields::keep))]
pub fn other_length(l: Listed, n: u64) -> bool
    ensures { result ≡ other_length (view_listed l) n }
{
    l.measured && n != l.length
}

// Whether d is that digest, 32 bytes.
pub fn same_digest(d: &[u8], id: Id) -> bool
    ensures { result ≡ same d.now (view_id id) }
{
    d == id.bytes.as_slice()
}

#[tactic(auto, unfolding(rules::specs::Conditions::other_digest, records::specs::View::view_listed, canonical_json::specs::Fields::keep))]
pub fn other_digest(l: Listed, d: &[u8]) -> bool
    ensures { result ≡ other_digest (view_listed l) d.now }
{
    l.hashed && !same_digest(d, l.digest)
}
