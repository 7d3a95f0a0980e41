// Keys by keyid: which keys of a role signed, whether a role's keys were rotated, a key's public value.
#![tactic(auto)]

ghost use Rattle.std.specs.Prelude.{◌≡◌, not, ◌&&◌, ◌||◌, ℕ, ◌<◌, min, eqb, ltb, Bool};
ghost use Rattle.base.specs.Bytes.{Bytes, same};
ghost use Rattle.rules.specs.Forms.{is_in};
ghost use Rattle.rules.specs.Conditions.{any, bad_row, signed, too_few, key_of};
ghost use Rattle.rules.specs.Conditions.{within as within_of, other_keys, rotated as rotated_of};
ghost use Rattle.records.specs.View.{view_id, view_entries, view_table, view_role, key_at, has};
ghost use Rattle.keys.specs.Signers.{Marked, Marks, has_id, Asked};

use records::{Entries, Id, KeyTable, Role};

pub fn same_id(a: Id, b: Id) -> bool
    ensures { result ≡ same (view_id a) (view_id b) }
{
    a == b
}

// ---- Refusal 5: "a verdict row of another length than the entries, a verdict not 0 or 1"

pub fn bad_row(entries: Entries, row: &[u8]) -> bool
    ensures { result ≡ bad_row (view_entries entries) row.now }
{
    row.len() != entries.all().len() || row.iter().any(|v| 1 < *v)
}

// ---- The places of a key table, by a test of their keyids

// Those that pass, as bits.
fn places<F: Fn(Id) -> bool>(table: &KeyTable, test: F) -> u16
    requires { F.IsAlwaysCallable test }
    ensures { Marked (λ k r. F.post test (key_at table.now k).keyid r) (min table.now.count 16) result }
{
    let mut bits = 0u16;
    for (j, key) in table.all().iter().enumerate() {
        if test(key.keyid) {
            bits |= 1 << j;
        }
    }
    bits
}

fn names(role: Role, place: usize) -> bool
    requires { place < 16 }
    ensures { result ≡ has role.keys place }
{
    (role.keys >> place) % 2 == 1
}

// Whether one that the role names passes.
fn any_named<F: Fn(Id) -> bool>(table: &KeyTable, role: Role, test: F) -> bool
    requires { F.IsAlwaysCallable test }
    ensures { (p : Bytes → Bool) → ((k : Id) (r : Bool) → F.post test k r → r ≡ p (view_id k)) → result ≡ any p (view_role table.now role).keyids }
{
    for (j, key) in table.all().iter().enumerate() {
        if names(role, j) && test(key.keyid) {
            return true;
        }
    }
    false
}

// ---- Refusals 9 and 10: "A key counts once for a role if that role names it and some entry with its keyid has verdict 1"

// Whether some entry has that keyid and verdict 1.
fn is_signed(keyid: Id, entries: &Entries, row: &[u8]) -> bool
    ensures { result ≡ signed (view_id keyid) (view_entries entries.now) row.now }
{
    entries
        .all()
        .iter()
        .zip(row)
        .any(|(entry, verdict)| *verdict == 1 && same_id(keyid, *entry))
}

// The places of the key table that have that keyid, as bits.
pub fn places_of(table: KeyTable, keyid: Id) -> u16
    ensures { Marks (min table.count 16) (has_id table (view_id keyid)) result }
{
    places(&table, |id| same_id(keyid, id))
}

pub fn too_few(table: KeyTable, role: Role, entries: Entries, row: &[u8]) -> bool
    ensures { result ≡ too_few (view_role table role) (view_entries entries) row.now }
{
    let signers = places(&table, |id| is_signed(id, &entries, row));
    u64::from((signers & role.keys).count_ones()) < role.threshold
}

// ---- Rotation (A5): "a role is rotated when its set of keyids or its threshold differs"

fn is_member(keyid: Id, table: &KeyTable, role: Role) -> bool
    ensures { result ≡ is_in (view_id keyid) (view_role table.now role).keyids }
{
    any_named(table, role, |id| same_id(keyid, id))
}

fn within(a: &KeyTable, role: Role, b: &KeyTable, other: Role) -> bool
    ensures { result ≡ within_of (view_role a.now role).keyids (view_role b.now other).keyids }
{
    !any_named(a, role, |id| !is_member(id, b, other))
}

fn other_keys(a: &KeyTable, old: Role, b: &KeyTable, new: Role) -> bool
    ensures { result ≡ other_keys (view_role a.now old) (view_role b.now new) }
{
    !within(a, old, b, new) || !within(b, new, a, old)
}

pub fn rotated(a: KeyTable, old: Role, b: KeyTable, new: Role) -> bool
    ensures { result ≡ rotated_of (view_role a old) (view_role b new) }
{
    other_keys(&a, old, &b, new) || old.threshold != new.threshold
}

// ---- A key asked for

pub fn public_of(table: KeyTable, keyid: Id) -> Option<Id>
    ensures { Asked (key_of (view_id keyid) (view_table table)) result }
{
    let key = table.all().iter().find(|key| same_id(keyid, key.keyid))?;
    Some(key.public)
}
