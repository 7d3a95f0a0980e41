// A root file, read (01, "Forms" and refusals 1 to 4, and A1's 16): the key table and the four roles at a place of a canonical text, and the whole file.
#![tactic(auto)]

ghost use Rattle.std.specs.Prelude.{◌≡◌, drop, map};
ghost use Rattle.std.specs.Option.{option_map, IfSome};
ghost use Rattle.base.specs.Bytes.{bytes, same};
ghost use Rattle.canonical_json.specs.Read.{raw};
ghost use Rattle.canonical_json.specs.Fields.{members, keep};
ghost use Rattle.lookup.specs.Place.{Takes, Tests, PlaceAfter, EndsAt, KnownEnd, Reads};
ghost use Rattle.rules.specs.Limits.{max_keys, key_size};
ghost use Rattle.rules.specs.Take.{must, hex};
ghost use Rattle.rules.specs.Forms.{is_in, different, key as key_form, keys as keys_form, keyid_of, own_table};
ghost use Rattle.rules.specs.State.{root_in};
ghost use Rattle.records.specs.View.{view_id, view_key, view_table, view_role, view_root};
ghost use Rattle.forms.specs.Each.{each_member};
ghost use Rattle.forms.specs.Member.{TakesMust};
ghost use Rattle.envelope.specs.Open.{view_read};
ghost use Rattle.root_file.specs.Keyids.{TestsTable};
ghost use Rattle.root_file.specs.Body.{naming, role_kept, roles_kept, root_kept, is_truth};
ghost use Rattle.root_file.specs.View.{publics, view_naming, view_roles, view_body, RolesEnd};

use envelope::{Fault, Signed};
use lookup::{Element, Extent, Member, Spanned};
use records::{Id, Key, KeyTable, Role, Root};

// ---- Keys

// "a keyval whose public is 64 lower-case hex".
fn public_field(s: &[u8], found: Option<usize>) -> Option<Id>
    ensures { TakesMust s.now found (must (bytes "public") (hex key_size)) (option_map view_id result) }
{
    forms::id_field(s, lookup::find_member(s, found?, b"public"))
}

// The key of a member: its name begins at `name`, just past the opening quote, and its value at `value`.
pub fn key_at(s: &[u8], name: usize, value: usize) -> Option<Spanned<Key>>
    ensures { Reads view_key s.now value (key_form (raw (drop name s.now))) result }
{
    let keyid = forms::id_in(s, name)?;
    let m = lookup::find_members(s, value, b"keytype", b"scheme", b"keyval", b"");
    if !forms::word_field(s, m.first, b"ed25519") || !forms::word_field(s, m.second, b"ed25519") {
        return None;
    }
    let public = public_field(s, m.third)?;
    Some(Spanned {
        value: Key { keyid, public },
        end: m.end,
    })
}

// ---- The key table

// 1 to 16 members, each a key.
fn table_at(s: &[u8], at: usize) -> Option<Spanned<KeyTable>>
    ensures { Reads view_table s.now at (each_member 1 max_keys key_form) result }
{
    let blank = Id { bytes: [0; 32] };
    let mut keys = [Key {
        keyid: blank,
        public: blank,
    }; records::MAX_KEYS];
    let mut n = 0;
    let mut m = lookup::first_member(s, at);
    while let Member::At { name, value } = m {
        if records::MAX_KEYS <= n {
            return None;
        }
        let key = key_at(s, name, value)?;
        keys[n] = key.value;
        n += 1;
        m = lookup::next_member_by(s, value, key.end);
    }
    let Member::End(end) = m else { return None };
    if n < 1 {
        return None;
    }
    Some(Spanned {
        value: KeyTable { count: n, keys },
        end: Some(end),
    })
}

// Whether one of the keys has that public value.
fn has_public(keys: &[Key], public: Id) -> bool
    ensures { result ≡ is_in (view_id public) (publics keys.now) }
{
    keys.iter().any(|key| keys::same_id(public, key.public))
}

// "no two keyids of one file may have the same public value".
fn publics_differ(keys: &[Key]) -> bool
    ensures { result ≡ different (publics keys.now) }
{
    for (i, key) in keys.iter().enumerate() {
        if has_public(&keys[i + 1..], key.public) {
            return false;
        }
    }
    true
}

// "keys, 1 to 16".
pub fn keys_at(s: &[u8], at: usize) -> Option<Spanned<KeyTable>>
    ensures { Reads view_table s.now at keys_form result }
{
    let table = table_at(s, at)?;
    if !publics_differ(table.value.all()) {
        return None;
    }
    Some(table)
}

// Whether the member whose name begins at `name` and whose value stands from `value` to `end` has its key's keyid: "the hex digest of the canonical
// text of its key".
fn has_own_keyid(s: &[u8], name: usize, value: usize, end: Option<usize>) -> bool
    requires { PlaceAfter s.now value end }
    ensures { EndsAt s.now value end → Tests s.now value (λ v. same (raw (drop name s.now)) (keyid_of v)) result }
{
    let Some(e) = end else { return false };
    lookup::text_is(s, name, &sha256::hex_digest(&s[value..e]))
}

// Whether every keyid of the key table is its key's, "unknown members included".
pub fn has_own_keyids(s: &[u8], at: usize) -> bool
    ensures { Tests s.now at (λ v. own_table (members v)) result }
{
    let mut m = lookup::first_member(s, at);
    while let Member::At { name, value } = m {
        let end = lookup::value_end(s, value);
        if !has_own_keyid(s, name, value, end) {
            return false;
        }
        m = lookup::next_member_by(s, value, end);
    }
    true
}

fn keyids_field(s: &[u8], found: Option<usize>) -> bool
    ensures { TestsTable s.now found result }
{
    found.is_none_or(|at| has_own_keyids(s, at))
}

// ---- Roles

// A role's keyids as bits over the key table, and how many there are.
#[derive(Clone, Copy)]
struct Naming {
    keys: u16,
    count: usize,
}

// 1 to 16 keyids, each at some place of the key table and none at a place that is marked already.
fn naming_at(s: &[u8], at: usize, table: &KeyTable) -> Option<Spanned<Naming>>
    ensures { Reads (view_naming table.now) s.now at (naming (view_table table.now)) result }
{
    let mut keys: u16 = 0;
    let mut n = 0;
    let mut e = lookup::first_element(s, at);
    while let Element::At(i) = e {
        if records::MAX_KEYIDS <= n {
            return None;
        }
        let places = keys::places_of(*table, forms::id_at(s, i)?);
        if places == 0 || keys & places != 0 {
            return None;
        }
        keys |= places;
        n += 1;
        e = lookup::next_element(s, i);
    }
    let Element::End(end) = e else { return None };
    if n < 1 {
        return None;
    }
    Some(Spanned {
        value: Naming { keys, count: n },
        end: Some(end),
    })
}

// "1 to 16 different keyids from the key table and a threshold from 1 to the number of those keyids".
pub fn role_at(s: &[u8], at: usize, table: &KeyTable) -> Option<Role>
    ensures { Takes s.now at (role_kept (view_table table.now)) (option_map (view_role table.now) result) }
{
    let keyids = lookup::find_member(s, at, b"keyids")?;
    let named = naming_at(s, keyids, table)?;
    let known = Extent {
        at: keyids,
        end: named.end,
    };
    let found = lookup::find_member_by(s, at, b"threshold", known);
    let threshold = forms::number_field(s, found, 1, named.value.count as u64)?;
    Some(Role {
        keys: named.value.keys,
        threshold,
    })
}

fn role_field(s: &[u8], found: Option<usize>, table: &KeyTable) -> Option<Role>
    ensures { TakesMust s.now found (role_kept (view_table table.now)) (option_map (view_role table.now) result) }
{
    role_at(s, found?, table)
}

#[derive(Clone, Copy)]
pub struct Roles {
    pub root: Role,
    pub timestamp: Role,
    pub snapshot: Role,
    pub targets: Role,
}

// "roles with root, timestamp, snapshot and targets"; "Other role names are passed over".
fn roles_at(s: &[u8], at: usize, table: &KeyTable) -> Option<Spanned<Roles>>
    ensures { Reads (view_roles table.now) s.now at (roles_kept (view_table table.now)) result }
{
    let m = lookup::find_members(s, at, b"root", b"timestamp", b"snapshot", b"targets");
    let root = role_field(s, m.first, table)?;
    let timestamp = role_field(s, m.second, table)?;
    let snapshot = role_field(s, m.third, table)?;
    let targets = role_field(s, m.fourth, table)?;
    Some(Spanned {
        value: Roles {
            root,
            timestamp,
            snapshot,
            targets,
        },
        end: m.end,
    })
}

// ---- The root

// "consistent_snapshot true or false": which of the two is not kept.
fn has_snapshot_rule(s: &[u8], found: Option<usize>) -> bool
    ensures { TakesMust s.now found is_truth (keep result tt) }
{
    found.is_some_and(|at| lookup::truth_at(s, at).is_some())
}

// What is kept of a root's body, and where its roles stand and end.
#[derive(Clone, Copy)]
pub struct Body {
    pub table: KeyTable,
    pub roles: Roles,
    pub extent: Extent,
}

pub fn root_at(s: &[u8], at: usize) -> Option<Body>
    ensures means { Takes s.now at root_kept (option_map view_body result) }
    ensures end { IfSome result (RolesEnd s.now) }
{
    if !has_snapshot_rule(s, lookup::find_member(s, at, b"consistent_snapshot")) {
        return None;
    }
    let first = lookup::find_member(s, at, b"keys")?;
    let keys = keys_at(s, first)?;
    let known = Extent {
        at: first,
        end: keys.end,
    };
    let second = lookup::find_member_by(s, at, b"roles", known)?;
    let roles = roles_at(s, second, &keys.value)?;
    Some(Body {
        table: keys.value,
        roles: roles.value,
        extent: Extent {
            at: second,
            end: roles.end,
        },
    })
}

// 3 before 16 and 16 before 4: the keyids and the spec_version are asked for when everything else was read.
pub fn read_root(file: &[u8]) -> Result<Signed<Root>, Fault>
    ensures { view_read view_root result ≡ root_in file.now }
{
    let opened = envelope::open_envelope(file)?;
    let start = opened.start;
    let Some(body) = root_at(file, start) else {
        return Err(Fault::BadForm);
    };
    let header = envelope::header_at(file, start, b"root", body.extent).ok_or(Fault::BadForm)?;
    if !keyids_field(file, lookup::find_member(file, start, b"keys")) {
        return Err(Fault::OtherKeyid);
    }
    if !header.known {
        return Err(Fault::OtherSpec);
    }
    let Roles {
        root,
        timestamp,
        snapshot,
        targets,
    } = body.roles;
    Ok(Signed {
        signed: Root {
            version: header.version,
            expires: header.expires,
            table: body.table,
            root,
            timestamp,
            snapshot,
            targets,
        },
        entries: opened.entries,
    })
}
