// The trusted state by value: its steps, the tests of what is held that judging asks, and what is told of it.
// Every goal here follows by what these definitions say.
#![tactic(auto, unfolding(crate::specs::View::view, canonical_json::specs::Fields::keep, records::specs::View::view_root, records::specs::View::view_timestamp, records::specs::View::view_snapshot, records::specs::View::view_targets, records::specs::View::view_listed, rules::specs::State::blank, rules::specs::Conditions::other_version, rules::specs::Conditions::stale_snapshot, rules::specs::Conditions::stale_targets, rules::specs::Conditions::rotates, rules::specs::Conditions::rotates_targets, rules::specs::Steps::with_start, rules::specs::Steps::with_root, rules::specs::Steps::with_timestamp, rules::specs::Steps::with_snapshot, rules::specs::Steps::with_targets, rules::specs::Steps::root_alone, crate::specs::Told::held_version,))]

ghost use Rattle.std.specs.Prelude.{◌≡◌, not, ◌&&◌, ◌+◌, ltb, eqb};
ghost use Rattle.base.specs.Bytes.{same};
ghost use Rattle.canonical_json.specs.Fields.{keep};
ghost use Rattle.date.specs.Calendar.{expired as expired_at, earlier as earlier_than};
ghost use Rattle.rules.specs.State.{blank as blank_state};
ghost use Rattle.rules.specs.Table.{of_held, absent};
ghost use Rattle.rules.specs.Conditions.{rotates, rotates_targets, too_few, other_version, other_length, other_digest, lost, stale_snapshot, stale_targets, targets_entry, key_of};
ghost use Rattle.rules.specs.Steps.{with_start, with_root, with_timestamp, with_snapshot, with_targets, root_alone};
ghost use Rattle.records.specs.View.{view_id, view_root, view_timestamp, view_snapshot, view_targets, view_entries, view_names, view_listed};
ghost use Rattle.keys.specs.Signers.{Asked};
ghost use Rattle.state.specs.View.{view};
ghost use Rattle.state.specs.Told.{Shown, Tells};

use date::Time;
use records::{
    Entries, Id, Key, KeyTable, Listed, Name, Named, Names, Role, Root, Snapshot, Targets,
    Timestamp,
};

// Which records are held. Flags, since the state goes to C by value, where no enum may stand.
#[repr(C)]
#[derive(Clone, Copy)]
pub struct Held {
    root: bool,
    timestamp: bool,
    snapshot: bool,
    targets: bool,
}

#[repr(C)]
#[derive(Clone, Copy)]
pub struct State {
    start: Time,
    held: Held,
    root: Root,
    timestamp: Timestamp,
    snapshot: Snapshot,
    targets: Targets,
}

// A record's version, where the record is held; else 0.
#[repr(C)]
#[derive(Clone, Copy)]
pub struct Version {
    pub held: bool,
    pub number: u64,
}

// What is told of a state: the held versions and the start time.
#[repr(C)]
#[derive(Clone, Copy)]
pub struct Versions {
    pub root: Version,
    pub timestamp: Version,
    pub snapshot: Version,
    pub targets: Version,
    pub start: Time,
}

// ---- What an accepted root drops

// "Timestamp or snapshot keys are rotated"
fn rotates_both(old: &Root, new: &Root) -> bool
    ensures { result ≡ rotates (view_root old.now) (view_root new.now) }
{
    keys::rotated(old.table, old.timestamp, new.table, new.timestamp)
        || keys::rotated(old.table, old.snapshot, new.table, new.snapshot)
}

fn rotates_targets(old: &Root, new: &Root) -> bool
    ensures { result ≡ rotates_targets (view_root old.now) (view_root new.now) }
{
    rotates_both(old, new) || keys::rotated(old.table, old.targets, new.table, new.targets)
}

// Whether a root's version is not "exactly held plus one".
fn is_not_next(new: u64, held: u64) -> bool
    ensures { result ≡ other_version new (held + 1) }
{
    new.checked_sub(1) != Some(held)
}

// ---- What is told of a record

fn version_if(held: bool, number: u64) -> Version
    ensures { Shown (keep held number) result }
{
    let number = if held { number } else { 0 };
    Version { held, number }
}

impl State {
    // "the blank state, which holds no record and has the lowest signed 64-bit count as its start time"
    pub fn blank() -> State
        ensures { view result ≡ blank_state }
    {
        let never = Time {
            seconds: -9223372036854775808,
        };
        let id = Id { bytes: [0; 32] };
        let role = Role {
            keys: 0,
            threshold: 0,
        };
        let listed = Listed {
            version: 0,
            measured: false,
            length: 0,
            hashed: false,
            digest: id,
        };
        let name = Name {
            length: 0,
            bytes: [0; 32],
        };
        let key = Key {
            keyid: id,
            public: id,
        };
        State {
            start: never,
            held: Held {
                root: false,
                timestamp: false,
                snapshot: false,
                targets: false,
            },
            root: Root {
                version: 0,
                expires: never,
                table: KeyTable {
                    count: 0,
                    keys: [key; 16],
                },
                root: role,
                timestamp: role,
                snapshot: role,
                targets: role,
            },
            timestamp: Timestamp {
                version: 0,
                expires: never,
                snapshot: listed,
            },
            snapshot: Snapshot {
                version: 0,
                expires: never,
                names: Names {
                    count: 0,
                    named: [Named { name, listed }; 32],
                },
            },
            targets: Targets {
                version: 0,
                expires: never,
                digest: id,
            },
        }
    }

    // The state after an accepted install.
    pub fn installed(root: Root, start: Time) -> State
        ensures { view result ≡ root_alone (view_root root) start.seconds }
    {
        let mut next = State::blank();
        next.start = start;
        next.held.root = true;
        next.root = root;
        next
    }

    // "Only an accepted install or a new cycle sets the start time"; A8: an accepted cycle
    pub fn with_start(self, t: Time) -> State
        ensures { view result ≡ with_start (view self) t.seconds }
    {
        State { start: t, ..self }
    }

    // The state with a next root, which drops the records whose keys it rotates.
    pub fn with_root(&self, new: &Root) -> State
        ensures { view result ≡ with_root (view self.now) (view_root self.now.root) (view_root new.now) }
    {
        let both = rotates_both(&self.root, new);
        let alone = rotates_targets(&self.root, new);
        let held = Held {
            root: true,
            timestamp: self.held.timestamp && !both,
            snapshot: self.held.snapshot && !both,
            targets: self.held.targets && !alone,
        };
        State {
            held,
            root: *new,
            ..*self
        }
    }

    pub fn with_timestamp(self, new: Timestamp) -> State
        ensures { view result ≡ with_timestamp (view self) (view_timestamp new) }
    {
        let held = Held {
            timestamp: true,
            ..self.held
        };
        State {
            held,
            timestamp: new,
            ..self
        }
    }

    pub fn with_snapshot(&self, new: &Snapshot) -> State
        ensures { view result ≡ with_snapshot (view self.now) (view_snapshot new.now) }
    {
        let held = Held {
            snapshot: true,
            ..self.held
        };
        State {
            held,
            snapshot: *new,
            ..*self
        }
    }

    pub fn with_targets(self, new: Targets) -> State
        ensures { view result ≡ with_targets (view self) (view_targets new) }
    {
        let held = Held {
            targets: true,
            ..self.held
        };
        State {
            held,
            targets: new,
            ..self
        }
    }

    // ---- Refusal 6: "a record the step needs is not held"

    pub fn lacks_root(self) -> bool
        ensures { result ≡ absent (view self).root }
    {
        !self.held.root
    }

    pub fn lacks_timestamp(self) -> bool
        ensures { result ≡ absent (view self).timestamp }
    {
        !self.held.timestamp
    }

    pub fn lacks_snapshot(self) -> bool
        ensures { result ≡ absent (view self).snapshot }
    {
        !self.held.snapshot
    }

    pub fn lacks_targets(self) -> bool
        ensures { result ≡ absent (view self).targets }
    {
        !self.held.targets
    }

    // What the stored snapshot says of `targets.json`, held or not.
    fn entry(&self) -> Listed
        ensures { view_listed result ≡ targets_entry (view_snapshot self.now.snapshot) }
    {
        names::targets_entry(self.snapshot.names)
    }

    // not "a current snapshot, whose version is the one the held timestamp lists"
    pub fn has_stale_snapshot(self) -> bool
        ensures { result ≡ stale_snapshot (view self) }
    {
        self.held.timestamp
            && self.held.snapshot
            && self.snapshot.version != self.timestamp.snapshot.version
    }

    // not "current targets, whose version is the listed one"
    pub fn has_stale_targets(self) -> bool
        ensures { result ≡ stale_targets (view self) }
    {
        self.held.snapshot && self.held.targets && self.targets.version != self.entry().version
    }

    // ---- Refusals 7 and 14

    pub fn is_past(self, expires: Time) -> bool
        ensures { result ≡ expired_at expires.seconds (view self).start }
    {
        expires.expired(self.start)
    }

    pub fn has_past_root(self) -> bool
        ensures { result ≡ of_held (view self).root (λ h. expired_at h.expires (view self).start) }
    {
        self.held.root && self.is_past(self.root.expires)
    }

    pub fn has_past_timestamp(self) -> bool
        ensures { result ≡ of_held (view self).timestamp (λ h. expired_at h.expires (view self).start) }
    {
        self.held.timestamp && self.is_past(self.timestamp.expires)
    }

    pub fn has_past_snapshot(self) -> bool
        ensures { result ≡ of_held (view self).snapshot (λ h. expired_at h.expires (view self).start) }
    {
        self.held.snapshot && self.is_past(self.snapshot.expires)
    }

    pub fn has_past_targets(self) -> bool
        ensures { result ≡ of_held (view self).targets (λ h. expired_at h.expires (view self).start) }
    {
        self.held.targets && self.is_past(self.targets.expires)
    }

    // ---- Refusal 8: "length or digest differs from what is listed"

    pub fn has_other_length(self, size: u64) -> bool
        ensures { result ≡ of_held (view self).timestamp (λ h. other_length h.snapshot size) }
    {
        self.held.timestamp && names::other_length(self.timestamp.snapshot, size)
    }

    pub fn has_other_digest(self, digest: &[u8]) -> bool
        ensures { result ≡ of_held (view self).timestamp (λ h. other_digest h.snapshot digest.now) }
    {
        self.held.timestamp && names::other_digest(self.timestamp.snapshot, digest)
    }

    // "Checked against the `targets.json` entry"
    pub fn has_other_entry_length(self, size: u64) -> bool
        ensures { result ≡ of_held (view self).snapshot (λ h. other_length (targets_entry h) size) }
    {
        self.held.snapshot && names::other_length(self.entry(), size)
    }

    pub fn has_other_entry_digest(self, digest: &[u8]) -> bool
        ensures { result ≡ of_held (view self).snapshot (λ h. other_digest (targets_entry h) digest.now) }
    {
        self.held.snapshot && names::other_digest(self.entry(), digest)
    }

    // not "the kept one"
    pub fn has_other_kept(self, digest: &[u8]) -> bool
        ensures { result ≡ of_held (view self).targets (λ h. not (same digest.now h.digest)) }
    {
        self.held.targets && !names::same_digest(digest, self.targets.digest)
    }

    // ---- Refusal 9: "too few different keys of the held root"

    pub fn has_few_for_root(self, entries: Entries, row: &[u8]) -> bool
        ensures { result ≡ of_held (view self).root (λ h. too_few h.root_role (view_entries entries) row.now) }
    {
        self.held.root && keys::too_few(self.root.table, self.root.root, entries, row)
    }

    pub fn has_few_for_timestamp(self, entries: Entries, row: &[u8]) -> bool
        ensures { result ≡ of_held (view self).root (λ h. too_few h.timestamp_role (view_entries entries) row.now) }
    {
        self.held.root && keys::too_few(self.root.table, self.root.timestamp, entries, row)
    }

    pub fn has_few_for_snapshot(self, entries: Entries, row: &[u8]) -> bool
        ensures { result ≡ of_held (view self).root (λ h. too_few h.snapshot_role (view_entries entries) row.now) }
    {
        self.held.root && keys::too_few(self.root.table, self.root.snapshot, entries, row)
    }

    pub fn has_few_for_targets(self, entries: Entries, row: &[u8]) -> bool
        ensures { result ≡ of_held (view self).root (λ h. too_few h.targets_role (view_entries entries) row.now) }
    {
        self.held.root && keys::too_few(self.root.table, self.root.targets, entries, row)
    }

    // ---- Refusals 11 to 13

    pub fn has_other_root(self, version: u64) -> bool
        ensures { result ≡ of_held (view self).root (λ h. other_version version (h.version + 1)) }
    {
        self.held.root && is_not_next(version, self.root.version)
    }

    pub fn has_later_timestamp(self, version: u64) -> bool
        ensures { result ≡ of_held (view self).timestamp (λ h. ltb version h.version) }
    {
        self.held.timestamp && version < self.timestamp.version
    }

    pub fn has_same_timestamp(self, version: u64) -> bool
        ensures { result ≡ of_held (view self).timestamp (λ h. eqb version h.version) }
    {
        self.held.timestamp && version == self.timestamp.version
    }

    pub fn has_later_listed(self, version: u64) -> bool
        ensures { result ≡ of_held (view self).timestamp (λ h. ltb version h.snapshot.version) }
    {
        self.held.timestamp && version < self.timestamp.snapshot.version
    }

    pub fn has_other_listed(self, version: u64) -> bool
        ensures { result ≡ of_held (view self).timestamp (λ h. other_version version h.snapshot.version) }
    {
        self.held.timestamp && version != self.timestamp.snapshot.version
    }

    pub fn has_other_entry(self, version: u64) -> bool
        ensures { result ≡ of_held (view self).snapshot (λ h. other_version version (targets_entry h).version) }
    {
        self.held.snapshot && version != self.entry().version
    }

    pub fn has_lost(&self, new: &Names) -> bool
        ensures { result ≡ of_held (view self.now).snapshot (λ h. lost h.names (view_names new.now)) }
    {
        self.held.snapshot && names::lost(&self.snapshot.names, new)
    }

    // ---- Refusal 17: a start time earlier than the latest one, which is the one in force

    pub fn is_earlier(self, start: Time) -> bool
        ensures { result ≡ earlier_than start.seconds (view self).start }
    {
        start.earlier(self.start)
    }

    // ---- What is told of the state

    // "a held root's public key by keyid": the stored root is asked, held or not
    pub fn public_key(self, keyid: Id) -> Option<Id>
        ensures { Asked (key_of (view_id keyid) (view_root self.root).keys) result }
    {
        keys::public_of(self.root.table, keyid)
    }

    pub fn versions(self) -> Versions
        ensures { Tells (view self) result }
    {
        Versions {
            root: version_if(self.held.root, self.root.version),
            timestamp: version_if(self.held.timestamp, self.timestamp.version),
            snapshot: version_if(self.held.snapshot, self.snapshot.version),
            targets: version_if(self.held.targets, self.targets.version),
            start: self.start,
        }
    }
}
