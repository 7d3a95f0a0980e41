// What is read from files and held in the trusted state, as structs by value, and 01's limits. specs/View.antt says what each stands for.
#![tactic(auto)]

ghost use Rattle.std.specs.Prelude.{◌≡◌, min, map, take};
ghost use Rattle.records.specs.View.{view_id, view_key, view_named, view_entries, view_table, view_name, view_names};

use date::Time;

// The limits of 01 and A7; those of the specs are in rules.
pub const MAX_FILE: usize = 32768;

pub const MAX_ENTRIES: usize = 16;

pub const MAX_VERSION: u64 = 9007199254740991;

pub const MAX_KEYS: usize = 16;

pub const MAX_KEYIDS: usize = 16;

pub const MAX_NAMES: usize = 32;

pub const MAX_NAME: usize = 32;

pub const MAX_LENGTH: u64 = 4294967295;

pub const MAX_TARGETS: usize = 256;

pub const MAX_PATH: usize = 128;

pub const DIGEST: usize = 32;

pub const KEY: usize = 32;

pub const SIGNATURE: usize = 64;

// A keyid, a public key or a digest.
#[repr(C)]
#[derive(Clone, Copy, PartialEq, Eq)]
pub struct Id {
    pub bytes: [u8; 32],
}

// The keyids of a file's signature entries, in file order: the first `count` are meant.
#[repr(C)]
#[derive(Clone, Copy)]
pub struct Entries {
    pub count: usize,
    pub ids: [Id; 16],
}

#[repr(C)]
#[derive(Clone, Copy)]
pub struct Key {
    pub keyid: Id,
    pub public: Id,
}

// The first `count` are meant.
#[repr(C)]
#[derive(Clone, Copy)]
pub struct KeyTable {
    pub count: usize,
    pub keys: [Key; 16],
}

// The role's keys as bits over the key table, and how many of them have to sign.
#[repr(C)]
#[derive(Clone, Copy)]
pub struct Role {
    pub keys: u16,
    pub threshold: u64,
}

#[repr(C)]
#[derive(Clone, Copy)]
pub struct Root {
    pub version: u64,
    pub expires: Time,
    pub table: KeyTable,
    pub root: Role,
    pub timestamp: Role,
    pub snapshot: Role,
    pub targets: Role,
}

// What is said of a listed file: the length and the digest only where they are given.
#[repr(C)]
#[derive(Clone, Copy)]
pub struct Listed {
    pub version: u64,
    pub measured: bool,
    pub length: u64,
    pub hashed: bool,
    pub digest: Id,
}

#[repr(C)]
#[derive(Clone, Copy)]
pub struct Timestamp {
    pub version: u64,
    pub expires: Time,
    pub snapshot: Listed,
}

// A name has the first `length` bytes.
#[repr(C)]
#[derive(Clone, Copy)]
pub struct Name {
    pub length: usize,
    pub bytes: [u8; 32],
}

#[repr(C)]
#[derive(Clone, Copy)]
pub struct Named {
    pub name: Name,
    pub listed: Listed,
}

// The first `count` are meant.
#[repr(C)]
#[derive(Clone, Copy)]
pub struct Names {
    pub count: usize,
    pub named: [Named; 32],
}

#[repr(C)]
#[derive(Clone, Copy)]
pub struct Snapshot {
    pub version: u64,
    pub expires: Time,
    pub names: Names,
}

#[repr(C)]
#[derive(Clone, Copy)]
pub struct Targets {
    pub version: u64,
    pub expires: Time,
    pub digest: Id,
}

// A count as it is meant: at most the size of its array.
pub fn at_most(n: usize, most: usize) -> usize
    ensures { result ≡ min n most }
{
    n.min(most)
}

impl Entries {
    // Those that are meant.
    pub fn all(&self) -> &[Id]
        ensures meant { result.now ≡ take (min self.now.count MAX_ENTRIES) self.now.ids }
        ensures viewed { map view_id result.now ≡ view_entries self.now }
    {
        &self.ids[..at_most(self.count, MAX_ENTRIES)]
    }
}

impl KeyTable {
    // Those that are meant.
    pub fn all(&self) -> &[Key]
        ensures meant { result.now ≡ take (min self.now.count MAX_KEYS) self.now.keys }
        ensures viewed { map view_key result.now ≡ view_table self.now }
    {
        &self.keys[..at_most(self.count, MAX_KEYS)]
    }
}

impl Name {
    // The bytes that are meant.
    pub fn text(&self) -> &[u8]
        ensures { result.now ≡ view_name self.now }
    {
        &self.bytes[..at_most(self.length, MAX_NAME)]
    }
}

impl Names {
    // Those that are meant.
    pub fn listed(&self) -> &[Named]
        ensures meant { result.now ≡ take (min self.now.count MAX_NAMES) self.now.named }
        ensures viewed { map view_named result.now ≡ view_names self.now }
    {
        &self.named[..at_most(self.count, MAX_NAMES)]
    }
}
