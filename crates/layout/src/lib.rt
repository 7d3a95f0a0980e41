// Probes for the layout test (bindings/layout): each gives two equal values of an exported struct, one behind another, with the given
// fields. The test gives each field bytes that no other has: where they stand is the field's offset, and from there to where they stand
// again is the size of the struct. A digest is one field, so its two values have marks of their own. No part of the product's archive.
#![tactic(auto)]

ghost use Rattle.std.specs.Prelude.{◌≡◌, eqb, replicate};
ghost use Rattle.rules.specs.State.{blank as blank_state, new_cycle};
ghost use Rattle.rules.specs.Steps.{next};
ghost use Rattle.tuf.specs.View.{view};

use capi::{EntryRead, Image, Looked, PublicKey, Step};
use date::Time;
use records::Id;
use state::{Version, Versions};
use tuf::State;

#[repr(C)]
#[derive(Clone, Copy)]
pub struct States {
    pub first: State,
    pub second: State,
}

#[repr(C)]
#[derive(Clone, Copy)]
pub struct Steps {
    pub first: Step,
    pub second: Step,
}

#[repr(C)]
#[derive(Clone, Copy)]
pub struct Images {
    pub first: Image,
    pub second: Image,
}

#[repr(C)]
#[derive(Clone, Copy)]
pub struct PublicKeys {
    pub first: PublicKey,
    pub second: PublicKey,
}

#[repr(C)]
#[derive(Clone, Copy)]
pub struct Digests {
    pub first: Id,
    pub second: Id,
}

#[repr(C)]
#[derive(Clone, Copy)]
pub struct Looks {
    pub first: Looked,
    pub second: Looked,
}

#[repr(C)]
#[derive(Clone, Copy)]
pub struct Entries {
    pub first: EntryRead,
    pub second: EntryRead,
}

#[repr(C)]
#[derive(Clone, Copy)]
pub struct TwoVersion {
    pub first: Version,
    pub second: Version,
}

#[repr(C)]
#[derive(Clone, Copy)]
pub struct TwoVersions {
    pub first: Versions,
    pub second: Versions,
}

fn id(mark: u8) -> Id
    ensures { result.bytes ≡ replicate 32 mark }
{
    Id { bytes: [mark; 32] }
}

// ---- Structs that hold a state: its start time is the mark

fn state_at(start: i64) -> State
    ensures { view result ≡ next blank_state (new_cycle start) }
{
    let step = State::blank().new_cycle(Time { seconds: start });
    step.state
}

#[unsafe(no_mangle)]
pub extern "C" fn layout_state(start: i64) -> States
    ensures { (view result.first ≡ next blank_state (new_cycle start)) × (result.second ≡ result.first) }
{
    let one = state_at(start);
    States {
        first: one,
        second: one,
    }
}

#[unsafe(no_mangle)]
pub extern "C" fn layout_step(answer: u8, start: i64) -> Steps
    ensures { (result.first.answer ≡ answer) × (view result.first.state ≡ next blank_state (new_cycle start)) × (result.second ≡ result.first) }
{
    let state = state_at(start);
    let one = Step { answer, state };
    Steps {
        first: one,
        second: one,
    }
}

// ---- Structs of numbers and bytes

#[unsafe(no_mangle)]
pub extern "C" fn layout_image(answer: u8, length: u64, mark: u8, compared: usize) -> Images
    ensures { (result.first.answer ≡ answer) × (result.first.length ≡ length) × (result.first.digest.bytes ≡ replicate 32 mark) × (result.first.compared ≡ compared) × (result.second ≡ result.first) }
{
    let digest = id(mark);
    let one = Image {
        answer,
        length,
        digest,
        compared,
    };
    Images {
        first: one,
        second: one,
    }
}

#[unsafe(no_mangle)]
pub extern "C" fn layout_public_key(answer: u8, mark: u8) -> PublicKeys
    ensures { (result.first.answer ≡ answer) × (result.first.public.bytes ≡ replicate 32 mark) × (result.second ≡ result.first) }
{
    let public = id(mark);
    let one = PublicKey { answer, public };
    PublicKeys {
        first: one,
        second: one,
    }
}

#[unsafe(no_mangle)]
pub extern "C" fn layout_digest(first_mark: u8, second_mark: u8) -> Digests
    ensures { (result.first.bytes ≡ replicate 32 first_mark) × (result.second.bytes ≡ replicate 32 second_mark) }
{
    let first = id(first_mark);
    let second = id(second_mark);
    Digests { first, second }
}

#[unsafe(no_mangle)]
pub extern "C" fn layout_look(answer: u8, start: usize, length: usize, entries: usize) -> Looks
    ensures { (result.first.answer ≡ answer) × (result.first.start ≡ start) × (result.first.length ≡ length) × (result.first.entries ≡ entries) × (result.second ≡ result.first) }
{
    let one = Looked {
        answer,
        start,
        length,
        entries,
    };
    Looks {
        first: one,
        second: one,
    }
}

#[unsafe(no_mangle)]
pub extern "C" fn layout_entry(answer: u8, keyid_mark: u8, sig_mark: u8) -> Entries
    ensures { (result.first.answer ≡ answer) × (result.first.keyid.bytes ≡ replicate 32 keyid_mark) × (result.first.sig ≡ replicate 64 sig_mark) × (result.second ≡ result.first) }
{
    let keyid = id(keyid_mark);
    let sig = [sig_mark; 64];
    let one = EntryRead { answer, keyid, sig };
    Entries {
        first: one,
        second: one,
    }
}

// ---- Versions

#[unsafe(no_mangle)]
pub extern "C" fn layout_version(held: bool, number: u64) -> TwoVersion
    ensures { (result.first.held ≡ held) × (result.first.number ≡ number) × (result.second ≡ result.first) }
{
    let one = Version { held, number };
    TwoVersion {
        first: one,
        second: one,
    }
}

// A truth value has no marks of its own: one of the four is true at a time.
#[unsafe(no_mangle)]
pub extern "C" fn layout_versions(
    held: u8,
    root: u64,
    timestamp: u64,
    snapshot: u64,
    targets: u64,
    start: i64,
) -> TwoVersions
    ensures held_value { (result.first.root.held ≡ eqb held 0) × (result.first.root.number ≡ root) }
    ensures held_value_2 { (result.first.timestamp.held ≡ eqb held 1) × (result.first.timestamp.number ≡ timestamp) }
    ensures held_value_3 { (result.first.snapshot.held ≡ eqb held 2) × (result.first.snapshot.number ≡ snapshot) }
    ensures held_value_4 { (result.first.targets.held ≡ eqb held 3) × (result.first.targets.number ≡ targets) }
    ensures seconds_value { (result.first.start.seconds ≡ start) × (result.second ≡ result.first) }
{
    let one = Versions {
        root: Version {
            held: held == 0,
            number: root,
        },
        timestamp: Version {
            held: held == 1,
            number: timestamp,
        },
        snapshot: Version {
            held: held == 2,
            number: snapshot,
        },
        targets: Version {
            held: held == 3,
            number: targets,
        },
        start: Time { seconds: start },
    };
    TwoVersions {
        first: one,
        second: one,
    }
}
