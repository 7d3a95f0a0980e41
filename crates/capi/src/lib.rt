// The calls of `tuf` for C and Rust: each function has the contract of the call that it wraps. An answer is 01's number; a state goes in and
// comes back by value; bytes are lent as a pointer and a length. `capi_c` exports each under its name; include/gronwythal.h is the other side.
#![tactic(auto)]

ghost use Rattle.std.specs.Prelude.{◌≡◌, true, ◌↔◌};
ghost use Rattle.canonical_json.specs.Json.{Canonical, max_depth};
ghost use Rattle.sha256.specs.Message.{digest_of};
ghost use Rattle.rules.specs.State.{blank as blank_state, new_cycle, new_root, new_timestamp, new_snapshot, new_targets};
ghost use Rattle.rules.specs.Steps.{Began};
ghost use Rattle.rules.specs.Asked.{image_answer, look as look_into, entry_at};
ghost use Rattle.records.specs.View.{view_id};
ghost use Rattle.state.specs.Told.{Tells};
ghost use Rattle.tuf.specs.View.{view};
ghost use Rattle.tuf.specs.Promises.{Steps, FindsImage, GivesKey};
ghost use Rattle.capi.specs.View.{view_image, view_look, view_entry_read};
ghost use Rattle.capi.specs.Numbered.{Numbered};

use date::Time;
use records::Id;
use state::Versions;
use tuf::State;

// ---- What the calls give back

#[repr(C)]
#[derive(Clone, Copy)]
pub struct Step {
    pub answer: u8,
    pub state: State,
}

#[repr(C)]
#[derive(Clone, Copy)]
pub struct Image {
    pub answer: u8,
    pub length: u64,
    pub digest: Id,
    pub compared: usize,
}

#[repr(C)]
#[derive(Clone, Copy)]
pub struct PublicKey {
    pub answer: u8,
    pub public: Id,
}

#[repr(C)]
#[derive(Clone, Copy)]
pub struct Looked {
    pub answer: u8,
    pub start: usize,
    pub length: usize,
    pub entries: usize,
}

#[repr(C)]
#[derive(Clone, Copy)]
pub struct EntryRead {
    pub answer: u8,
    pub keyid: Id,
    pub sig: [u8; 64],
}

// The step with its answer as a number. By reference: each copy of a state takes 4,608 bytes of the stack.
impl From<&tuf::Step> for Step {
    ghost from_gives = { λ step r. Numbered step.now r };

    fn from(step: &tuf::Step) -> Step {
        Step {
            answer: answers::number(step.answer),
            state: step.state,
        }
    }
}

// ---- The calls, in the order of 01's steps

pub fn gronwythal_blank() -> State
    ensures { view result ≡ blank_state }
{
    State::blank()
}

pub fn gronwythal_install(file: &[u8], row: &[u8], start: i64) -> Step
    ensures { Began (record { file = file.entry.now; row = row.now; start = start }) result.answer (view result.state) }
{
    Step::from(&State::install(file, row, Time { seconds: start }))
}

pub fn gronwythal_new_cycle(state: State, start: i64) -> Step
    ensures { Steps state (new_cycle start) result.answer result.state }
{
    Step::from(&state.new_cycle(Time { seconds: start }))
}

pub fn gronwythal_root(state: State, file: &[u8], held: &[u8], own: &[u8]) -> Step
    ensures { Steps state (new_root (record { file = file.entry.now; held_row = held.now; own_row = own.now })) result.answer result.state }
{
    Step::from(&state.root(file, held, own))
}

pub fn gronwythal_timestamp(state: State, file: &[u8], row: &[u8]) -> Step
    ensures { Steps state (new_timestamp (record { file = file.entry.now; row = row.now })) result.answer result.state }
{
    Step::from(&state.timestamp(file, row))
}

pub fn gronwythal_snapshot(state: State, file: &[u8], row: &[u8]) -> Step
    ensures { Steps state (new_snapshot (record { file = file.entry.now; row = row.now })) result.answer result.state }
{
    Step::from(&state.snapshot(file, row))
}

pub fn gronwythal_targets(state: State, file: &[u8], row: &[u8]) -> Step
    ensures { Steps state (new_targets (record { file = file.entry.now; row = row.now })) result.answer result.state }
{
    Step::from(&state.targets(file, row))
}

pub fn gronwythal_find(state: State, file: &[u8], path: &[u8]) -> Image
    ensures { FindsImage state (record { file = file.entry.now; path = path.now }) result.answer (view_image result) result.compared }
{
    let found = state.find(file, path);
    Image {
        answer: answers::number(found.answer),
        length: found.length,
        digest: found.digest,
        compared: found.compared,
    }
}

pub fn gronwythal_key(state: State, keyid: &[u8]) -> PublicKey
    ensures { GivesKey state keyid.now result.answer (view_id result.public) }
{
    let asked = state.key(keyid);
    PublicKey {
        answer: answers::number(asked.answer),
        public: asked.public,
    }
}

pub fn gronwythal_versions(state: State) -> Versions
    ensures { Tells (view state) result }
{
    state.versions()
}

pub fn gronwythal_check_image(listed: u64, digest: &[u8], fetched: u64, hash: &[u8]) -> u8
    ensures { result ≡ image_answer (record { length = listed; digest = digest.now }) (record { length = fetched; digest = hash.now }) }
{
    answers::number(tuf::check_image(listed, digest, fetched, hash))
}

// SHA-256 of the lent bytes.
pub fn gronwythal_sha256(bytes: &[u8]) -> Id
    ensures { view_id result ≡ digest_of bytes.now }
{
    tuf::digest(bytes)
}

// ---- Looking into a file: a part cannot be returned to C, so its place and length are

pub fn gronwythal_look(file: &[u8]) -> Looked
    ensures { view_look result ≡ look_into file.now }
{
    let looked = tuf::look(file);
    Looked {
        answer: answers::number(looked.answer),
        start: looked.start,
        length: looked.length,
        entries: looked.entries,
    }
}

pub fn gronwythal_entry(file: &[u8], place: usize) -> EntryRead
    ensures { view_entry_read result ≡ entry_at file.now place }
{
    let read = tuf::entry(file, place);
    let sig = read.sig;
    EntryRead {
        answer: answers::number(read.answer),
        keyid: read.keyid,
        sig,
    }
}

// ---- Text alone

pub fn gronwythal_is_canonical(text: &[u8]) -> bool
    ensures { (result ≡ true) ↔ Canonical max_depth text.now }
{
    canonical_json::is_canonical(text)
}
