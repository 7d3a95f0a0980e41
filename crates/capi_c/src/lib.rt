// The exports of `capi` for C and Rust: each function calls the one of its name there and has its contract, word for word. include/gronwythal.h
// is the other side of this file.
#![tactic(auto)]

ghost use Rattle.std.specs.Prelude.{◌≡◌, true, ◌↔◌};
ghost use Rattle.canonical_json.specs.Json.{Canonical, max_depth};
ghost use Rattle.sha256.specs.Message.{digest_of};
ghost use Rattle.rules.specs.State.{blank as blank_state, new_cycle, new_root, new_timestamp, new_snapshot, new_targets};
ghost use Rattle.rules.specs.Steps.{Began};
ghost use Rattle.rules.specs.Asked.{image_answer, look as look_into, entry_at};
ghost use Rattle.records.specs.View.{view_id};
ghost use Rattle.state.specs.Told.{Tells};
ghost use Rattle.tuf.specs.View.{view};
ghost use Rattle.tuf.specs.Promises.{Steps, FindsImage, GivesKey};
ghost use Rattle.capi.specs.View.{view_image, view_look, view_entry_read};

use capi::{EntryRead, Image, Looked, PublicKey, Step};
use records::Id;
use state::Versions;
use tuf::State;

// ---- The calls, in the order of the steps

#[unsafe(no_mangle)]
pub extern "C" fn gronwythal_blank() -> State
    ensures { view result ≡ blank_state }
{
    capi::gronwythal_blank()
}

#[unsafe(no_mangle)]
pub extern "C" fn gronwythal_install(file: &[u8], row: &[u8], start: i64) -> Step
    ensures { Began (record { file = file.entry.now; row = row.now; start = start }) result.answer (view result.state) }
{
    capi::gronwythal_install(file, row, start)
}

#[unsafe(no_mangle)]
pub extern "C" fn gronwythal_new_cycle(state: State, start: i64) -> Step
    ensures { Steps state (new_cycle start) result.answer result.state }
{
    capi::gronwythal_new_cycle(state, start)
}

#[unsafe(no_mangle)]
pub extern "C" fn gronwythal_root(state: State, file: &[u8], held: &[u8], own: &[u8]) -> Step
    ensures { Steps state (new_root (record { file = file.entry.now; held_row = held.now; own_row = own.now })) result.answer result.state }
{
    capi::gronwythal_root(state, file, held, own)
}

#[unsafe(no_mangle)]
pub extern "C" fn gronwythal_timestamp(state: State, file: &[u8], row: &[u8]) -> Step
    ensures { Steps state (new_timestamp (record { file = file.entry.now; row = row.now })) result.answer result.state }
{
    capi::gronwythal_timestamp(state, file, row)
}

#[unsafe(no_mangle)]
pub extern "C" fn gronwythal_snapshot(state: State, file: &[u8], row: &[u8]) -> Step
    ensures { Steps state (new_snapshot (record { file = file.entry.now; row = row.now })) result.answer result.state }
{
    capi::gronwythal_snapshot(state, file, row)
}

#[unsafe(no_mangle)]
pub extern "C" fn gronwythal_targets(state: State, file: &[u8], row: &[u8]) -> Step
    ensures { Steps state (new_targets (record { file = file.entry.now; row = row.now })) result.answer result.state }
{
    capi::gronwythal_targets(state, file, row)
}

#[unsafe(no_mangle)]
pub extern "C" fn gronwythal_find(state: State, file: &[u8], path: &[u8]) -> Image
    ensures { FindsImage state (record { file = file.entry.now; path = path.now }) result.answer (view_image result) result.compared }
{
    capi::gronwythal_find(state, file, path)
}

#[unsafe(no_mangle)]
pub extern "C" fn gronwythal_key(state: State, keyid: &[u8]) -> PublicKey
    ensures { GivesKey state keyid.now result.answer (view_id result.public) }
{
    capi::gronwythal_key(state, keyid)
}

#[unsafe(no_mangle)]
pub extern "C" fn gronwythal_versions(state: State) -> Versions
    ensures { Tells (view state) result }
{
    capi::gronwythal_versions(state)
}

#[unsafe(no_mangle)]
pub extern "C" fn gronwythal_check_image(
    listed: u64,
    digest: &[u8],
    fetched: u64,
    hash: &[u8],
) -> u8
    ensures { result ≡ image_answer (record { length = listed; digest = digest.now }) (record { length = fetched; digest = hash.now }) }
{
    capi::gronwythal_check_image(listed, digest, fetched, hash)
}

// SHA-256 of the lent bytes.
#[unsafe(no_mangle)]
pub extern "C" fn gronwythal_sha256(bytes: &[u8]) -> Id
    ensures { view_id result ≡ digest_of bytes.now }
{
    capi::gronwythal_sha256(bytes)
}

// ---- Looking into a file: a part cannot be returned to C, so its place and length are

#[unsafe(no_mangle)]
pub extern "C" fn gronwythal_look(file: &[u8]) -> Looked
    ensures { view_look result ≡ look_into file.now }
{
    capi::gronwythal_look(file)
}

#[unsafe(no_mangle)]
pub extern "C" fn gronwythal_entry(file: &[u8], place: usize) -> EntryRead
    ensures { view_entry_read result ≡ entry_at file.now place }
{
    capi::gronwythal_entry(file, place)
}

// ---- Text alone

#[unsafe(no_mangle)]
pub extern "C" fn gronwythal_is_canonical(text: &[u8]) -> bool
    ensures { (result ≡ true) ↔ Canonical max_depth text.now }
{
    capi::gronwythal_is_canonical(text)
}
