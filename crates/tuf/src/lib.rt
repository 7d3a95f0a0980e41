// The library that a controller links: the trusted state and every call of 01. A call reads what it is given, judges it by 01's table and
// returns the answer with the next state; a refusal returns the state that it was given. No call asks anything of its caller.
#![tactic(auto)]

ghost use Rattle.std.specs.Prelude.{◌≡◌, ◌+◌};
ghost use Rattle.sha256.specs.Message.{digest_of};
ghost use Rattle.rules.specs.State.{blank as blank_state, new_cycle, new_root, new_timestamp, new_snapshot, new_targets};
ghost use Rattle.rules.specs.Steps.{Began};
ghost use Rattle.rules.specs.Asked.{image_answer, look as look_into, signed_part, entry_at};
ghost use Rattle.answers.specs.Number.{number_of, refusal_number};
ghost use Rattle.records.specs.View.{view_id};
ghost use Rattle.state.specs.Told.{Tells};
ghost use Rattle.inspect.specs.View.{view_look, view_entry_read};
ghost use Rattle.tuf.specs.View.{view, view_image};
ghost use Rattle.tuf.specs.Promises.{Steps, Decides, DecidesInstall, Hands, NoImage, FindsImage, DecidesKey, Gives, GivesKey};

use answers::{Answer, Refusal};
use date::Time;
use inspect::{EntryRead, Looked};
use records::{Id, Targets};
use state::Versions;

// ---- The state, and what the calls give back

#[repr(C)]
#[derive(Clone, Copy)]
pub struct State {
    trusted: state::State,
}

// What a step gives back.
#[repr(C)]
#[derive(Clone, Copy)]
pub struct Step {
    pub answer: Answer,
    pub state: State,
}

// What find gives: the image's length and digest, and how many names it compared.
#[repr(C)]
#[derive(Clone, Copy)]
pub struct Image {
    pub answer: Answer,
    pub length: u64,
    pub digest: Id,
    pub compared: usize,
}

// What key gives.
#[repr(C)]
#[derive(Clone, Copy)]
pub struct PublicKey {
    pub answer: Answer,
    pub public: Id,
}

// ---- The calls, in the order of 01's steps

impl State {
    // "the blank state, which holds no record and has the lowest signed 64-bit count as its start time"
    pub fn blank() -> State
        ensures { view result ≡ blank_state }
    {
        let trusted = state::State::blank();
        State { trusted }
    }

    // "Install (1 to 5, 10)", and 16: "a refused one returns the blank state"
    pub fn install(file: &[u8], row: &[u8], start: Time) -> Step
        ensures { Began (record { file = file.entry.now; row = row.now; start = start.seconds }) (number_of result.answer) (view result.state) }
    {
        State::blank().stepped(&installed(file, row, start))
    }

    // New cycle (A8: 17): refused with a start time earlier than the latest one that the state has had
    pub fn new_cycle(self, start: Time) -> Step
        ensures { Steps self (new_cycle start.seconds) (number_of result.answer) result.state }
    {
        self.stepped(&self.after_cycle(start))
    }

    // "Root (1 to 6, 9, 10, 11)", and 16: the row of verdicts under the held root's keys, and the one under its own
    pub fn root(self, file: &[u8], held: &[u8], own: &[u8]) -> Step
        ensures { Steps self (new_root (record { file = file.entry.now; held_row = held.now; own_row = own.now })) (number_of result.answer) result.state }
    {
        self.stepped(&self.after_root(file, held, own))
    }

    // "Timestamp (1 to 7, 9, 11 to 14)"
    pub fn timestamp(self, file: &[u8], row: &[u8]) -> Step
        ensures { Steps self (new_timestamp (record { file = file.entry.now; row = row.now })) (number_of result.answer) result.state }
    {
        self.stepped(&self.after_timestamp(file, row))
    }

    // "Snapshot (1 to 9, 11, 13, 14)"
    pub fn snapshot(self, file: &[u8], row: &[u8]) -> Step
        ensures { Steps self (new_snapshot (record { file = file.entry.now; row = row.now })) (number_of result.answer) result.state }
    {
        self.stepped(&self.after_snapshot(file, row))
    }

    // "Targets (1 to 9, 11, 14)": "The file's digest is kept". No path is asked for.
    pub fn targets(self, file: &[u8], row: &[u8]) -> Step
        ensures { Steps self (new_targets (record { file = file.entry.now; row = row.now })) (number_of result.answer) result.state }
    {
        self.stepped(&self.after_targets(file, row))
    }

    // "Find (1 to 8, 15)": "Success gives length and sha256; a refusal gives zeros". A2: the number of names compared is given with 15 too.
    pub fn find(self, file: &[u8], path: &[u8]) -> Image
        ensures { FindsImage self (record { file = file.entry.now; path = path.now }) (number_of result.answer) (view_image result) result.compared }
    {
        let read = match targets_file::read_targets(file, path) {
            Ok(read) => read,
            Err(fault) => return no_image(Refusal::from(fault), 0),
        };
        let search = read.signed.search;
        let digest = sha256::digest(file);
        match judge::judge_find(&self.trusted, &digest, path, search.found.is_some()) {
            Ok(()) => {
                let found = search.found.unwrap();
                Image {
                    answer: Ok(()),
                    length: found.length,
                    digest: found.digest,
                    compared: search.compared,
                }
            }
            Err(why) if why == Refusal::NotListed => no_image(why, search.compared),
            Err(why) => no_image(why, 0),
        }
    }

    // "a held root's public key by keyid": 6 and 15
    pub fn key(self, keyid: &[u8]) -> PublicKey
        ensures { GivesKey self keyid.now (number_of result.answer) (view_id result.public) }
    {
        given(self.listed_key(keyid))
    }

    // The versions held, and the start time in force.
    pub fn versions(self) -> Versions
        ensures { Tells (view self) result }
    {
        self.trusted.versions()
    }

    // ---- What decides each of them: the refusal, or the trusted state after it

    fn after_cycle(&self, start: Time) -> Result<state::State, Refusal>
        ensures { Decides self.now (new_cycle start.seconds) result }
    {
        judge::judge_cycle(&self.trusted, start)?;
        Ok(self.trusted.with_start(start))
    }

    fn after_root(&self, file: &[u8], held: &[u8], own: &[u8]) -> Result<state::State, Refusal>
        ensures { Decides self.now (new_root (record { file = file.entry.now; held_row = held.now; own_row = own.now })) result }
    {
        let read = root_file::read_root(file)?;
        judge::judge_root(&self.trusted, read.signed, read.entries, held, own)?;
        Ok(self.trusted.with_root(&read.signed))
    }

    fn after_timestamp(&self, file: &[u8], row: &[u8]) -> Result<state::State, Refusal>
        ensures { Decides self.now (new_timestamp (record { file = file.entry.now; row = row.now })) result }
    {
        let read = timestamp_file::read_timestamp(file)?;
        judge::judge_timestamp(&self.trusted, read.signed, read.entries, row)?;
        Ok(self.trusted.with_timestamp(read.signed))
    }

    fn after_snapshot(&self, file: &[u8], row: &[u8]) -> Result<state::State, Refusal>
        ensures { Decides self.now (new_snapshot (record { file = file.entry.now; row = row.now })) result }
    {
        let read = snapshot_file::read_snapshot(file)?;
        let size = wide(file.len());
        let digest = sha256::digest(file);
        judge::judge_snapshot(
            &self.trusted,
            &read.signed,
            read.entries,
            row,
            size,
            &digest,
        )?;
        Ok(self.trusted.with_snapshot(&read.signed))
    }

    fn after_targets(&self, file: &[u8], row: &[u8]) -> Result<state::State, Refusal>
        ensures { Decides self.now (new_targets (record { file = file.entry.now; row = row.now })) result }
    {
        let read = targets_file::read_targets(file, b"")?;
        let version = read.signed.version;
        let expires = read.signed.expires;
        let size = wide(file.len());
        let bytes = sha256::digest(file);
        judge::judge_targets(
            &self.trusted,
            version,
            expires,
            read.entries,
            row,
            size,
            &bytes,
        )?;
        Ok(
            self.trusted.with_targets(Targets {
                version,
                expires,
                digest: Id { bytes },
            }),
        )
    }

    fn listed_key(self, keyid: &[u8]) -> Result<Id, Refusal>
        ensures { DecidesKey self keyid.now result }
    {
        if self.trusted.lacks_root() {
            return Err(Refusal::NotHeld);
        }
        let bytes = base::hex_array(keyid).ok_or(Refusal::NotListed)?;
        self.trusted
            .public_key(Id { bytes })
            .ok_or(Refusal::NotListed)
    }

    // "A refusal returns the state it was given". By reference: each copy of a state takes 4,608 bytes of the stack.
    fn stepped(&self, decided: &Result<state::State, Refusal>) -> Step
        ensures { Hands self.now decided.now result }
    {
        match decided {
            Ok(trusted) => Step {
                answer: Ok(()),
                state: State { trusted: *trusted },
            },
            Err(refusal) => Step {
                answer: Err(*refusal),
                state: *self,
            },
        }
    }
}

// What decides an install.
fn installed(file: &[u8], row: &[u8], start: Time) -> Result<state::State, Refusal>
    ensures { DecidesInstall (record { file = file.entry.now; row = row.now; start = start.seconds }) result }
{
    let read = root_file::read_root(file)?;
    judge::judge_install(read.signed, read.entries, row)?;
    Ok(state::State::installed(read.signed, start))
}

// SHA-256 of any bytes: for the image check, the digest of the fetched ones.
pub fn digest(bytes: &[u8]) -> Id
    ensures { view_id result ≡ digest_of bytes.now }
{
    let hash = sha256::digest(bytes);
    Id { bytes: hash }
}

// "Image (5, 8): the found length and digest against the fetched ones"
pub fn check_image(listed: u64, digest: &[u8], fetched: u64, hash: &[u8]) -> Answer
    ensures { number_of result ≡ image_answer (record { length = listed; digest = digest.now }) (record { length = fetched; digest = hash.now }) }
{
    if judge::is_bad_digest(digest) {
        return Err(Refusal::BadArgument);
    }
    if judge::is_bad_digest(hash) {
        return Err(Refusal::BadArgument);
    }
    if listed != fetched {
        return Err(Refusal::OtherContent);
    }
    if !base::same(digest, hash) {
        return Err(Refusal::OtherContent);
    }
    Ok(())
}

// ---- Looking into a file (1 to 3): no state is asked for

// Where the signed part stands, and the number of entries; "A refused look gives an empty part and 0".
pub fn look(file: &[u8]) -> Looked
    ensures { view_look result ≡ look_into file.now }
{
    inspect::look(file)
}

// "the signed part of the caller's own bytes, not a copy".
pub fn signed_part(file: &[u8]) -> &[u8]
    ensures result_value { result.now ≡ signed_part file.now }
    ensures ref_ptr_value { (result.ref_ptr.0 ≡ file.entry.ref_ptr.0) × (result.ref_ptr.1 ≡ (look_into file.now).start + file.entry.ref_ptr.1) }
{
    inspect::signed_part(file)
}

// "One entry's keyid and signature (32 and 64 bytes, the hex undone)": 15 where there is no such place.
pub fn entry(file: &[u8], place: usize) -> EntryRead
    ensures { view_entry_read result ≡ entry_at file.now place }
{
    inspect::entry(file, place)
}

// ---- Parts of the calls

fn wide(n: usize) -> u64
    ensures { result ≡ n }
{
    n as u64
}

fn no_image(why: Refusal, compared: usize) -> Image
    ensures { NoImage (refusal_number why) compared result }
{
    Image {
        answer: Err(why),
        length: 0,
        digest: Id { bytes: [0u8; 32] },
        compared,
    }
}

// The key, or zeros with the refusal.
fn given(key: Result<Id, Refusal>) -> PublicKey
    ensures { Gives key result }
{
    match key {
        Ok(public) => PublicKey {
            answer: Ok(()),
            public,
        },
        Err(why) => PublicKey {
            answer: Err(why),
            public: Id { bytes: [0u8; 32] },
        },
    }
}
