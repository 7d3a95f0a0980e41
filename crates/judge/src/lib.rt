// The judging of records that were already read, against the trusted state: 01's table from 5 on, the first refusal that holds.
// Every goal here follows by what these definitions say.
#![tactic(auto, unfolding(rules::specs::Table::first, rules::specs::Steps::install_table, rules::specs::Steps::cycle_table, rules::specs::Steps::timestamp_table, rules::specs::Steps::root_table, rules::specs::Steps::snapshot_table, rules::specs::Steps::targets_table, rules::specs::Steps::find_table, rules::specs::Conditions::bad_digest, records::specs::View::view_timestamp, records::specs::View::view_listed, records::specs::View::view_snapshot, records::specs::View::view_root))]

ghost use Rattle.std.specs.Prelude.{◌≡◌, List, if◌then◌else◌, Ok, Err};
ghost use Rattle.base.specs.Bytes.{Bytes};
ghost use Rattle.answers.specs.Number.{refusal_number, number_of};
ghost use Rattle.rules.specs.Records.{File, Image};
ghost use Rattle.rules.specs.State.{Install, RootOffer, FileOffer, Query};
ghost use Rattle.rules.specs.Table.{first};
ghost use Rattle.rules.specs.Conditions.{bad_digest};
ghost use Rattle.rules.specs.Steps.{install_table, cycle_table, timestamp_table, root_table, snapshot_table, targets_table, find_table};
ghost use Rattle.records.specs.View.{view_root, view_timestamp, view_snapshot, view_entries};
ghost use Rattle.state.specs.View.{view};
ghost use Rattle.judge.specs.Offer.{Measured, Dated, Queried, Lists};

use answers::{Answer, Refusal};
use date::Time;
use records::{Entries, Root, Snapshot, Timestamp};
use state::State;

// Refusal 5: "a digest not 32 bytes"
pub fn is_bad_digest(d: &[u8]) -> bool
    ensures { result ≡ bad_digest d.now }
{
    d.len() != records::DIGEST
}

// A line of the table: the refusal, where its condition holds.
fn refuse_if(holds: bool, why: Refusal) -> Answer
    ensures { result ≡ (if holds then Err why else Ok tt) }
{
    if holds { Err(why) } else { Ok(()) }
}

// "Install (1 to 5, 10): a root judged by its own root role"
pub fn judge_install(offered: Root, entries: Entries, row: &[u8]) -> Answer
    ensures { (o : Install) → o.row ≡ row.now → number_of result ≡ first (install_table o (view_root offered) (view_entries entries)) }
{
    refuse_if(keys::bad_row(entries, row), Refusal::BadArgument)?;
    refuse_if(
        keys::too_few(offered.table, offered.root, entries, row),
        Refusal::FewOwnKeys,
    )?;
    Ok(())
}

// New cycle (A8: 17): "an equal one passes"
pub fn judge_cycle(s: &State, start: Time) -> Answer
    ensures { number_of result ≡ first (cycle_table (view s.now) start.seconds) }
{
    refuse_if(s.is_earlier(start), Refusal::EarlierStart)?;
    Ok(())
}

// "Timestamp (1 to 7, 9, 11 to 14): leans on root"
pub fn judge_timestamp(s: &State, offered: Timestamp, entries: Entries, row: &[u8]) -> Answer
    ensures { (o : FileOffer) → o.row ≡ row.now → number_of result ≡ first (timestamp_table (view s.now) o (view_timestamp offered) (view_entries entries)) }
{
    refuse_if(keys::bad_row(entries, row), Refusal::BadArgument)?;
    refuse_if(s.lacks_root(), Refusal::NotHeld)?;
    refuse_if(s.has_past_root(), Refusal::HeldExpired)?;
    refuse_if(s.has_few_for_timestamp(entries, row), Refusal::FewHeldKeys)?;
    refuse_if(
        s.has_later_timestamp(offered.version),
        Refusal::WrongVersion,
    )?;
    refuse_if(s.has_same_timestamp(offered.version), Refusal::NoNews)?;
    refuse_if(
        s.has_later_listed(offered.snapshot.version),
        Refusal::WentBack,
    )?;
    refuse_if(s.is_past(offered.expires), Refusal::FileExpired)?;
    Ok(())
}

// "Root (1 to 6, 9, 10, 11): version exactly held plus one. Expiry does not matter here"
pub fn judge_root(s: &State, offered: Root, entries: Entries, held: &[u8], own: &[u8]) -> Answer
    ensures { (o : RootOffer) → o.held_row ≡ held.now → o.own_row ≡ own.now → number_of result ≡ first (root_table (view s.now) o (view_root offered) (view_entries entries)) }
{
    refuse_if(keys::bad_row(entries, held), Refusal::BadArgument)?;
    refuse_if(keys::bad_row(entries, own), Refusal::BadArgument)?;
    refuse_if(s.lacks_root(), Refusal::NotHeld)?;
    refuse_if(s.has_few_for_root(entries, held), Refusal::FewHeldKeys)?;
    refuse_if(
        keys::too_few(offered.table, offered.root, entries, own),
        Refusal::FewOwnKeys,
    )?;
    refuse_if(s.has_other_root(offered.version), Refusal::WrongVersion)?;
    Ok(())
}

// "Snapshot (1 to 9, 11, 13, 14): needs a timestamp, leans on root and timestamp"
pub fn judge_snapshot(
    s: &State,
    offered: &Snapshot,
    entries: Entries,
    row: &[u8],
    size: u64,
    digest: &[u8],
) -> Answer
    ensures { (o : FileOffer) → Measured o row.now size digest.now → number_of result ≡ first (snapshot_table (view s.now) o (view_snapshot offered.now) (view_entries entries)) }
{
    refuse_if(keys::bad_row(entries, row), Refusal::BadArgument)?;
    refuse_if(s.lacks_root(), Refusal::NotHeld)?;
    refuse_if(s.lacks_timestamp(), Refusal::NotHeld)?;
    refuse_if(s.has_past_root(), Refusal::HeldExpired)?;
    refuse_if(s.has_past_timestamp(), Refusal::HeldExpired)?;
    refuse_if(s.has_other_length(size), Refusal::OtherContent)?;
    refuse_if(s.has_other_digest(digest), Refusal::OtherContent)?;
    refuse_if(s.has_few_for_snapshot(entries, row), Refusal::FewHeldKeys)?;
    refuse_if(s.has_other_listed(offered.version), Refusal::WrongVersion)?;
    refuse_if(s.has_lost(&offered.names), Refusal::WentBack)?;
    refuse_if(s.is_past(offered.expires), Refusal::FileExpired)?;
    Ok(())
}

// "Targets (1 to 9, 11, 14): needs a current snapshot .. leans on root, timestamp, snapshot"; the version and the date are the file's
pub fn judge_targets(
    s: &State,
    version: u64,
    expires: Time,
    entries: Entries,
    row: &[u8],
    size: u64,
    digest: &[u8],
) -> Answer
    ensures { (o : FileOffer) → Measured o row.now size digest.now → (f : File (List Image)) → Dated f version expires.seconds → number_of result ≡ first (targets_table (view s.now) o f (view_entries entries)) }
{
    refuse_if(keys::bad_row(entries, row), Refusal::BadArgument)?;
    refuse_if(s.lacks_root(), Refusal::NotHeld)?;
    refuse_if(s.lacks_timestamp(), Refusal::NotHeld)?;
    refuse_if(s.lacks_snapshot(), Refusal::NotHeld)?;
    refuse_if(s.has_stale_snapshot(), Refusal::NotHeld)?;
    refuse_if(s.has_past_root(), Refusal::HeldExpired)?;
    refuse_if(s.has_past_timestamp(), Refusal::HeldExpired)?;
    refuse_if(s.has_past_snapshot(), Refusal::HeldExpired)?;
    refuse_if(s.has_other_entry_length(size), Refusal::OtherContent)?;
    refuse_if(s.has_other_entry_digest(digest), Refusal::OtherContent)?;
    refuse_if(s.has_few_for_targets(entries, row), Refusal::FewHeldKeys)?;
    refuse_if(s.has_other_entry(version), Refusal::WrongVersion)?;
    refuse_if(s.is_past(expires), Refusal::FileExpired)?;
    Ok(())
}

// "Find (1 to 8, 15): given the targets file .. and a path .. leans on all four"; `listed` says whether the file lists the path
pub fn judge_find(s: &State, digest: &[u8], path: &[u8], listed: bool) -> Answer
    ensures { (q : Query) → Queried q digest.now path.now → (g : File (List Image)) → Lists g q.path listed → (es : List Bytes) → number_of result ≡ first (find_table (view s.now) q g es) }
{
    refuse_if(s.lacks_root(), Refusal::NotHeld)?;
    refuse_if(s.lacks_timestamp(), Refusal::NotHeld)?;
    refuse_if(s.lacks_snapshot(), Refusal::NotHeld)?;
    refuse_if(s.lacks_targets(), Refusal::NotHeld)?;
    refuse_if(s.has_stale_snapshot(), Refusal::NotHeld)?;
    refuse_if(s.has_stale_targets(), Refusal::NotHeld)?;
    refuse_if(s.has_past_root(), Refusal::HeldExpired)?;
    refuse_if(s.has_past_timestamp(), Refusal::HeldExpired)?;
    refuse_if(s.has_past_snapshot(), Refusal::HeldExpired)?;
    refuse_if(s.has_past_targets(), Refusal::HeldExpired)?;
    refuse_if(s.has_other_kept(digest), Refusal::OtherContent)?;
    // "A path of length 0 or above 128 is 15"
    refuse_if(path.len() == 0, Refusal::NotListed)?;
    refuse_if(path.len() > records::MAX_PATH, Refusal::NotListed)?;
    refuse_if(!listed, Refusal::NotListed)?;
    Ok(())
}
