// The lines that are written: one for each call, or what is wrong with its line. An `Err` says that a line could not be written, or not whole.
use answers::Answer;
use arguments::Problem;
use date::Time;
use inspect::{EntryRead, Looked};
use itoa::Integer;
use records::Id;
use script::{Line, ROOM};
use state::{Version, Versions};
use std::io;
use tuf::{Image, PublicKey, Step};

// Ends a line and writes it.
fn put(rt: &impl Print, mut line: Line<ROOM>) -> io::Result<()> {
    line.push(b"\n");
    rt.write_all(line.text())
}

pub fn problem(rt: &impl Print, number: u64, problem: Problem) -> io::Result<()> {
    println!(rt; "error {number} {problem}")
}

// ---- Pieces

// A line that begins with this name.
fn named(name: &[u8]) -> Line<ROOM> {
    let mut line = Line::new();
    line.push(name);
    line
}

// A line that begins with the name of a call and its number.
fn answered(name: &[u8], answer: Answer) -> Line<ROOM> {
    let mut line = named(name);
    push_number(&mut line, answers::number(answer));
    line
}

fn push_number<N: Integer>(line: &mut Line<ROOM>, n: N) {
    line.push(b" ");
    line.push_number(n);
}

fn push_bytes(line: &mut Line<ROOM>, bytes: &[u8]) {
    line.push(b" ");
    line.push_hex(bytes);
}

fn push_version(line: &mut Line<ROOM>, role: &[u8], version: Version) {
    line.push(b" ");
    line.push(role);
    line.push(b"=");
    if version.held {
        line.push_number(version.number);
    } else {
        line.push(b"-");
    }
}

fn push_state(line: &mut Line<ROOM>, v: Versions) {
    push_version(line, b"root", v.root);
    push_version(line, b"timestamp", v.timestamp);
    push_version(line, b"snapshot", v.snapshot);
    push_version(line, b"targets", v.targets);
    line.push(b" time=");
    line.push_number(v.start.seconds);
}

// ---- Answers

// The name of a call and its number.
pub fn number(rt: &impl Print, name: &[u8], answer: Answer) -> io::Result<()> {
    put(rt, answered(name, answer))
}

pub fn no_date(rt: &impl Print) -> io::Result<()> {
    put(rt, named(b"date bad"))
}

pub fn date(rt: &impl Print, time: Time) -> io::Result<()> {
    let mut line = named(b"date");
    push_number(&mut line, time.seconds);
    put(rt, line)
}

pub fn digest(rt: &impl Print, id: Id) -> io::Result<()> {
    let mut line = named(b"sha256");
    push_bytes(&mut line, &id.bytes);
    put(rt, line)
}

pub fn looked(rt: &impl Print, r: Looked) -> io::Result<()> {
    let mut line = answered(b"look", r.answer);
    push_number(&mut line, r.start);
    push_number(&mut line, r.length);
    push_number(&mut line, r.entries);
    put(rt, line)
}

pub fn entry(rt: &impl Print, r: EntryRead) -> io::Result<()> {
    let mut line = answered(b"entry", r.answer);
    push_bytes(&mut line, &r.keyid.bytes);
    push_bytes(&mut line, &r.sig);
    put(rt, line)
}

pub fn key(rt: &impl Print, r: PublicKey) -> io::Result<()> {
    let mut line = answered(b"key", r.answer);
    push_bytes(&mut line, &r.public.bytes);
    put(rt, line)
}

pub fn image(rt: &impl Print, r: Image) -> io::Result<()> {
    let mut line = answered(b"find", r.answer);
    push_number(&mut line, r.length);
    push_bytes(&mut line, &r.digest.bytes);
    push_number(&mut line, r.compared);
    put(rt, line)
}

pub fn step(rt: &impl Print, name: &[u8], r: Step) -> io::Result<()> {
    let mut line = answered(name, r.answer);
    push_state(&mut line, r.state.versions());
    put(rt, line)
}

// A line for a record, where it is held.
fn held(rt: &impl Print, role: &[u8], version: Version) -> io::Result<()> {
    if !version.held {
        return Ok(());
    }
    let mut line = named(b"held: ");
    line.push(role);
    line.push(b", version ");
    line.push_number(version.number);
    put(rt, line)
}

pub fn versions(rt: &impl Print, v: Versions) -> io::Result<()> {
    held(rt, b"root", v.root)?;
    held(rt, b"timestamp", v.timestamp)?;
    held(rt, b"snapshot", v.snapshot)?;
    held(rt, b"targets", v.targets)?;
    let mut line = named(b"state");
    push_state(&mut line, v);
    put(rt, line)
}
