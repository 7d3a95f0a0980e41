// The arguments of a line. The bytes of all of them stand one behind another in one buffer.
#![tactic(auto)]

ghost use Rattle.std.specs.Prelude.{◌≡◌, ◌≤◌, length, slice_get, IfOk, Some};
ghost use Rattle.arguments.specs.Parts.{number_of, time_of};
ghost use Rattle.arguments.specs.Reasons.{reason};

use date::Time;
use std::error::Error;
use std::fs::File;
use std::io::Read;
use std::rt::Files;
use std::str::Utf8Error;
use std::{fmt, io};

// The most arguments that a call has.
pub const ARGUMENTS: usize = 4;

// One more byte than an argument may have.
const ARGUMENT: usize = 1048577;

// What is wrong with a line.
#[derive(Clone, Copy, Debug, PartialEq, Eq)]
pub enum Problem {
    Call,
    Words,
    Bytes,
    Unopened,
    TooMany,
    Number,
    TooLong,
}

impl fmt::Display for Problem {
    ghost output = { λ p. Some (reason p) };

    fn fmt<W: fmt::Write>(&self, f: &mut fmt::Formatter<W>) -> fmt::Result {
        match self {
            Problem::Call => write!(f, "unknown call"),
            Problem::Words => write!(f, "wrong number of words"),
            Problem::Bytes => write!(f, "bad bytes"),
            Problem::Unopened => write!(f, "cannot open the file"),
            Problem::TooMany => write!(f, "too many bytes"),
            Problem::Number => write!(f, "bad number"),
            Problem::TooLong => write!(f, "line too long"),
        }
    }
}

impl Error for Problem {}

// A file that cannot be opened, or not be read.
impl From<io::Error> for Problem {
    fn from(_e: io::Error) -> Problem {
        Problem::Unopened
    }
}

// A name that is not UTF-8 opens no file.
impl From<Utf8Error> for Problem {
    fn from(_e: Utf8Error) -> Problem {
        Problem::Unopened
    }
}

// What an argument is read as.
#[derive(Clone, Copy)]
pub enum Kind {
    Bytes,
    Number,
    Time,
}

// An argument: bytes, those of the buffer from `from` up to `to`, or a number, or a time.
#[derive(Clone, Copy)]
pub enum Argument {
    Bytes { from: usize, to: usize },
    Number(u64),
    Time(Time),
}

// The arguments of a line, and the buffer that their bytes stand in.
#[derive(Clone, Copy)]
pub struct Arguments<'b> {
    bytes: &'b [u8],
    pub all: [Argument; ARGUMENTS],
}

// ---- Bytes: how many there are now in the first places of a buffer

fn copy_in(from: &[u8], to: &mut [u8]) -> Result<usize, Problem>
    ensures { IfOk result (λ n. n ≤ length to.new) }
{
    let n = from.len();
    if to.len() < n {
        return Err(Problem::TooMany);
    }
    to[..n].copy_from_slice(from);
    Ok(n)
}

// Reads until the buffer is full or the file ends; how many bytes came. An `Err` leaves those that came before it.
fn read_full(file: &mut impl Read, to: &mut [u8]) -> io::Result<usize>
    ensures { IfOk result (λ n. n ≤ length to.new) }
{
    let mut done = 0;
    while done < to.len() {
        let n = file.read(&mut to[done..])?;
        if n == 0 {
            break;
        }
        done += n;
    }
    Ok(done)
}

// Reads the whole of an open file, unless it fills the buffer: then it may have more.
fn read_in(file: &mut impl Read, to: &mut [u8]) -> Result<usize, Problem>
    ensures { IfOk result (λ n. n ≤ length to.new) }
{
    let n = read_full(file, to)?;
    if n == to.len() {
        return Err(Problem::TooMany);
    }
    Ok(n)
}

fn file_in(rt: &impl Files, name: &[u8], to: &mut [u8]) -> Result<usize, Problem>
    ensures { IfOk result (λ n. n ≤ length to.new) }
{
    let mut file = File::open(rt, str::from_utf8(name)?)?;
    read_in(&mut file, to)
}

fn hex_in(digits: &[u8], to: &mut [u8]) -> Result<usize, Problem>
    ensures { IfOk result (λ n. n ≤ length to.new) }
{
    let n = digits.len() / 2;
    if n == 0 {
        return Err(Problem::Bytes);
    }
    if to.len() < n {
        return Err(Problem::TooMany);
    }
    if base::undo_hex(digits, &mut to[..n]) {
        Ok(n)
    } else {
        Err(Problem::Bytes)
    }
}

// Hex, `-` for no bytes, `'` and the bytes themselves, or `@` and the name of a file that has them.
fn unpack(rt: &impl Files, word: &[u8], to: &mut [u8]) -> Result<usize, Problem>
    ensures { IfOk result (λ n. n ≤ length to.new) }
{
    match word {
        [b'\'', text @ ..] => copy_in(text, to),
        [b'@', name @ ..] => file_in(rt, name, to),
        [b'-'] => Ok(0),
        [b'-', ..] => Err(Problem::Bytes),
        _ => hex_in(word, to),
    }
}

// ---- One argument

// Its bytes go into the buffer from `at` on.
fn bytes_at(
    rt: &impl Files,
    word: &[u8],
    bytes: &mut [u8],
    at: usize,
) -> Result<Argument, Problem> {
    if bytes.len() < at {
        return Err(Problem::TooMany);
    }
    let room = (bytes.len() - at).min(ARGUMENT);
    let n = unpack(rt, word, &mut bytes[at..at + room])?;
    Ok(Argument::Bytes {
        from: at,
        to: at + n,
    })
}

fn read_one(
    rt: &impl Files,
    kind: Kind,
    word: &[u8],
    bytes: &mut [u8],
    at: usize,
) -> Result<Argument, Problem> {
    match kind {
        Kind::Bytes => bytes_at(rt, word, bytes, at),
        Kind::Number => script::read_number(word)
            .map(Argument::Number)
            .ok_or(Problem::Number),
        Kind::Time => script::read_time(word)
            .map(Argument::Time)
            .ok_or(Problem::Number),
    }
}

// ---- All of them

// The words behind the first of a line, by their kinds.
pub fn read<'b>(
    rt: &impl Files,
    kinds: &[Kind],
    line: &[u8],
    bytes: &'b mut [u8],
) -> Result<Arguments<'b>, Problem> {
    if script::words(line) != kinds.len() + 1 {
        return Err(Problem::Words);
    }
    // a 0 where there is no argument
    let mut all = [Argument::Number(0); ARGUMENTS];
    let mut at = 0;
    for (i, kind) in kinds.iter().enumerate().take(ARGUMENTS) {
        let one = read_one(rt, *kind, script::word(line, i + 1), bytes, at)?;
        if let Argument::Bytes { to, .. } = one {
            at = to;
        }
        all[i] = one;
    }
    Ok(Arguments { bytes, all })
}

impl<'b> Arguments<'b> {
    // The bytes of argument k; none where it has none.
    pub fn part(&self, k: usize) -> &'b [u8] {
        let bytes = self.bytes;
        match self.all.get(k) {
            Some(Argument::Bytes { from, to }) if *from <= *to && *to <= bytes.len() => {
                &bytes[*from..*to]
            }
            _ => &bytes[..0],
        }
    }

    // The number that argument k is; 0 where it is none.
    pub fn number(&self, k: usize) -> u64
        ensures { result ≡ number_of (slice_get self.now.all k) }
    {
        match self.all.get(k) {
            Some(Argument::Number(n)) => *n,
            _ => 0,
        }
    }

    // The time that argument k is; 0 where it is none.
    pub fn time(&self, k: usize) -> Time
        ensures { result ≡ time_of (slice_get self.now.all k) }
    {
        match self.all.get(k) {
            Some(Argument::Time(t)) => *t,
            _ => Time { seconds: 0 },
        }
    }
}
