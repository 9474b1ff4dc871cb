// Where a program's octets come from, and why none come. The same file in portshow and portcalls: in a library its functions would be public, and what
// reads and asks the system has no one answer.
ghost use Rattle.std.specs.Prelude.{◌≡◌, ◌<◌, ◌≤◌, ◌↔◌, length, take, OnOk, IsOk};
ghost use Rattle.std.specs.Io.KnownBytes.{Consumes, IsAtEnd};

use std::env::FillError;
use std::fmt::{Display, Write};
use std::io::Read;
use std::rt::{Env, Files};
use std::{fmt, fs, io, str};

// The room for a file's name.
pub(crate) const NAME: usize = 1024;

// What a program's words ask for: its help, or its work on standard input or on a file.
#[derive(Clone, Copy)]
pub(crate) enum Asked<'a> {
    Help,
    Input,
    File(&'a str),
}

// Why a program ends before its work is done.
#[derive(Clone, Copy)]
pub(crate) enum Fault<'a> {
    LongName,
    NoText,
    TwoFiles,
    NoOption,
    Unopened(&'a str, io::Error),
    Unread(io::Error),
    Unwritten(io::Error),
}

impl fmt::Display for Fault<'_> {
    fn fmt<W: fmt::Write>(&self, f: &mut fmt::Formatter<W>) -> fmt::Result {
        match *self {
            Fault::LongName => f.write_str("the file's name: File name too long"),
            Fault::NoText => f.write_str("the file's name: it is not UTF-8"),
            Fault::TwoFiles => f.write_str("one file at most is read; --help tells more"),
            Fault::NoOption => f.write_str("no such option; --help tells more"),
            Fault::Unopened(name, e) => write!(f, "cannot read {name}: {}", Why(e)),
            Fault::Unread(e) => write!(f, "a read failed: {}", Why(e)),
            Fault::Unwritten(e) => write!(f, "cannot write: {}", Why(e)),
        }
    }
}

// The system's words on a failure, without the number that std says behind them.
#[derive(Clone, Copy)]
struct Why(io::Error);

impl fmt::Display for Why {
    fn fmt<W: fmt::Write>(&self, f: &mut fmt::Formatter<W>) -> fmt::Result {
        let mut words = Words { to: f, over: false };
        write!(words, "{}", self.0)
    }
}

// What passes on the text up to the number.
#[derive(Drop)]
struct Words<'a, W> {
    to: &'a mut W,
    over: bool,
}

impl<W: fmt::Write> fmt::Write for Words<'_, W> {
    fn write_str(&mut self, s: &str) -> fmt::Result {
        if self.over {
            return Ok(());
        }
        match s.split_once(" (os error ") {
            Some((last, _)) => {
                self.over = true;
                self.to.write_str(last)
            }
            None => self.to.write_str(s),
        }
    }
}

// A program's line on standard error. Nobody can be told where that fails.
pub(crate) fn complain<D: Display + Drop>(rt: &impl Eprint, program: &str, what: D) {
    let _ = eprintln!(rt; "{program}: {what}");
}

// What the words after the program's name ask for. The first of them goes into `name`.
pub(crate) fn wanted<'a, R: Env>(rt: &R, name: &'a mut [u8]) -> Result<Asked<'a>, Fault<'a>> {
    match rt.arg(1, name) {
        Ok(n) => meant(&name[..n], is_given(rt, 2)),
        Err(FillError::NotPresent) => Ok(Asked::Input),
        Err(FillError::TooLong) => Err(Fault::LongName),
    }
}

fn is_given<R: Env>(rt: &R, i: usize) -> bool {
    !matches!(rt.arg(i, &mut []), Err(FillError::NotPresent))
}

// What the first word asks for, where others may follow it.
fn meant(word: &[u8], others: bool) -> Result<Asked<'_>, Fault<'_>> {
    match word {
        b"--help" | b"-h" => Ok(Asked::Help),
        _ if others => Err(Fault::TwoFiles),
        [b'-', ..] => Err(Fault::NoOption),
        _ => str::from_utf8(word)
            .map(Asked::File)
            .map_err(|_| Fault::NoText),
    }
}

pub(crate) fn open<'a, R: Files>(rt: &R, name: &'a str) -> Result<R::File, Fault<'a>> {
    fs::open(rt, name).map_err(|e| Fault::Unopened(name, e))
}

// What reading came to. A match, here and in `if_written`: a `map_err` gets no proof where the error that it makes names a lifetime.
pub(crate) fn if_read(read: io::Result<()>) -> Result<(), Fault<'static>>
    ensures { IsOk result ↔ IsOk read }
{
    match read {
        Ok(()) => Ok(()),
        Err(e) => Err(Fault::Unread(e)),
    }
}

// What writing came to.
pub(crate) fn if_written(written: io::Result<()>) -> Result<(), Fault<'static>>
    ensures { IsOk result ↔ IsOk written }
{
    match written {
        Ok(()) => Ok(()),
        Err(e) => Err(Fault::Unwritten(e)),
    }
}

// Reads until the space is full, the input ends or a read fails, and answers how many octets there were, and how the last read went.
// Both, and no Result of the number: a read may fail behind octets that were there, and a script's record tells whether there were any.
pub(crate) fn fill<R: Read>(from: &mut R, space: &mut [u8]) -> (usize, io::Result<()>)
    ensures bound { result.0 ≤ length space.new }
    ensures prefix { result.0 ≡ length (take result.0 space.new) }
    ensures octets { Consumes (R.remaining from.old) (R.remaining from.new) (take result.0 space.new) }
    ensures end { OnOk result.1 (result.0 < length space.new → IsAtEnd (R.remaining from.new)) }
{
    let mut done = 0;
    while done < space.len() {
        match from.read(&mut space[done..]) {
            Ok(0) => return (done, Ok(())),
            Ok(n) => done += n,
            Err(e) => return (done, Err(e)),
        }
    }
    (done, Ok(()))
}
