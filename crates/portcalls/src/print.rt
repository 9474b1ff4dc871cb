// The text of a line.
use arrayvec::ArrayString;
use base_facts::Refusal;
use base_mi::Mi;
use page::line::Line;
use std::fmt::{Display, Write};
use std::{fmt, str};

// The longest line, that of two lists of 255 entries each, has not a third of so many octets.
pub(crate) type Text = ArrayString<65536>;

// Puts a line into the text. No line is longer than the text has room.
pub(crate) fn put<D: Display + Drop>(out: &mut Text, line: D) {
    let _ = writeln!(out, "{line}");
}

// What a call answers: that of its line, or the number of its refusal.
#[derive(Drop)]
pub(crate) struct Answer<T>(pub(crate) Result<T, Refusal>);

impl<T: Display> Display for Answer<T> {
    fn fmt<W: fmt::Write>(&self, f: &mut fmt::Formatter<W>) -> fmt::Result {
        match &self.0 {
            Ok(said) => said.fmt(f),
            Err(why) => write!(f, "refused {}", why.number()),
        }
    }
}

// A member's identifier.
#[derive(Clone, Copy)]
pub(crate) struct Member(pub(crate) Mi);

impl Display for Member {
    fn fmt<W: fmt::Write>(&self, f: &mut fmt::Formatter<W>) -> fmt::Result {
        let Member(m) = *self;
        write!(f, "{:016x}{:08x}", m.hi, m.lo)
    }
}

// A word, and octets in hex.
#[derive(Clone, Copy)]
pub(crate) struct Octets<'a>(pub(crate) &'a str, pub(crate) &'a [u8]);

impl Display for Octets<'_> {
    fn fmt<W: fmt::Write>(&self, f: &mut fmt::Formatter<W>) -> fmt::Result {
        f.write_str(self.0)?;
        f.write_str(" ")?;
        for &x in self.1 {
            f.write_char(digit(x >> 4))?;
            f.write_char(digit(x))?;
        }
        Ok(())
    }
}

// The hex digit of an octet's low four bits. By hand: with `{x:02x}` a line of octets takes twice the time.
fn digit(x: u8) -> char {
    char::from(b"0123456789abcdef"[(x & 15) as usize])
}

// A word, and two numbers.
#[derive(Clone, Copy)]
pub(crate) struct Numbers<'a>(pub(crate) &'a str, pub(crate) u64, pub(crate) u64);

impl Display for Numbers<'_> {
    fn fmt<W: fmt::Write>(&self, f: &mut fmt::Formatter<W>) -> fmt::Result {
        write!(f, "{} {} {}", self.0, self.1, self.2)
    }
}

// Puts the line of a port page, which has its end, into the text.
pub(crate) fn page(out: &mut Text, l: Line) {
    if let Ok(line) = str::from_utf8(l.octets()) {
        let _ = out.write_str(line);
    }
}
