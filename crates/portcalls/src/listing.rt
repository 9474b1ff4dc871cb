// The sets of a frame, as words: op 11's line.
use crate::print::Member;
use base_mi::entry;
use frame_reader::step::Next;
use frame_sets::kinds::{KeyUse, Kind, SakHeader};
use frame_sets::{Set, kinds};
use std::fmt;
use std::fmt::Write;

// What a SAK Use set says of a key.
#[derive(Clone, Copy)]
struct Used(KeyUse);

impl fmt::Display for Used {
    fn fmt<W: fmt::Write>(&self, f: &mut fmt::Formatter<W>) -> fmt::Result {
        let Used(k) = *self;
        let tx = k.transmit as u8;
        let rx = k.receive as u8;
        let m = Member(k.mi);
        write!(f, "{},{tx},{rx},{m},{},{}", k.an, k.kn, k.pn)
    }
}

// What a Distributed SAK's header says.
#[derive(Clone, Copy)]
struct Handed(SakHeader);

impl fmt::Display for Handed {
    fn fmt<W: fmt::Write>(&self, f: &mut fmt::Formatter<W>) -> fmt::Result {
        let Handed(k) = *self;
        write!(f, "{},{},{},", k.an, k.confidentiality, k.kn)?;
        write!(f, "{:016x},{},{}", k.suite, k.place, k.len)
    }
}

// The entries of a list, whose body these octets are.
#[derive(Clone, Copy)]
struct Entries<'a>(&'a [u8]);

impl fmt::Display for Entries<'_> {
    fn fmt<W: fmt::Write>(&self, f: &mut fmt::Formatter<W>) -> fmt::Result {
        let mut mark = ':';
        for octets in self.0.chunks_exact(16) {
            let e = entry::entry_at(octets, 0);
            let m = Member(e.mi);
            write!(f, "{mark}{m}.{}", e.mn)?;
            mark = ',';
        }
        Ok(())
    }
}

// A set's word, behind a blank; a skipped one has none.
#[derive(Clone, Copy)]
struct Word<'a> {
    frame: &'a [u8],
    set: Set,
}

impl fmt::Display for Word<'_> {
    fn fmt<W: fmt::Write>(&self, f: &mut fmt::Formatter<W>) -> fmt::Result {
        let Set { place, len, kind } = self.set;
        if let Kind::Skipped(_) = kind {
            return Ok(());
        }
        write!(f, " {}@{place}+{len}", kinds::type_of(kind))?;
        match kind {
            Kind::SakUsed(u) => write!(f, ":{};{}", Used(u.latest), Used(u.old)),
            Kind::Distributed(h) => write!(f, ":{}", Handed(h)),
            Kind::Live | Kind::Potential => {
                let body = place.saturating_add(4);
                Entries(base_runs::part(self.frame, body, len as usize)).fmt(f)
            }
            _ => Ok(()),
        }
    }
}

// The words of a frame whose Basic set is read, to the end or to the bad set.
#[derive(Clone, Copy)]
pub(crate) struct Sets<'a>(pub(crate) &'a [u8]);

impl fmt::Display for Sets<'_> {
    fn fmt<W: fmt::Write>(&self, f: &mut fmt::Formatter<W>) -> fmt::Result {
        let Sets(frame) = *self;
        let mut reader = frame_reader::over(frame);
        f.write_str("sets")?;
        loop {
            match frame_reader::next(&mut reader) {
                Next::Set(set) => Word { frame, set }.fmt(f)?,
                Next::Bad(at) => return write!(f, " bad@{at}"),
                Next::End | Next::Refused(_) => return f.write_str(" end"),
            }
        }
    }
}
