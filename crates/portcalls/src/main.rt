// Plays a call script, in the file that its argument names or on standard input, and prints one line a record.
#![tactic(auto)]

mod calls;
mod input;
mod listing;
mod print;
mod shape;
mod status;

use crate::print::{Text, put};
use crate::shape::{Malformed, Op, Place, Wrong};
use input::{Asked, Fault};
use std::io;
use std::io::Read;
use std::rt::{Env, Files};

const PROGRAM: &str = "portcalls";

const HELP: &str = "portcalls [FILE]

Plays the call script in FILE, or on standard input if no file is named, and prints
one line for each record; docs/SCRIPTS.md has the records and the lines. A record of
no good shape gives the line
    malformed
and ends the run. Standard error then says which record it is, where it begins, and
what is wrong with it.
";

// The room for a payload, whose length is below it.
const ROOM: usize = 65536;

// A record's op and the length of its payload, in octets of which `got` were there; `read` is how their reading went.
#[derive(Clone, Copy)]
struct Head {
    octets: [u8; 3],
    got: usize,
    read: io::Result<()>,
}

impl Head {
    fn read<R: Read>(from: &mut R) -> Head {
        let mut octets = [0u8; 3];
        let (got, read) = input::fill(from, &mut octets);
        Head { octets, got, read }
    }

    fn len(&self) -> u16 {
        base_octets::u16_at(&self.octets, 1)
    }

    // Reads the record's payload into the space, and answers the op with it if the record has the op's shape.
    fn record<'a, R: Read>(
        &self,
        from: &mut R,
        space: &'a mut [u8; ROOM],
    ) -> Result<(Op, &'a [u8]), Wrong> {
        whole(3, self.got, self.read)?;
        let d = &mut space[..self.len() as usize];
        let (got, read) = input::fill(from, d);
        whole(d.len(), got, read)?;
        let op = Op::try_from(self.octets[0])?;
        op.check(d)?;
        Ok((op, d))
    }
}

// Whether as many octets were there as were wanted.
fn whole(wanted: usize, got: usize, read: io::Result<()>) -> Result<(), Wrong> {
    read.map_err(Wrong::Unread)?;
    if got < wanted {
        Err(Wrong::Cut)
    } else {
        Ok(())
    }
}

// The input is over where a record would begin.
fn over<P: Eprint>(rt: &P, read: io::Result<()>, record: u64) -> Result<(), Fault<'static>> {
    input::if_read(read)?;
    if record == 1 {
        input::complain(rt, PROGRAM, "there are no octets to read");
    }
    Ok(())
}

// A proved loop has to end, and nothing says that the input does: no script has so many records.
fn run<R: Read, P: Print + Eprint>(rt: &P, from: &mut R) -> Result<(), Fault<'static>> {
    let mut space = [0u8; ROOM];
    let mut out = Text::new();
    let mut held = None;
    let mut octet: u64 = 0;
    for record in 1..=u64::MAX {
        let head = Head::read(from);
        if head.got == 0 {
            return over(rt, head.read, record);
        }
        match head.record(from, &mut space) {
            Ok((op, d)) => {
                out.clear();
                held = calls::play(held, op, d, &mut out);
                input::if_written(rt.write_all(out.as_str().as_bytes()))?;
            }
            Err(wrong) => {
                let at = Place { record, octet };
                input::complain(rt, PROGRAM, Malformed { at, wrong });
                return input::if_written(rt.print("malformed\n"));
            }
        }
        octet = octet.wrapping_add(3 + head.len() as u64);
    }
    Ok(())
}

fn start<'a, R: Env + Files + Input + Print + Eprint>(
    rt: &R,
    name: &'a mut [u8],
) -> Result<(), Fault<'a>> {
    match input::wanted(rt, name)? {
        Asked::Help => input::if_written(rt.print(HELP)),
        Asked::Input => run(rt, &mut rt.reader()),
        Asked::File(file) => run(rt, &mut input::open(rt, file)?),
    }
}

fn main(rt: HostRuntime) {
    let mut name = [0u8; input::NAME];
    if let Err(fault) = start(&rt, &mut name) {
        input::complain(&rt, PROGRAM, fault);
    }
}
