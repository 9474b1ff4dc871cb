// Prints the line of a port image: of the file that its argument names, or of standard input.
#![tactic(auto)]

ghost use Rattle.std.specs.Prelude.{◌<◌, length, OnOk, IfSome};
ghost use Rattle.page_shown.specs.Show.{shown_of};
ghost use Rattle.portshow.specs.Written.{WritesLine};

mod input;

use input::{Asked, Fault};
use page::line::Line;
use std::io;
use std::io::{Read, Write};
use std::rt::{Env, Files};

const PROGRAM: &str = "portshow";

const HELP: &str = "portshow [FILE]

Prints the line of the port image in FILE, or on standard input if no file is named:
    sent M live L potential P server S key K
M is the number of the last message sent, L and P count the Live and the Potential
peers, S is the Key Server (none, self, or its member identifier in hex), and K is
the number of the latest key, or none. What is no well-formed image gives the line
    refused 16
";

fn say<W: Write>(out: &mut W, l: Line) -> io::Result<()>
    ensures { OnOk result (WritesLine (W.contents out.old) (W.contents out.new) l) }
{
    out.write_all(l.octets())
}

// No good image fills the space, so none is cut.
fn show<R: Read, W: Write, E: Eprint>(
    rt: &E,
    from: &mut R,
    out: &mut W,
) -> Result<(), Fault<'static>>
    ensures { OnOk result (IfSome (R.remaining from.old)
        (λ image. length image < 1025 → WritesLine (W.contents out.old) (W.contents out.new) (shown_of image))) }
{
    let mut space = [0u8; 1025];
    let (n, read) = input::fill(from, &mut space);
    input::if_read(read)?;
    if n == 0 {
        input::complain(rt, PROGRAM, "there are no octets to read");
    }
    let l = page_shown::show(&space[..n]);
    input::if_written(say(out, l))
}

fn start<'a, R: Env + Files + Input + Print + Eprint>(
    rt: &R,
    name: &'a mut [u8],
) -> Result<(), Fault<'a>> {
    match input::wanted(rt, name)? {
        Asked::Help => input::if_written(rt.print(HELP)),
        Asked::Input => show(rt, &mut rt.reader(), &mut io::writer(rt)),
        Asked::File(file) => show(rt, &mut input::open(rt, file)?, &mut io::writer(rt)),
    }
}

fn main(rt: HostRuntime) {
    let mut name = [0u8; input::NAME];
    if let Err(fault) = start(&rt, &mut name) {
        input::complain(&rt, PROGRAM, fault);
    }
}
