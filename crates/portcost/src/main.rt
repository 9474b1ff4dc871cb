// What a call costs: makes a participant by the first calls of a script, plays its last call n times, and prints a check line.
#![tactic(auto)]

mod play;
mod setup;

use std::io;
use std::io::Read;

// As much of the input is read; where it is shorter, zeros follow.
const ROOM: usize = 4096;

// Records as in a call script; op 12 is the last, the number of plays in 4 octets with the op and the payload to play behind it.
fn cost(script: &[u8]) -> Option<u64> {
    let mut p = call_creation::blank();
    let mut rest = script;
    while let [op, ..] = rest {
        let n = base_octets::u16_at(rest, 1) as usize;
        let d = base_runs::part(rest, 3, n);
        if *op == 12 {
            return Some(play::often(p, d));
        }
        p = setup::called(p, *op, d);
        rest = rest.get(3 + n..).unwrap_or_default();
    }
    None
}

fn main(rt: HostRuntime) -> io::Result<()> {
    let mut script = Vec::new(rt.alloc());
    rt.reader().take(ROOM as u64).read_to_end(&mut script)?;
    script.resize(ROOM, 0)?;
    match cost(&script) {
        Some(sum) => println!(rt; "check {sum}"),
        None => Ok(()),
    }
}
