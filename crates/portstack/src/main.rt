// Each call of the library as a function of its own, for bench/stack: into a function that calls itself the compiler takes nothing inline
// that keeps more than 1,024 octets (docs/COST.md). Plays them all on what it reads, and prints a check line.
#![tactic(auto)]

use base_facts::Refusal;
use participant::Participant;
use participant::call::Called;
use std::io;
use std::io::Read;
use table_election::Server;

// As much of the input is read; where it is shorter, zeros follow.
const ROOM: usize = 96;

fn of_called<T: Drop>(r: Called<T>) -> u64 {
    r.participant.clock
}

fn of_server(s: Server) -> u64 {
    match s {
        Server::Nobody => 0,
        Server::Ourselves => 1,
        Server::Elected(m) => m.hi,
    }
}

fn of_wrote(wrote: Result<usize, Refusal>) -> u64 {
    match wrote {
        Ok(n) => n as u64,
        Err(why) => why.number() as u64,
    }
}

// The calls up to the op-th, with what `d` gives them. A recursion: the measurement needs a function that calls itself.
fn called(p: Participant, op: u8, d: &[u8]) -> u64 {
    if op == 0 {
        return 0;
    }
    let before = called(p, op - 1, d);
    let time = base_octets::u64_at(d, 0);
    let m = base_mi::mi_at(d, 8);
    let yes = base_octets::octet(d, 20) != 0;
    let kn = base_octets::u32_at(d, 20);
    let mut out = [0u8; 1024];
    let x = match op {
        1 => of_called(call_creation::create(time, m, time, 16, 2, yes, d)),
        2 => of_called(call_receive::receive(p, time, yes, d)),
        3 => of_called(call_send::send(p, time, kn, kn, &mut out)),
        4 => of_called(call_distribute::distribute(p, time, d)),
        5 => of_called(call_tick::tick(p, time)),
        6 => of_called(call_new_mi::new_mi(p, time, m)),
        7 => of_called(call_report::report(p, m, kn, yes)),
        8 => of_server(call_questions::server(p)),
        9 => call_questions::elected_self(p) as u64,
        10 => call_questions::fresh_due(p) as u64,
        11 => call_questions::hello_due(p) as u64,
        12 => call_questions::is_live(p, m) as u64,
        13 => call_questions::is_potential(p, m) as u64,
        14 => call_questions::live_count(p) as u64,
        15 => call_questions::potential_count(p) as u64,
        16 => of_wrote(image::write(&mut out, p)),
        17 => of_called(image_reading::read(d)),
        18 => page::status(p).len as u64,
        _ => page_shown::show(d).len as u64,
    };
    before.wrapping_add(x)
}

fn main(rt: HostRuntime) -> io::Result<()> {
    let mut d = Vec::new(rt.alloc());
    rt.reader().take(ROOM as u64).read_to_end(&mut d)?;
    d.resize(ROOM, 0)?;
    let sum = called(call_creation::blank(), 19, &d);
    println!(rt; "check {sum}")
}
