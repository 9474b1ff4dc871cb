// Each op of a call script: its call, its line.
ghost use Rattle.std.specs.Prelude.{◌≤◌};

use crate::listing::Sets;
use crate::print::{Answer, Numbers, Octets, Text, page, put};
use crate::shape::Op;
use crate::status::Status;
use participant::Participant;
use participant::call::Called;

// The payload from a place on.
fn rest(d: &[u8], at: usize) -> &[u8] {
    d.get(at..).unwrap_or_default()
}

// The room at a place; over 2,048 counts as 2,048.
fn room_at(d: &[u8], at: usize) -> usize
    ensures { result ≤ 2048 }
{
    (base_octets::u16_at(d, at) as usize).min(2048)
}

// A call that answers done or refused; a refused one hands the participant back as it was.
fn called(r: Called<()>, out: &mut Text, word: &str) -> Participant {
    put(out, Answer(r.answer.map(|()| word)));
    r.participant
}

// The created participant, or the one that was there.
fn make(held: Option<Participant>, d: &[u8], out: &mut Text) -> Option<Participant> {
    let r = call_creation::create(
        base_octets::u64_at(d, 0),
        base_mi::mi_at(d, 8),
        base_octets::u64_at(d, 20),
        base_octets::octet(d, 28),
        base_octets::octet(d, 29),
        base_octets::octet(d, 30) != 0,
        rest(d, 31),
    );
    let made = called(r, out, "created");
    if r.answer.is_ok() { Some(made) } else { held }
}

fn hear(p: Participant, d: &[u8], out: &mut Text) -> Participant {
    let time = base_octets::u64_at(d, 0);
    let verdict = base_octets::octet(d, 8) != 0;
    let r = call_receive::receive(p, time, verdict, rest(d, 9));
    let said = r
        .answer
        .map(|k| Numbers("accepted key", k.place as u64, k.len as u64));
    put(out, Answer(said));
    r.participant
}

fn say(p: Participant, d: &[u8], out: &mut Text) -> Participant {
    let mut frame = [0u8; 2048];
    let r = call_send::send(
        p,
        base_octets::u64_at(d, 0),
        base_octets::u32_at(d, 10),
        base_octets::u32_at(d, 14),
        &mut frame[..room_at(d, 8)],
    );
    let said = r
        .answer
        .map(|n| Octets("sent", base_runs::part(&frame, 0, n)));
    put(out, Answer(said));
    r.participant
}

fn hand_out(p: Participant, d: &[u8], out: &mut Text) -> Participant {
    let r = call_distribute::distribute(p, base_octets::u64_at(d, 0), rest(d, 8));
    let k = r.participant.latest.key;
    let said = r
        .answer
        .map(|()| Numbers("distributed", k.kn as u64, k.an as u64));
    put(out, Answer(said));
    r.participant
}

fn tick(p: Participant, d: &[u8], out: &mut Text) -> Participant {
    let r = call_tick::tick(p, base_octets::u64_at(d, 0));
    called(r, out, "ticked")
}

fn rename(p: Participant, d: &[u8], out: &mut Text) -> Participant {
    let r = call_new_mi::new_mi(p, base_octets::u64_at(d, 0), base_mi::mi_at(d, 8));
    called(r, out, "renewed")
}

fn install(p: Participant, d: &[u8], out: &mut Text) -> Participant {
    let transmit = base_octets::octet(d, 0) == 2;
    let r = call_report::report(
        p,
        base_mi::mi_at(d, 1),
        base_octets::u32_at(d, 13),
        transmit,
    );
    called(r, out, "reported")
}

fn save(p: Participant, d: &[u8], out: &mut Text) -> Participant {
    let mut image = [0u8; 2048];
    let wrote = image::write(&mut image[..room_at(d, 0)], p);
    let said = wrote.map(|n| Octets("image", base_runs::part(&image, 0, n)));
    put(out, Answer(said));
    p
}

// One record, of its op's shape, on the participant that there is once a create has succeeded; and the participant after it.
pub(crate) fn play(
    held: Option<Participant>,
    op: Op,
    d: &[u8],
    out: &mut Text,
) -> Option<Participant> {
    let next = match (op, held) {
        (Op::Create, _) => return make(held, d, out),
        (Op::Show, _) => {
            page(out, page_shown::show(d));
            return held;
        }
        (Op::List, _) => {
            put(out, Answer(frame::read_basic(d).map(|_| Sets(d))));
            return held;
        }
        (_, None) => {
            put(out, "none");
            return None;
        }
        (Op::Receive, Some(p)) => hear(p, d, out),
        (Op::Send, Some(p)) => say(p, d, out),
        (Op::Distribute, Some(p)) => hand_out(p, d, out),
        (Op::Tick, Some(p)) => tick(p, d, out),
        (Op::Renew, Some(p)) => rename(p, d, out),
        (Op::Report, Some(p)) => install(p, d, out),
        (Op::Ask, Some(p)) => {
            put(out, Status(&p));
            p
        }
        (Op::Save, Some(p)) => save(p, d, out),
    };
    Some(next)
}
