// One call, played again and again on the same participant. What comes back goes into a sum, so that no play is idle.
use crate::setup;
use base_facts::Refusal;
use participant::Participant;

// What is accepted counts by the participant's clock and a number of the answer, what is refused by its number.
fn told(clock: u64, answer: Result<usize, Refusal>) -> u64 {
    match answer {
        Ok(n) => clock.wrapping_add(n as u64),
        Err(why) => why.number() as u64,
    }
}

// The sum of n plays, by what each answers. A macro and no function of a closure, which copies the participant once more at each play: 280
// instructions to the 850 that are measured.
macro_rules! sum {
    ($n:expr, $r:ident = $call:expr, $told:expr) => {{
        let mut sum: u64 = 0;
        for _ in 0..$n {
            let $r = $call;
            sum = sum.wrapping_add($told);
        }
        sum
    }};
}

fn hear_often(p: Participant, n: u32, time: u64, frame: &[u8]) -> u64 {
    sum!(
        n,
        r = call_receive::receive(p, time, true, frame),
        told(r.participant.clock, r.answer.map(|k| k.place))
    )
}

fn send_often(p: Participant, n: u32, time: u64) -> u64 {
    let mut out = [0u8; 2048];
    sum!(
        n,
        r = call_send::send(p, time, 1, 1, &mut out),
        told(r.participant.clock, r.answer)
    )
}

fn save_often(p: Participant, n: u32) -> u64 {
    let mut out = [0u8; 1024];
    sum!(n, r = image::write(&mut out, p), told(0, r))
}

fn read_often(p: Participant, n: u32) -> u64 {
    let mut out = [0u8; 1024];
    let len = image::write(&mut out, p).unwrap_or_default();
    let image = base_runs::part(&out, 0, len);
    sum!(
        n,
        r = image_reading::read(image),
        told(r.participant.clock, r.answer.map(|()| 0))
    )
}

// `d` is n, an op, and its payload; a frame's verdict is yes, an image that is read is the participant's own.
pub(crate) fn often(p: Participant, d: &[u8]) -> u64 {
    let n = base_octets::u32_at(d, 0);
    let time = base_octets::u64_at(d, 5);
    match base_octets::octet(d, 4) {
        2 => hear_often(p, n, time, setup::rest(d, 14)),
        9 => save_often(p, n),
        10 => read_often(p, n),
        _ => send_often(p, n, time),
    }
}
