// The calls that make the participant, by their ops' numbers. Each payload is that of a call script's record; a send has room enough.
use participant::Participant;

// The payload from `at` on.
pub(crate) fn rest(d: &[u8], at: usize) -> &[u8] {
    d.get(at..).unwrap_or_default()
}

fn make(d: &[u8]) -> Participant {
    call_creation::create(
        base_octets::u64_at(d, 0),
        base_mi::mi_at(d, 8),
        base_octets::u64_at(d, 20),
        base_octets::octet(d, 28),
        base_octets::octet(d, 29),
        base_octets::octet(d, 30) != 0,
        rest(d, 31),
    )
    .participant
}

pub(crate) fn called(p: Participant, op: u8, d: &[u8]) -> Participant {
    let time = base_octets::u64_at(d, 0);
    // by number: four ops, for which an enum would be longer
    match op {
        1 => make(d),
        2 => {
            let verdict = base_octets::octet(d, 8) != 0;
            call_receive::receive(p, time, verdict, rest(d, 9)).participant
        }
        3 => call_send::send(p, time, 1, 1, &mut [0u8; 2048]).participant,
        4 => call_distribute::distribute(p, time, rest(d, 8)).participant,
        _ => p,
    }
}
