// Sending a frame, refusals 1, 14, 13: the frame that a participant's state makes, written into lent octets.
#![tactic(auto)]

ghost use Rattle.std.specs.Prelude.{◌≡◌, length};
ghost use Rattle.call_send.specs.Send.{sent_of, left_by};

use base_facts::Refusal;
use participant::call::Called;
use participant::{Participant, call};

mod message;
mod writing;

// The frame goes to the start of `out`, and its length is the answer; `latest_pn` and `old_pn` are the lowest packet numbers that the host lends.
pub fn send(
    mut p: Participant,
    time: u64,
    latest_pn: u32,
    old_pn: u32,
    out: &mut [u8],
) -> Called<usize>
    ensures { (result ≡ sent_of p time latest_pn old_pn (length out.old)) × (out.new ≡ left_by p time latest_pn old_pn out.old) }
{
    let Some(()) = base_facts::fail_if(time < p.clock) else {
        return call::refused(p, Refusal::Early);
    };
    let Some(()) = base_facts::fail_if(p.mn == 4294967295) else {
        return call::refused(p, Refusal::Spent);
    };
    let before = p.table;
    table_expiry::expire(&mut p.table, time);
    let stand = table_election::stand(&p.table, call_standing::own_rank(&p));
    let x = message::sender(&p, !stand.theirs);
    let usage = message::usage(&p, latest_pn, old_pn);
    let sak = message::sak(&p, stand.ours);
    match writing::put_frame(out, &x, &p.table, stand.live, usage, sak) {
        Ok(n) => {
            p.mn += 1;
            p.sent = time;
            p.clock = time;
            call::accepted(p, n)
        }
        Err(why) => {
            p.table = before;
            call::refused(p, why)
        }
    }
}
