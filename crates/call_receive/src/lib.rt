// Receiving a frame: refusals 1 to 12, and else what an accepted one makes of the participant.
#![tactic(auto)]

ghost use Rattle.std.specs.Prelude.{◌≡◌};
ghost use Rattle.call_receive.specs.Receive.{received_of};

use base_facts::Refusal;
use call_hearing::keys::Wrapped;
use call_hearing::{keys, proof};
use call_judge::Judged;
use participant::call::Called;
use participant::{Participant, call};

// The wrapped key is that of a key entered, 0 and 0 if none was. One participant, changed in its place, its table put back on a refusal:
// a second one to change costs 235 instructions more.
pub fn receive(mut p: Participant, time: u64, verdict: bool, frame: &[u8]) -> Called<Wrapped>
    ensures { result ≡ received_of p time verdict frame.now }
{
    // no `?`: a refusal hands the participant back
    let Judged { basic, places } = match call_judge::judge(&p, time, verdict, frame) {
        Ok(judged) => judged,
        Err(why) => return call::refused(p, why),
    };
    let Some(()) = base_facts::fail_if(p.mi == basic.mi) else {
        return call::refused(p, Refusal::OwnMi);
    };
    let before = p.table;
    table_expiry::expire(&mut p.table, time);
    let held = table_lookup::look(&p.table, basic.mi);
    let Some(()) = base_facts::fail_if(table_lookup::stale(held, basic.mn)) else {
        p.table = before;
        return call::refused(p, Refusal::Stale);
    };
    let Some(()) = base_facts::fail_if(table_lookup::no_room(held, &p.table)) else {
        p.table = before;
        return call::refused(p, Refusal::Full);
    };
    let proves = proof::proves(frame, &places, p.mi, p.mn);
    let heard = call_accept::heard_of(&basic);
    table_enter::enter(&mut p.table, held, heard, proves, time);
    p.mark |= table_lookup::becomes_live(held, proves);
    p.clock = time;
    let wrapped = keys::take_sak_into(&mut p, frame, basic.mi, places.sak);
    call::accepted(p, wrapped)
}
