// Taking a new MI: refusals 1, 19.
#![tactic(auto)]

ghost use Rattle.std.specs.Prelude.{◌≡◌};
ghost use Rattle.call_new_mi.specs.Renew.{in_use, renewed, new_mi_of};

use base_facts::Refusal;
use base_mi::Mi;
use participant::call::Called;
use participant::{Participant, call, keys};

// Fact 19.
#[tactic(auto, unfolding(crate::specs::Renew::in_use))]
fn is_in_use(p: &Participant, m: Mi) -> bool
    ensures { result ≡ in_use p.now m }
{
    p.mi == m || keys::of_member(&p.latest, m) || keys::of_member(&p.old, m)
}

#[tactic(auto, unfolding(crate::specs::Renew::renewed))]
fn renew(p: Participant, time: u64, m: Mi) -> Participant
    ensures { result ≡ renewed p time m }
{
    Participant {
        table: table::empty(),
        clock: time,
        mi: m,
        mn: 0,
        mark: false,
        sent: 0,
        kn: 0,
        distributed: 0,
        wrapped: [0; 24],
        ..p
    }
}

#[tactic(auto, unfolding(crate::specs::Renew::new_mi_of))]
pub fn new_mi(p: Participant, time: u64, m: Mi) -> Called<()>
    ensures { result ≡ new_mi_of p time m }
{
    let Some(()) = base_facts::fail_if(time < p.clock) else {
        return call::refused(p, Refusal::Early);
    };
    let Some(()) = base_facts::fail_if(is_in_use(&p, m)) else {
        return call::refused(p, Refusal::InUse);
    };
    call::accepted(renew(p, time, m), ())
}
