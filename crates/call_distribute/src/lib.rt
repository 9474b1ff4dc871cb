// Distributing a fresh SAK: refusals 1, 15, 17, 14.
#![tactic(auto)]

ghost use Rattle.std.specs.Prelude.{◌≡◌, ◌<◌};
ghost use Rattle.call_distribute.specs.Distribute.{next_an, confidentiality_of, fresh_key, with_fresh, distributed_of};

use base_facts::Refusal;
use participant::call::Called;
use participant::{Key, Participant, Slot, call, keys};

#[tactic(auto, unfolding(crate::specs::Distribute::next_an))]
fn next_an(latest: &Slot) -> u8
    ensures { result ≡ next_an latest.now }
{
    if latest.held {
        (latest.key.an % 4 + 1) % 4
    } else {
        0
    }
}

#[tactic(auto, unfolding(crate::specs::Distribute::confidentiality_of))]
fn confidentiality_of(capability: u8) -> u8
    ensures { result ≡ confidentiality_of capability }
{
    if capability == 1 { 0 } else { 1 }
}

#[tactic(auto, unfolding(crate::specs::Distribute::fresh_key))]
fn fresh_key(p: &Participant) -> Key
    requires { p.now.kn < u32.MAX }
    ensures { result ≡ fresh_key p.now }
{
    Key {
        mi: p.mi,
        kn: p.kn + 1,
        suite: 0,
        an: next_an(&p.latest),
        confidentiality: confidentiality_of(p.capability),
        receive: false,
        transmit: false,
    }
}

#[tactic(auto, unfolding(crate::specs::Distribute::with_fresh, crate::specs::Distribute::fresh_key))]
fn with_fresh(p: Participant, wrapped: [u8; 24]) -> Participant
    requires { p.kn < u32.MAX }
    ensures { result ≡ with_fresh p wrapped }
{
    let key = fresh_key(&p);
    Participant {
        kn: key.kn,
        mark: false,
        distributed: p.clock,
        wrapped,
        ..keys::with_key(p, key)
    }
}

#[tactic(auto, unfolding(crate::specs::Distribute::distributed_of, participant::specs::Call::aged_to))]
pub fn distribute(p: Participant, time: u64, wrapped: &[u8]) -> Called<()>
    ensures { result ≡ distributed_of p time wrapped.now }
{
    let Some(()) = base_facts::fail_if(time < p.clock) else {
        return call::refused(p, Refusal::Early);
    };
    let Some(()) = base_facts::fail_if(wrapped.len() != 24) else {
        return call::refused(p, Refusal::BadStart);
    };
    let q = call::aged_to(p, time);
    let Some(()) = base_facts::fail_if(!call_standing::fresh_due(&q)) else {
        return call::refused(p, Refusal::NotDue);
    };
    let Some(()) = base_facts::fail_if(p.kn == u32::MAX) else {
        return call::refused(p, Refusal::Spent);
    };
    call::accepted(with_fresh(q, base_runs::first(wrapped)), ())
}
