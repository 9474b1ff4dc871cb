// What a call answers, beside what the participant becomes.
ghost use Rattle.std.specs.Prelude.{◌≡◌};
ghost use Rattle.participant.specs.Call.{accepted_of, aged_to};

use crate::Participant;
use base_facts::Refusal;

#[derive(Clone, Copy)]
pub struct Called<T> {
    pub participant: Participant,
    pub answer: Result<T, Refusal>,
}

pub fn accepted<T>(q: Participant, x: T) -> Called<T>
    ensures { result ≡ accepted_of q x }
{
    Called {
        participant: q,
        answer: Ok(x),
    }
}

pub fn refused<T>(p: Participant, why: Refusal) -> Called<T>
    ensures { result ≡ record { participant = p; answer = Err why } }
{
    Called {
        participant: p,
        answer: Err(why),
    }
}

// The participant at a time: its table expired, its clock set.
#[tactic(auto, unfolding(crate::specs::Call::aged_to))]
pub fn aged_to(p: Participant, time: u64) -> Participant
    ensures { result ≡ aged_to p time }
{
    let mut q = p;
    table_expiry::expire(&mut q.table, time);
    q.clock = time;
    q
}
