// Creating a participant: refusal 15.
#![tactic(auto)]

ghost use Rattle.std.specs.Prelude.{◌≡◌};
ghost use Rattle.call_creation.specs.Create.{empty_participant, bad_start, created_of};

use base_facts::Refusal;
use base_mi::Mi;
use participant::call::Called;
use participant::{Participant, call};

// What a refused creation answers: a participant with nothing in it.
pub fn blank() -> Participant
    ensures { result ≡ empty_participant }
{
    Participant::default()
}

pub fn bad_start(n: usize, capability: u8) -> bool
    ensures { result ≡ bad_start n capability }
{
    n == 0 || 32 < n || capability == 0 || 3 < capability
}

// The parameters one by one, as SCOPE names them: a struct of them would be made only to be taken apart here.
#[tactic(auto, unfolding(crate::specs::Create::created_of, crate::specs::Create::empty_participant, crate::specs::Create::fresh))]
pub fn create(
    time: u64,
    mi: Mi,
    sci: u64,
    priority: u8,
    capability: u8,
    desired: bool,
    ckn: &[u8],
) -> Called<()>
    ensures { result ≡ created_of time mi sci priority capability desired ckn.now }
{
    let Some(()) = base_facts::fail_if(bad_start(ckn.len(), capability)) else {
        return call::refused(blank(), Refusal::BadStart);
    };
    let p = Participant {
        clock: time,
        mi,
        sci,
        priority,
        capability,
        desired,
        size: ckn.len(),
        ckn: base_runs::first(ckn),
        ..blank()
    };
    call::accepted(p, ())
}
