// Time passes: refusal 1.
#![tactic(auto)]

ghost use Rattle.std.specs.Prelude.{◌≡◌};
ghost use Rattle.call_tick.specs.Tick.{ticked};

use base_facts::Refusal;
use participant::call::Called;
use participant::{Participant, call};

#[tactic(auto, unfolding(crate::specs::Tick::ticked))]
pub fn tick(p: Participant, time: u64) -> Called<()>
    ensures { result ≡ ticked p time }
{
    let Some(()) = base_facts::fail_if(time < p.clock) else {
        return call::refused(p, Refusal::Early);
    };
    call::accepted(call::aged_to(p, time), ())
}
