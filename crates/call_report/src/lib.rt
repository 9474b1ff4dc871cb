// An installation report: refusal 18.
#![tactic(auto)]

ghost use Rattle.std.specs.Prelude.{◌≡◌};
ghost use Rattle.call_report.specs.Report.{misreported, installed, reported};

use base_facts::Refusal;
use base_mi::Mi;
use participant::call::Called;
use participant::{Participant, Slot, call, keys};

// Fact 18, of the latest key.
#[tactic(auto, unfolding(crate::specs::Report::misreported))]
fn is_misreported(latest: &Slot, m: Mi, kn: u32, transmit: bool) -> bool
    ensures { result ≡ misreported latest.now m kn transmit }
{
    !keys::is_key(latest, m, kn) || transmit && !latest.key.receive
}

#[tactic(auto, unfolding(crate::specs::Report::installed))]
fn install(latest: Slot, transmit: bool) -> Slot
    ensures { result ≡ installed latest transmit }
{
    let mut s = latest;
    if transmit {
        s.key.transmit = true;
    } else {
        s.key.receive = true;
    }
    s
}

// `transmit` tells what is reported of the key: that it is sent with, else that it is received with.
#[tactic(auto, unfolding(crate::specs::Report::reported))]
pub fn report(p: Participant, m: Mi, kn: u32, transmit: bool) -> Called<()>
    ensures { result ≡ reported p m kn transmit }
{
    let Some(()) = base_facts::fail_if(is_misreported(&p.latest, m, kn, transmit)) else {
        return call::refused(p, Refusal::Misreported);
    };
    let latest = install(p.latest, transmit);
    call::accepted(Participant { latest, ..p }, ())
}
