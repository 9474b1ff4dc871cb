// The rules of our own record.
#![tactic(auto)]

ghost use Rattle.std.specs.Prelude.{◌≡◌, drop};
ghost use Rattle.image_rules.specs.Rules.{zeros, unused_zero};
ghost use Rattle.image_rules.specs.Records.{own_good};

use participant::Participant;

// Whether all octets from a place on are 0.
fn zeros_from(s: &[u8], from: usize) -> bool
    ensures { result ≡ zeros (drop from s.now) }
{
    s.iter().skip(from).all(|x| *x == 0)
}

// "Zero in each unused place".
#[tactic(auto, unfolding(image_rules::specs::Rules::unused_zero))]
fn unused_zero(p: &Participant) -> bool
    ensures { result ≡ unused_zero p.now }
{
    (p.mn != 0 || p.sent == 0)
        && (p.kn != 0 || p.distributed == 0 && zeros_from(&p.wrapped, 0))
        && zeros_from(&p.ckn, p.size)
}

#[tactic(auto, unfolding(image_rules::specs::Records::own_good))]
pub fn own_good(p: &Participant) -> bool
    ensures { result ≡ own_good p.now }
{
    !call_creation::bad_start(p.size, p.capability)
        && unused_zero(p)
        && p.sent <= p.clock
        && p.distributed <= p.clock
}
