// Whether a frame is for us: facts 6 and 7.
ghost use Rattle.std.specs.Prelude.{◌≡◌, ◌<◌, ◌^◌};
ghost use Rattle.base_facts.specs.Facts.{check_of};
ghost use Rattle.frame.specs.Ours.{same_at, fact6, fact7};

use crate::Basic;
use base_facts::AGILITY;

#[tactic(auto, using(crate::proofs::Laws::same_steps))]
fn same_at(s: &[u8], at: usize, key: &[u8]) -> bool
    requires { at < 2 ^ 63 }
    ensures { result ≡ same_at s.now at key.now }
{
    for (i, x) in key.iter().enumerate() {
        if base_octets::octet(s, at + i) != *x {
            return false;
        }
    }
    true
}

// `ckn` is our own.
#[tactic(auto, unfolding(crate::specs::Ours::fact6))]
pub fn name_ours(frame: &[u8], b: &Basic, ckn: &[u8]) -> Option<()>
    ensures { result ≡ check_of (fact6 frame.now b.now ckn.now) }
{
    base_facts::fail_if(b.size != ckn.len() || !same_at(frame, 36, ckn))
}

pub fn agility_ours(b: &Basic) -> Option<()>
    ensures { result ≡ check_of (fact7 b.now) }
{
    base_facts::fail_if(b.agility != AGILITY)
}
