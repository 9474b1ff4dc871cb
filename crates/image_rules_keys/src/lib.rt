// The rules of the keys' records.
#![tactic(auto)]

ghost use Rattle.std.specs.Prelude.{◌≡◌};
ghost use Rattle.image_rules.specs.Records.{key_good, slot_good, keys_good};

use participant::{Key, Participant, Slot, keys};

#[tactic(auto, unfolding(image_rules::specs::Records::key_good))]
fn key_good(p: &Participant, k: &Key) -> bool
    ensures { result ≡ key_good p.now.mi p.now.kn k.now }
{
    k.an < 4
        && k.confidentiality < 4
        && (!k.transmit || k.receive)
        && k.kn != 0
        && (p.mi != k.mi || k.kn <= p.kn)
}

#[tactic(auto, unfolding(image_rules::specs::Records::slot_good))]
fn slot_good(p: &Participant, s: &Slot) -> bool
    ensures { result ≡ slot_good p.now.mi p.now.kn s.now }
{
    !s.held || key_good(p, &s.key)
}

#[tactic(auto, unfolding(image_rules::specs::Records::keys_good))]
pub fn keys_good(p: &Participant) -> bool
    ensures { result ≡ keys_good p.now }
{
    let latest = &p.latest;
    slot_good(p, latest)
        && slot_good(p, &p.old)
        && !(latest.held && keys::is_key(&p.old, latest.key.mi, latest.key.kn))
}
