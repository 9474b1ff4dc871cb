// The two keys on record.
ghost use Rattle.std.specs.Prelude.{◌≡◌};
ghost use Rattle.participant.specs.Keys.{no_slot, of_member, is_key, with_key};

use crate::{Key, Participant, Slot};
use base_mi::Mi;

#[tactic(auto, unfolding(crate::specs::Keys::no_slot))]
pub fn empty() -> Slot
    ensures { result ≡ no_slot }
{
    Slot::default()
}

// Whether the slot holds a key of this member.
#[tactic(auto, unfolding(crate::specs::Keys::of_member))]
pub fn of_member(s: &Slot, m: Mi) -> bool
    ensures { result ≡ of_member s.now m }
{
    s.held && s.key.mi == m
}

// Whether the slot holds the key of this member with this number.
#[tactic(auto, unfolding(crate::specs::Keys::is_key))]
pub fn is_key(s: &Slot, m: Mi, kn: u32) -> bool
    ensures { result ≡ is_key s.now m kn }
{
    of_member(s, m) && s.key.kn == kn
}

// Latest becomes old, and this key latest.
#[tactic(auto, unfolding(crate::specs::Keys::with_key))]
pub fn with_key(p: Participant, key: Key) -> Participant
    ensures { result ≡ with_key p key }
{
    let latest = Slot { held: true, key };
    Participant {
        old: p.latest,
        latest,
        ..p
    }
}
