// A key's record of a port image, 28 octets.
#![tactic(auto)]

ghost use Rattle.std.specs.Prelude.{◌≡◌, ◌+◌, ◌*◌};
ghost use Rattle.std.proofs.lemmas.List.Edits.{sets};
ghost use Rattle.image_key.specs.Key.{key_flags, key_octets, slot_octets, key_at, key_clean, slot_at, slot_clean};

use participant::{Key, Slot, keys};

#[tactic(auto, using(crate::proofs::Laws::key_sum))]
fn flags(k: &Key) -> u8
    ensures { result ≡ key_flags k.now }
{
    ((k.transmit as u8) << 1) | k.receive as u8
}

fn put_key(out: &mut [u8], at: u32, k: &Key)
    ensures { out.new ≡ sets out.old at (key_octets k.now) }
{
    let at = at as usize;
    base_mi::put_mi(out, at, k.mi);
    base_octets::put_u32(out, at + 12, k.kn);
    base_octets::put_octet(out, at + 16, k.an);
    base_octets::put_octet(out, at + 17, flags(k));
    base_octets::put_octet(out, at + 18, k.confidentiality);
    base_octets::put_octet(out, at + 19, 0);
    base_octets::put_u64(out, at + 20, k.suite);
}

// The key that a slot holds, if it holds one.
pub fn put_slot(out: &mut [u8], at: u32, s: &Slot)
    ensures { out.new ≡ sets out.old at (slot_octets s.now) }
{
    if s.held {
        put_key(out, at, &s.key);
    }
}

// Where key number i of those from `at` stands.
fn place(at: u32, i: u8) -> usize
    ensures { result ≡ at + i * 28 }
{
    at as usize + i as usize * 28
}

#[tactic(auto, unfolding(crate::specs::Key::key_at))]
fn key_at(s: &[u8], at: u32, i: u8) -> Key
    ensures { result ≡ key_at s.now (at + i * 28) }
{
    let at = place(at, i);
    let b = base_octets::octet(s, at + 17);
    Key {
        mi: base_mi::mi_at(s, at),
        kn: base_octets::u32_at(s, at + 12),
        suite: base_octets::u64_at(s, at + 20),
        an: base_octets::octet(s, at + 16),
        confidentiality: base_octets::octet(s, at + 18),
        receive: b & 1 == 1,
        transmit: (b >> 1) & 1 == 1,
    }
}

// Key number i of those from `at`, if it is there.
#[tactic(auto, unfolding(crate::specs::Key::slot_at))]
pub fn slot_at(s: &[u8], at: u32, i: u8, there: bool) -> Slot
    ensures { result ≡ slot_at s.now (at + i * 28) there }
{
    if there {
        let key = key_at(s, at, i);
        Slot { held: true, key }
    } else {
        keys::empty()
    }
}

// Whether the flags have no other bits, and the octet before the suite is 0.
#[tactic(auto, unfolding(crate::specs::Key::key_clean))]
fn key_clean(s: &[u8], at: u32, i: u8) -> bool
    ensures { result ≡ key_clean s.now (at + i * 28) }
{
    let at = place(at, i);
    base_octets::octet(s, at + 17) < 4 && base_octets::octet(s, at + 19) == 0
}

#[tactic(auto, unfolding(crate::specs::Key::slot_clean))]
pub fn slot_clean(s: &[u8], at: u32, i: u8, there: bool) -> bool
    ensures { result ≡ slot_clean s.now (at + i * 28) there }
{
    !there || key_clean(s, at, i)
}
