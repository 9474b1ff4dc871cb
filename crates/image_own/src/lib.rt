// The own record of a port image, 116 octets, written and read at a place.
#![tactic(auto)]

ghost use Rattle.std.specs.Prelude.{◌≡◌, ◌+◌};
ghost use Rattle.std.proofs.lemmas.List.Edits.{sets};
ghost use Rattle.image_own.specs.Own.{own_octets, own_at, own_clean};

use participant::{Participant, keys};

pub fn put_own(out: &mut [u8], at: u32, p: &Participant)
    ensures { out.new ≡ sets out.old at (own_octets p.now) }
{
    let at = at as usize;
    base_mi::put_mi(out, at, p.mi);
    base_octets::put_u32(out, at + 12, p.mn);
    base_octets::put_u64(out, at + 16, p.sci);
    base_octets::put_octet(out, at + 24, p.priority);
    base_octets::put_octet(out, at + 25, p.capability);
    base_octets::put_octet(out, at + 26, p.desired as u8);
    base_octets::put_octet(out, at + 27, p.mark as u8);
    base_octets::put_u64(out, at + 28, p.clock);
    base_octets::put_u64(out, at + 36, p.sent);
    base_octets::put_u32(out, at + 44, p.kn);
    base_octets::put_u64(out, at + 48, p.distributed);
    base_octets::put_u32(out, at + 56, p.size.min(32) as u32);
    base_runs::put_all(out, at + 60, &p.ckn);
    base_runs::put_all(out, at + 92, &p.wrapped);
}

// What the record tells, without peers and keys.
#[tactic(auto, unfolding(crate::specs::Own::own_at))]
pub fn own_at(s: &[u8], at: u32) -> Participant
    ensures { result ≡ own_at s.now at }
{
    let at = at as usize;
    Participant {
        mi: base_mi::mi_at(s, at),
        mn: base_octets::u32_at(s, at + 12),
        sci: base_octets::u64_at(s, at + 16),
        priority: base_octets::octet(s, at + 24),
        capability: base_octets::octet(s, at + 25),
        desired: base_octets::octet(s, at + 26) == 1,
        mark: base_octets::octet(s, at + 27) == 1,
        clock: base_octets::u64_at(s, at + 28),
        sent: base_octets::u64_at(s, at + 36),
        kn: base_octets::u32_at(s, at + 44),
        distributed: base_octets::u64_at(s, at + 48),
        size: base_octets::u32_at(s, at + 56) as usize,
        ckn: base_runs::first(base_runs::part(s, at + 60, 32)),
        wrapped: base_runs::first(base_runs::part(s, at + 92, 24)),
        table: table::empty(),
        latest: keys::empty(),
        old: keys::empty(),
    }
}

// Whether desired and mark are 0 or 1.
#[tactic(auto, unfolding(crate::specs::Own::own_clean))]
pub fn own_clean(s: &[u8], at: u32) -> bool
    ensures { result ≡ own_clean s.now at }
{
    base_octets::octet(s, at as usize + 26) <= 1 && base_octets::octet(s, at as usize + 27) <= 1
}
