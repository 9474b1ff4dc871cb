// A member identifier: 12 octets, as the number of the first 8 and that of the last 4. Beside it the entries of a peer list.
#![tactic(auto)]

ghost use Rattle.std.specs.Prelude.{◌≡◌};
ghost use Rattle.std.proofs.lemmas.List.Edits.{sets};
ghost use Rattle.base_mi.specs.Mi.{mi_at, mi_octets};

pub mod entry;

#[repr(C)]
#[derive(Clone, Copy, PartialEq, Eq, PartialOrd, Ord, Default)]
pub struct Mi {
    pub hi: u64,
    pub lo: u32,
}

// Always inline: as a call it makes each frame and each image dearer (docs/COST.md).
#[inline(always)]
pub fn mi_at(s: &[u8], at: usize) -> Mi
    ensures { result ≡ mi_at s.now at }
{
    if s.len() <= at {
        return Mi { hi: 0, lo: 0 };
    }
    Mi {
        hi: base_octets::u64_at(s, at),
        lo: base_octets::u32_at(s, at + 8),
    }
}

pub fn put_mi(out: &mut [u8], at: usize, m: Mi)
    ensures { out.new ≡ sets out.old at (mi_octets m) }
{
    if out.len() <= at {
        return;
    }
    base_octets::put_u64(out, at, m.hi);
    base_octets::put_u32(out, at + 8, m.lo);
}
