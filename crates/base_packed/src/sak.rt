// The second octet of the Distributed SAK set. Its low four bits are reserved.
ghost use Rattle.std.specs.Prelude.{◌≡◌};
ghost use Rattle.base_packed.specs.Sak.{sak_flags_of, sak_octet};

#[derive(Clone, Copy, PartialEq, Eq)]
pub struct SakFlags {
    pub an: u8,
    pub confidentiality: u8,
}

impl From<u8> for SakFlags {
    ghost from_gives = { λ b f. f ≡ sak_flags_of b };

    fn from(b: u8) -> SakFlags {
        SakFlags {
            an: b >> 6,
            confidentiality: (b >> 4) & 3,
        }
    }
}

impl From<SakFlags> for u8 {
    ghost from_gives = { λ f b. b ≡ sak_octet f };

    fn from(f: SakFlags) -> u8 {
        ((f.an & 3) << 6) | ((f.confidentiality & 3) << 4)
    }
}
