// The third octet of the Basic set.
ghost use Rattle.std.specs.Prelude.{◌≡◌};
ghost use Rattle.base_packed.specs.Basic.{flags_of, octet_of};

// `high` holds the high four bits of the set's length.
#[derive(Clone, Copy, PartialEq, Eq)]
pub struct Flags {
    pub server: bool,
    pub desired: bool,
    pub capability: u8,
    pub high: u8,
}

impl From<u8> for Flags {
    ghost from_gives = { λ b f. f ≡ flags_of b };

    fn from(b: u8) -> Flags {
        Flags {
            server: b >> 7 == 1,
            desired: (b >> 6) & 1 == 1,
            capability: (b >> 4) & 3,
            high: b & 15,
        }
    }
}

impl From<Flags> for u8 {
    ghost from_gives = { λ f b. b ≡ octet_of f };

    fn from(f: Flags) -> u8 {
        ((f.server as u8) << 7)
            | ((f.desired as u8) << 6)
            | ((f.capability & 3) << 4)
            | (f.high & 15)
    }
}
