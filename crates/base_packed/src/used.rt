// The second octet of the SAK Use set: one nibble for each key.
ghost use Rattle.std.specs.Prelude.{◌≡◌};
ghost use Rattle.base_packed.specs.Used.{key_flags_of, key_nibble, used_of, used_octet};

#[derive(Clone, Copy, PartialEq, Eq)]
pub struct KeyFlags {
    pub an: u8,
    pub transmit: bool,
    pub receive: bool,
}

#[derive(Clone, Copy, PartialEq, Eq)]
pub struct Used {
    pub latest: KeyFlags,
    pub old: KeyFlags,
}

fn unpack_key(n: u8) -> KeyFlags
    ensures { result ≡ key_flags_of n }
{
    KeyFlags {
        an: (n >> 2) & 3,
        transmit: (n >> 1) & 1 == 1,
        receive: n & 1 == 1,
    }
}

fn pack_key(f: KeyFlags) -> u8
    ensures { result ≡ key_nibble f }
{
    ((f.an & 3) << 2) | ((f.transmit as u8) << 1) | f.receive as u8
}

impl From<u8> for Used {
    ghost from_gives = { λ b u. u ≡ used_of b };

    fn from(b: u8) -> Used {
        Used {
            latest: unpack_key(b >> 4),
            old: unpack_key(b & 15),
        }
    }
}

impl From<Used> for u8 {
    ghost from_gives = { λ u b. b ≡ used_octet u };

    fn from(u: Used) -> u8 {
        (pack_key(u.latest) << 4) | pack_key(u.old)
    }
}
