// What a set of each kind says.
ghost use Rattle.std.specs.Prelude.{◌≡◌, ◌+◌, ◌<◌, ◌^◌};
ghost use Rattle.frame_sets.specs.Kinds.{key_use_at, sak_use_at, sak_at, sak_in, kind_at, type_of};

use base_mi::Mi;
use base_packed::sak::SakFlags;
use base_packed::used::{KeyFlags, Used};

// What a SAK Use set says of one key.
#[derive(Clone, Copy, Default)]
pub struct KeyUse {
    pub an: u8,
    pub transmit: bool,
    pub receive: bool,
    pub mi: Mi,
    pub kn: u32,
    pub pn: u32,
}

#[derive(Clone, Copy)]
pub struct SakUse {
    pub latest: KeyUse,
    pub old: KeyUse,
}

// A Distributed SAK's header; the wrapped key's octets are `len` from `place`.
#[derive(Clone, Copy, Default)]
pub struct SakHeader {
    pub an: u8,
    pub confidentiality: u8,
    pub kn: u32,
    pub suite: u64,
    pub place: usize,
    pub len: usize,
}

#[derive(Clone, Copy)]
pub enum Kind {
    Live,
    Potential,
    SakUsed(SakUse),
    SakUseEmpty,
    Distributed(SakHeader),
    DistributedEmpty,
    Icv,
    Skipped(u8),
}

#[tactic(auto, unfolding(crate::specs::Kinds::key_use_at))]
fn key_use(frame: &[u8], at: usize, f: KeyFlags) -> KeyUse
    requires { at < 2 ^ 63 + 64 }
    ensures { result ≡ key_use_at frame.now at f }
{
    KeyUse {
        an: f.an,
        transmit: f.transmit,
        receive: f.receive,
        mi: base_mi::mi_at(frame, at),
        kn: base_octets::u32_at(frame, at + 12),
        pn: base_octets::u32_at(frame, at + 16),
    }
}

#[tactic(auto, unfolding(crate::specs::Kinds::sak_use_at))]
fn sak_use(frame: &[u8], at: usize) -> SakUse
    requires { at < 2 ^ 63 }
    ensures { result ≡ sak_use_at frame.now at }
{
    let u = Used::from(base_octets::octet(frame, at + 1));
    SakUse {
        latest: key_use(frame, at + 4, u.latest),
        old: key_use(frame, at + 24, u.old),
    }
}

#[tactic(auto, unfolding(crate::specs::Kinds::sak_at))]
fn sak_header(frame: &[u8], at: usize, len: u16) -> SakHeader
    requires { at < 2 ^ 63 }
    ensures { result ≡ sak_at frame.now at len }
{
    let f = SakFlags::from(base_octets::octet(frame, at + 1));
    let kn = base_octets::u32_at(frame, at + 4);
    let (suite, place, len) = if len == 28 {
        (0, at + 8, 24)
    } else {
        (
            base_octets::u64_at(frame, at + 8),
            at + 16,
            (len as usize).saturating_sub(12),
        )
    };
    SakHeader {
        an: f.an,
        confidentiality: f.confidentiality,
        kn,
        suite,
        place,
        len,
    }
}

// The Distributed SAK with a body of `len` octets whose header stands at `at`; all zeros past the frame.
#[tactic(auto, unfolding(crate::specs::Kinds::sak_in))]
pub fn sak_at(frame: &[u8], at: usize, len: u16) -> SakHeader
    ensures { result ≡ sak_in frame.now at len }
{
    if frame.len() <= at {
        return SakHeader::default();
    }
    sak_header(frame, at, len)
}

// The kind of the set of type `t` and body length `len` whose header stands at `at`. Here the type's octet becomes an enum. No type for the
// bound on a place: it would be made at each call, and says what any place in a slice meets.
#[tactic(auto, unfolding(crate::specs::Kinds::kind_at))]
pub(crate) fn kind_at(frame: &[u8], at: usize, t: u8, len: u16) -> Kind
    requires { at < 2 ^ 63 }
    ensures { result ≡ kind_at frame.now at t len }
{
    match t {
        1 => Kind::Live,
        2 => Kind::Potential,
        3 if len == 0 => Kind::SakUseEmpty,
        3 => Kind::SakUsed(sak_use(frame, at)),
        4 if len == 0 => Kind::DistributedEmpty,
        4 => Kind::Distributed(sak_header(frame, at, len)),
        255 => Kind::Icv,
        _ => Kind::Skipped(t),
    }
}

pub fn type_of(k: Kind) -> u8
    ensures { result ≡ type_of k }
{
    match k {
        Kind::Live => 1,
        Kind::Potential => 2,
        Kind::SakUsed(_) | Kind::SakUseEmpty => 3,
        Kind::Distributed(_) | Kind::DistributedEmpty => 4,
        Kind::Icv => 255,
        Kind::Skipped(t) => t,
    }
}
