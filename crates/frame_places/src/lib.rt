// Where the sets of types 1 to 4 stand, each at most once.
#![tactic(auto)]

ghost use Rattle.std.specs.Prelude.{◌≡◌};
ghost use Rattle.frame_places.specs.Once.{holds, places_with, no_places};

// A set's header's place and its body's length.
#[derive(Clone, Copy)]
pub struct Spot {
    pub place: usize,
    pub len: u16,
}

#[derive(Clone, Copy)]
pub struct Places {
    pub live: Option<Spot>,
    pub potential: Option<Spot>,
    pub sak_use: Option<Spot>,
    pub sak: Option<Spot>,
}

pub fn none() -> Places
    ensures { result ≡ no_places }
{
    Places {
        live: None,
        potential: None,
        sak_use: None,
        sak: None,
    }
}

#[tactic(auto, unfolding(crate::specs::Once::holds))]
pub fn has(p: Places, t: u8) -> bool
    ensures { result ≡ holds p t }
{
    match t {
        1 => p.live.is_some(),
        2 => p.potential.is_some(),
        3 => p.sak_use.is_some(),
        4 => p.sak.is_some(),
        _ => false,
    }
}

// The places with one more: the set of type `t` at `place`. A type is its octet here too (frame_rules has why).
#[tactic(auto, unfolding(crate::specs::Once::places_with))]
pub fn with(mut p: Places, t: u8, place: usize, len: u16) -> Places
    ensures { result ≡ places_with p t place len }
{
    let s = Some(Spot { place, len });
    match t {
        1 => p.live = s,
        2 => p.potential = s,
        3 => p.sak_use = s,
        4 => p.sak = s,
        _ => {}
    }
    p
}
