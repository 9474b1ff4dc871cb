// The EAPOL header and the Basic set of a frame: facts 2 to 5 in their order, and what the Basic set says. Beside it facts 6 and 7.
#![tactic(auto)]

ghost use Rattle.std.specs.Prelude.{◌≡◌, [], ◌∷◌};
ghost use Rattle.base_facts.specs.Facts.{check_of, first_of};
ghost use Rattle.base_facts.specs.Refusal.{told};
ghost use Rattle.frame.specs.Basic.{length_of, fact3, fact4, fact5, basic_len, basic_fields, basic_of};

use base_facts::Refusal;
use base_mi::Mi;
use base_packed::basic::Flags;

pub mod ours;

// `size` is the length of the CKN, which stands at 36; `next` the first further set's place; `stop` the ICV's, 4 + body - 16, where the sets end.
#[derive(Clone, Copy)]
pub struct Basic {
    pub version: u8,
    pub priority: u8,
    pub server: bool,
    pub desired: bool,
    pub capability: u8,
    pub sci: u64,
    pub mi: Mi,
    pub mn: u32,
    pub agility: u32,
    pub size: usize,
    pub next: usize,
    pub stop: usize,
}

#[tactic(auto, unfolding(crate::specs::Basic::length_of))]
fn body_length(frame: &[u8]) -> Option<usize>
    ensures { result ≡ length_of frame.now }
{
    if frame.len() < 4 {
        return None;
    }
    let n = base_octets::u16_at(frame, 2) as usize;
    if frame.len() - 4 < n {
        return None;
    }
    Some(n)
}

fn kind(frame: &[u8]) -> Option<()>
    ensures { result ≡ check_of (fact3 frame.now) }
{
    base_facts::fail_if(base_octets::octet(frame, 0) < 3 || base_octets::octet(frame, 1) != 5)
}

fn body_shape(n: usize) -> Option<()>
    ensures { result ≡ check_of (fact4 n) }
{
    base_facts::fail_if(n < 32 || n % 4 != 0)
}

fn basic_length(frame: &[u8]) -> u16
    ensures { result ≡ basic_len frame.now }
{
    let f = Flags::from(base_octets::octet(frame, 6));
    let high = f.high as u16;
    high * 256 + base_octets::octet(frame, 7) as u16
}

fn basic_shape(n: u16, body: usize) -> Option<()>
    ensures { result ≡ check_of (fact5 n body) }
{
    base_facts::fail_if(n < 29 || 60 < n || body < 4 + base_facts::padded(n) + 16)
}

#[tactic(auto, unfolding(crate::specs::Basic::basic_fields))]
fn basic_fields(frame: &[u8], n: u16, body: usize) -> Basic
    ensures { result ≡ basic_fields frame.now n body }
{
    let f = Flags::from(base_octets::octet(frame, 6));
    Basic {
        version: base_octets::octet(frame, 4),
        priority: base_octets::octet(frame, 5),
        server: f.server,
        desired: f.desired,
        capability: f.capability,
        sci: base_octets::u64_at(frame, 8),
        mi: base_mi::mi_at(frame, 16),
        mn: base_octets::u32_at(frame, 28),
        agility: base_octets::u32_at(frame, 32),
        size: (n as usize).saturating_sub(28),
        next: 8 + base_facts::padded(n),
        stop: body.saturating_sub(12),
    }
}

// The first fact of 3 to 5 that holds, if one does.
fn wrong(frame: &[u8], body: usize, n: u16) -> Result<(), Refusal>
    ensures { result ≡ told (first_of ((3, fact3 frame.now) ∷ (4, fact4 body) ∷ (5, fact5 n body) ∷ [])) tt }
{
    let Some(()) = kind(frame) else {
        return Err(Refusal::Foreign);
    };
    let Some(()) = body_shape(body) else {
        return Err(Refusal::Body);
    };
    let Some(()) = basic_shape(n, body) else {
        return Err(Refusal::Basic);
    };
    Ok(())
}

#[tactic(auto, unfolding(crate::specs::Basic::basic_of, crate::specs::Basic::length_of))]
pub fn read_basic(frame: &[u8]) -> Result<Basic, Refusal>
    ensures { result ≡ basic_of frame.now }
{
    let Some(body) = body_length(frame) else {
        return Err(Refusal::Cut);
    };
    let n = basic_length(frame);
    wrong(frame, body, n)?;
    Ok(basic_fields(frame, n, body))
}
