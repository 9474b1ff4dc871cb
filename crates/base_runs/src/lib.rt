// Runs of octets: stored, and handed back.
#![tactic(auto)]

ghost use Rattle.std.specs.Prelude.{◌≡◌, replicate};
ghost use Rattle.std.proofs.lemmas.List.Edits.{sets};
ghost use Rattle.base_octets.specs.Run.{part_of};

pub use base_octets::put_all;

pub fn put_zeros(out: &mut [u8], at: usize, n: u16)
    ensures { out.new ≡ sets out.old at (replicate n 0) }
{
    if at < out.len() {
        let end = at + (n as usize).min(out.len() - at);
        out[at..end].fill(0);
    }
}

// The part of n octets from `at`, an empty one if it doesn't fit.
#[tactic(auto, unfolding(base_octets::specs::Run::part_of))]
pub fn part(s: &[u8], at: usize, n: usize) -> &[u8]
    ensures { result.now ≡ part_of s.now at n }
{
    let Some(rest) = s.get(at..) else {
        return &[];
    };
    let Some(part) = rest.get(..n) else {
        return &[];
    };
    part
}

// The first N octets, zeros past the slice's end.
pub fn first<const N: usize>(s: &[u8]) -> [u8; N]
    ensures { result ≡ sets (replicate N 0) 0 s.now }
{
    let mut out = [0u8; N];
    put_all(&mut out, 0, s);
    out
}
