// Big-endian numbers at a place of a slice, read and written. Total: past the end an octet reads
// as 0 and is not written.
#![tactic(auto)]

ghost use Rattle.std.specs.Prelude.{◌≡◌, ◌+◌, ◌<◌, ℕ, get_or, length, set};
ghost use Rattle.std.proofs.lemmas.List.Edits.{sets};
ghost use Rattle.base_octets.specs.Number.{be_at, be_of};

pub fn octet(s: &[u8], at: usize) -> u8
    ensures { result ≡ get_or s.now at 0 }
{
    if at < s.len() { s[at] } else { 0 }
}

// The N octets from `at` of a slice that may end before.
fn cut<const N: usize>(s: &[u8], at: usize) -> [u8; N]
    ensures { (i : ℕ) → i < N → get_or result i 0 ≡ get_or s.now (at + i) 0 }
{
    let mut a = [0; N];
    if at < s.len() {
        for i in 0..N {
            a[i] = octet(s, at + i);
        }
    }
    a
}

// The N octets from `at`. Where all are there, one test does for them.
fn octets<const N: usize>(s: &[u8], at: usize) -> [u8; N]
    ensures { (i : ℕ) → i < N → get_or result i 0 ≡ get_or s.now (at + i) 0 }
{
    if at < s.len() && N <= s.len() - at {
        let mut a = [0; N];
        a.copy_from_slice(&s[at..at + N]);
        return a;
    }
    cut(s, at)
}

// A function for each width, here and below: by a trait of numbers each would take an impl, and a call would still name its width.
pub fn u16_at(s: &[u8], at: usize) -> u16
    ensures { result ≡ be_at s.now at 2 }
{
    u16::from_be_bytes(octets(s, at))
}

pub fn u32_at(s: &[u8], at: usize) -> u32
    ensures { result ≡ be_at s.now at 4 }
{
    u32::from_be_bytes(octets(s, at))
}

pub fn u64_at(s: &[u8], at: usize) -> u64
    ensures { result ≡ be_at s.now at 8 }
{
    u64::from_be_bytes(octets(s, at))
}

pub fn put_octet(out: &mut [u8], at: usize, x: u8)
    ensures { out.new ≡ set out.old at x }
{
    if at < out.len() {
        out[at] = x;
    }
}

// As many of the octets as there is room for.
pub fn put_all(out: &mut [u8], at: usize, src: &[u8])
    ensures { out.new ≡ sets out.old at src.now }
{
    if at < out.len() {
        let n = src.len().min(out.len() - at);
        out[at..at + n].copy_from_slice(&src[..n]);
    }
}

// The octets from `at`. Where there is room for all, one test does for them.
fn put<const N: usize>(out: &mut [u8], at: usize, octets: [u8; N])
    ensures { out.new ≡ sets out.old at octets.entry }
{
    if at < out.len() && N <= out.len() - at {
        out[at..at + N].copy_from_slice(&octets);
        return;
    }
    put_all(out, at, &octets);
}

pub fn put_u16(out: &mut [u8], at: usize, v: u16)
    ensures { out.new ≡ sets out.old at (be_of 2 v) }
{
    put(out, at, v.to_be_bytes());
}

pub fn put_u32(out: &mut [u8], at: usize, v: u32)
    ensures { out.new ≡ sets out.old at (be_of 4 v) }
{
    put(out, at, v.to_be_bytes());
}

pub fn put_u64(out: &mut [u8], at: usize, v: u64)
    ensures { out.new ≡ sets out.old at (be_of 8 v) }
{
    put(out, at, v.to_be_bytes());
}
