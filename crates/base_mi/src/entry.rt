// One entry of a peer list, and up to 16 of them.
ghost use Rattle.std.specs.Prelude.{◌≡◌, ◌+◌, ◌≤◌, length};
ghost use Rattle.std.proofs.lemmas.List.Edits.{sets};
ghost use Rattle.base_mi.specs.Entry.{cut_at, entry_at, entry_octets};

use crate::Mi;

#[repr(C)]
#[derive(Clone, Copy, PartialEq, Eq, Default)]
pub struct Entry {
    pub mi: Mi,
    pub mn: u32,
}

// The first `count` entries; a count above 16 is taken as 16. No slice: a plain record of the C interface, in fixed memory.
#[repr(C)]
#[derive(Clone, Copy, PartialEq, Eq, Default)]
pub struct Entries {
    pub entries: [Entry; 16],
    pub count: usize,
}

// The 16 octets from `at`, copied out.
fn copied(s: &[u8], at: usize) -> [u8; 16]
    requires { at + 16 ≤ length s.now }
    ensures { result ≡ cut_at s.now at 16 }
{
    let mut e = [0u8; 16];
    e.copy_from_slice(&s[at..at + 16]);
    e
}

// An entry that the slice ends within.
fn across(s: &[u8], at: usize) -> Entry
    ensures { result ≡ entry_at s.now at }
{
    if s.len() <= at {
        return Entry {
            mi: Mi { hi: 0, lo: 0 },
            mn: 0,
        };
    }
    Entry {
        mi: crate::mi_at(s, at),
        mn: base_octets::u32_at(s, at + 12),
    }
}

pub fn entry_at(s: &[u8], at: usize) -> Entry
    ensures { result ≡ entry_at s.now at }
{
    if s.len() < 16 {
        return across(s, at);
    }
    if s.len() - 16 < at {
        return across(s, at);
    }
    let e = copied(s, at);
    Entry {
        mi: crate::mi_at(&e, 0),
        mn: base_octets::u32_at(&e, 12),
    }
}

pub fn put_entry(out: &mut [u8], at: usize, e: Entry)
    ensures { out.new ≡ sets out.old at (entry_octets e) }
{
    if out.len() <= at {
        return;
    }
    crate::put_mi(out, at, e.mi);
    base_octets::put_u32(out, at + 12, e.mn);
}
