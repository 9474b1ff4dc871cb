// A peer's record of a port image, 44 octets, and the peers' records one after the other.
#![tactic(auto)]

ghost use Rattle.std.specs.Prelude.{◌≡◌, ◌+◌, ◌*◌, min};
ghost use Rattle.std.proofs.lemmas.List.Edits.{sets};
ghost use Rattle.table.specs.Table.{entries, table_of};
ghost use Rattle.image_peer.specs.Peer.{peer_flags, peer_octets, peers_octets, peer_at, peer_clean, peers_at, peers_clean};

use table::{Peer, ROOM, Table};

#[tactic(auto, using(crate::proofs::Laws::peer_sum))]
fn flags(p: &Peer) -> u8
    ensures { result ≡ peer_flags p.now }
{
    ((p.capability & 3) << 4) | ((p.desired as u8) << 2) | ((p.server as u8) << 1) | p.proven as u8
}

// Where record number i of those from `at` stands.
fn place(at: u32, i: u16) -> usize
    ensures { result ≡ at + i * 44 }
{
    at as usize + i as usize * 44
}

fn put_peer(out: &mut [u8], at: u32, i: u16, p: &Peer)
    ensures { out.new ≡ sets out.old (at + i * 44) (peer_octets p.now) }
{
    let at = place(at, i);
    base_mi::put_mi(out, at, p.mi);
    base_octets::put_u32(out, at + 12, p.mn);
    base_octets::put_u64(out, at + 16, p.sci);
    base_octets::put_octet(out, at + 24, p.priority);
    base_octets::put_octet(out, at + 25, flags(p));
    base_octets::put_u16(out, at + 26, 0);
    base_octets::put_u64(out, at + 28, p.accepted);
    base_octets::put_u64(out, at + 36, p.proof);
}

// The peers of a table, in its order.
#[tactic(auto, using(crate::proofs::Laws::peer_stored, crate::proofs::Laws::peers_stored))]
pub fn put_peers(out: &mut [u8], at: u32, t: &Table)
    ensures { out.new ≡ sets out.old at (peers_octets (entries t.now)) }
{
    for (i, p) in t.held().iter().enumerate() {
        put_peer(out, at, i as u16, p);
    }
}

#[tactic(auto, unfolding(crate::specs::Peer::peer_at))]
fn peer_at(s: &[u8], at: u32, i: u16) -> Peer
    ensures { result ≡ peer_at s.now (at + i * 44) }
{
    let at = place(at, i);
    let b = base_octets::octet(s, at + 25);
    Peer {
        mi: base_mi::mi_at(s, at),
        mn: base_octets::u32_at(s, at + 12),
        sci: base_octets::u64_at(s, at + 16),
        accepted: base_octets::u64_at(s, at + 28),
        proof: base_octets::u64_at(s, at + 36),
        priority: base_octets::octet(s, at + 24),
        capability: (b >> 4) & 3,
        server: (b >> 1) & 1 == 1,
        desired: (b >> 2) & 1 == 1,
        proven: b & 1 == 1,
    }
}

// Makes `t` the table of the n peers from `at`; more than 16 are taken as 16. In place: one that is handed back is copied (docs/COST.md).
#[tactic(auto, using(crate::proofs::Laws::peers_at_step, crate::proofs::Laws::length_peers_at), unfolding(crate::specs::Peer::peers_at, table::specs::Table::empty_table))]
pub fn peers_at(t: &mut Table, s: &[u8], at: u32, n: usize)
    ensures { t.new ≡ table_of (peers_at s.now at (min n 16)) }
{
    *t = table::empty();
    let count = n.min(ROOM);
    for i in 0..count {
        t.peers[i] = peer_at(s, at, i as u16);
    }
    t.count = count;
}

// Whether the flags have no other bits, and the two octets behind them are 0.
#[tactic(auto, unfolding(crate::specs::Peer::peer_clean))]
fn peer_clean(s: &[u8], at: u32, i: u16) -> bool
    ensures { result ≡ peer_clean s.now (at + i * 44) }
{
    let at = place(at, i);
    let b = base_octets::octet(s, at + 25);
    (b >> 3) & 1 == 0 && b >> 6 == 0 && base_octets::u16_at(s, at + 26) == 0
}

pub fn peers_clean(s: &[u8], at: u32, n: u16) -> bool
    ensures { result ≡ peers_clean s.now at n }
{
    (0..n).all(|i| peer_clean(s, at, i))
}
