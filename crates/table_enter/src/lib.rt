// What an accepted frame makes of its sender's entry, and where it goes: to the end of the table, or to its place.
#![tactic(auto)]

ghost use Rattle.std.specs.Prelude.{◌≡◌, Option, set};
ghost use Rattle.table_enter.specs.Enter.{proof_after, updated, entered_at};

use base_mi::Mi;
use table::{Peer, ROOM, Table};
use table_lookup::Held;

// What a frame says of its sender.
#[repr(C)]
#[derive(Clone, Copy)]
pub struct Heard {
    pub mi: Mi,
    pub mn: u32,
    pub sci: u64,
    pub priority: u8,
    pub capability: u8,
    pub server: bool,
    pub desired: bool,
}

fn proof_after(old: u64, proves: bool, time: u64) -> u64
    ensures { result ≡ proof_after old proves time }
{
    if proves { time } else { old }
}

// The entry that a frame makes of `old`.
#[tactic(auto, unfolding(crate::specs::Enter::updated))]
fn update(old: Peer, h: Heard, proves: bool, time: u64) -> Peer
    ensures { result ≡ updated old h proves time }
{
    Peer {
        mi: h.mi,
        mn: h.mn,
        sci: h.sci,
        accepted: time,
        proof: proof_after(old.proof, proves, time),
        priority: h.priority,
        capability: h.capability,
        server: h.server,
        desired: h.desired,
        proven: proves || old.proven,
    }
}

// The slot at a place anew. Past the slots nothing changes.
#[tactic(auto, using(std::proofs::lemmas::List::set_past))]
fn put(peers: &mut [Peer], at: usize, p: Peer)
    ensures { peers.new ≡ set peers.old at p }
{
    if at < peers.len() {
        peers[at] = p;
    }
}

// The table after a frame whose sender was looked up: its entry anew, or one more at the end. A full table stays as it is.
#[tactic(auto, unfolding(crate::specs::Enter::entered_at, crate::specs::Enter::replaced, table::specs::Table::pushed))]
pub fn enter(t: &mut Table, held: Option<Held>, h: Heard, proves: bool, time: u64)
    ensures { t.new ≡ entered_at held h proves time t.old }
{
    match held {
        Some(Held { at, peer }) => {
            put(&mut t.peers, at, update(peer, h, proves, time));
        }
        None => {
            if t.count < ROOM {
                t.peers[t.count] = update(table::blank(), h, proves, time);
                t.count += 1;
            }
        }
    }
}
