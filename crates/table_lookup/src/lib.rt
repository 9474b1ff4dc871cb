// Looking an identifier up in the table, once: what a call asks of it is asked of the answer.
#![tactic(auto)]

ghost use Rattle.std.specs.Prelude.{◌≡◌, Option};
ghost use Rattle.table_lookup.specs.Look.{held_in, first_at, found_at, stale_for, no_room_for, live_for, potential_for, becomes_live};

use base_mi::Mi;
use table::{Peer, ROOM, Table};

// An identifier's entry and its place.
#[derive(Clone, Copy, PartialEq, Eq)]
pub struct Held {
    pub at: usize,
    pub peer: Peer,
}

// The first entry of this identifier.
#[tactic(auto, unfolding(crate::specs::Look::held_in))]
pub fn look(t: &Table, m: Mi) -> Option<Held>
    ensures { result ≡ held_in m t.now }
{
    for (at, p) in t.held().iter().enumerate() {
        if m == p.mi {
            return Some(Held { at, peer: *p });
        }
    }
    None
}

// The place of the first entry of an identifier, if there is one so far: one more entry is looked at, that at `i`.
pub fn first(at: Option<usize>, i: usize, m: Mi, p: &Peer) -> Option<usize>
    ensures { result ≡ first_at at i m p.now }
{
    if at.is_none() && m == p.mi {
        Some(i)
    } else {
        at
    }
}

// What the place that `first` came to tells, where `p` is the entry there.
pub fn found(at: Option<usize>, p: &Peer) -> Option<Held>
    ensures { result ≡ found_at at p.now }
{
    let at = at?;
    let peer = *p;
    Some(Held { at, peer })
}

// Fact 11, of a frame with this message number.
pub fn stale(held: Option<Held>, mn: u32) -> bool
    ensures { result ≡ stale_for held mn }
{
    mn == 0 || held.is_some_and(|h| mn <= h.peer.mn)
}

// Fact 12.
pub fn no_room(held: Option<Held>, t: &Table) -> bool
    ensures { result ≡ no_room_for held t.now }
{
    held.is_none() && ROOM <= t.count
}

// Whether what was looked up is held and Live.
pub fn live(held: Option<Held>) -> bool
    ensures { result ≡ live_for held }
{
    held.is_some_and(|h| h.peer.proven)
}

// Whether it is held and Potential.
pub fn potential(held: Option<Held>) -> bool
    ensures { result ≡ potential_for held }
{
    held.is_some_and(|h| !h.peer.proven)
}

// Whether a frame takes its sender from not Live to Live.
pub fn becomes_live(held: Option<Held>, proves: bool) -> bool
    ensures { result ≡ becomes_live held proves }
{
    proves && !live(held)
}
