// Who is Key Server.
#![tactic(auto)]

ghost use Rattle.std.specs.Prelude.{◌≡◌, ◌&&◌, Option, eqb, not};
ghost use Rattle.law_lists.specs.Lists.{every};
ghost use Rattle.table.specs.Table.{entries};
ghost use Rattle.table_lookup.specs.Look.{is_potential};
ghost use Rattle.table_election.specs.Elect.{rank_of, may_lead, eligible, elected};
ghost use Rattle.table_election.specs.Lead.{challenged, lead_step, led, server_led, first_lead};
ghost use Rattle.table_election.specs.Stand.{beats_us, some_beats, stand_of};

use base_mi::Mi;
use table::{Peer, Table};

// What candidates are compared by, in this order.
#[repr(C)]
#[derive(Clone, Copy, PartialEq, Eq, PartialOrd, Ord)]
pub struct Rank {
    pub priority: u8,
    pub sci: u64,
    pub mi: Mi,
}

// The best candidate so far: whether it is ourselves, and its rank.
#[derive(Clone, Copy)]
struct Lead {
    ours: bool,
    rank: Rank,
}

// Who is Key Server; a peer by its identifier.
#[derive(Clone, Copy, PartialEq, Eq)]
pub enum Server {
    Nobody,
    Ourselves,
    Elected(Mi),
}

fn rank_of(p: &Peer) -> Rank
    ensures { result ≡ rank_of p.now }
{
    Rank {
        priority: p.priority,
        sci: p.sci,
        mi: p.mi,
    }
}

// Whether this priority lets its owner be Key Server.
fn may_lead(priority: u8) -> bool
    ensures { result ≡ may_lead priority }
{
    priority != 255
}

fn is_eligible(p: &Peer) -> bool
    ensures { result ≡ eligible p.now }
{
    p.proven && p.server && may_lead(p.priority)
}

fn challenge(lead: Option<Lead>, r: Rank) -> Option<Lead>
    ensures { result ≡ challenged lead r }
{
    if lead.is_none_or(|q| r < q.rank) {
        return Some(Lead {
            ours: false,
            rank: r,
        });
    }
    lead
}

fn lead_step(lead: Option<Lead>, p: &Peer) -> Option<Lead>
    ensures { result ≡ lead_step lead p.now }
{
    if is_eligible(p) {
        challenge(lead, rank_of(p))
    } else {
        lead
    }
}

fn server_of(lead: Option<Lead>) -> Server
    ensures { result ≡ server_led lead }
{
    match lead {
        None => Server::Nobody,
        Some(q) if q.ours => Server::Ourselves,
        Some(q) => Server::Elected(q.rank.mi),
    }
}

fn start(own: Rank) -> Option<Lead>
    ensures { result ≡ first_lead own }
{
    may_lead(own.priority).then_some(Lead {
        ours: true,
        rank: own,
    })
}

// Who leads after all peers.
fn leader(t: &Table, own: Rank) -> Option<Lead>
    ensures { result ≡ led (first_lead own) (entries t.now) }
{
    t.held()
        .iter()
        .fold(start(own), |lead, p| lead_step(lead, p))
}

fn none_live(t: &Table) -> bool
    ensures { result ≡ every is_potential (entries t.now) }
{
    t.held().iter().all(|p| !p.proven)
}

// How the election stands: how many peers are Live, whether we are elected, and whether a peer is.
#[derive(Clone, Copy, PartialEq, Eq)]
pub struct Election {
    pub live: usize,
    pub ours: bool,
    pub theirs: bool,
}

// Whether this peer would lead before us.
fn beats(p: &Peer, own: Rank) -> bool
    ensures { result ≡ beats_us own p.now }
{
    is_eligible(p) && (!may_lead(own.priority) || rank_of(p) < own)
}

fn is_beaten(t: &Table, own: Rank) -> bool
    ensures { result ≡ some_beats own (entries t.now) }
{
    t.held().iter().any(|p| beats(p, own))
}

// Whether we are Key Server: a peer is Live, our priority lets us, and no peer beats us.
fn leads(own: Rank, live: usize, theirs: bool) -> bool
    ensures { result ≡ not (eqb live 0) && (may_lead own.priority && not theirs) }
{
    0 < live && may_lead(own.priority) && !theirs
}

pub fn stand(t: &Table, own: Rank) -> Election
    ensures { result ≡ stand_of own t.now }
{
    let live = table_counts::live_count(t);
    let theirs = is_beaten(t, own);
    Election {
        live,
        ours: leads(own, live, theirs),
        theirs,
    }
}

pub fn elect(t: &Table, own: Rank) -> Server
    ensures { result ≡ elected own t.now }
{
    if none_live(t) {
        return Server::Nobody;
    }
    server_of(leader(t, own))
}
