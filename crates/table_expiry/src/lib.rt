// Expiry of the peer table at a time: old entries go, old proofs are lost, the order stays and the gap closes. Every function is
// total, also on a table that no call would make.
#![tactic(auto)]

ghost use Rattle.std.specs.Prelude.{◌≡◌};
ghost use Rattle.law_lists.specs.Lists.{every};
ghost use Rattle.table.specs.Table.{entries};
ghost use Rattle.table_expiry.specs.Expiry.{fresh_at, lapsed, aged_peer, expired, oldest_at, still_from};

use table::{Peer, Table};

// The life time in milliseconds.
const LIFE: u64 = 6000;

// Whether what happened at `at` is less than a life time old at `time`.
pub fn fresh(time: u64, at: u64) -> bool
    ensures { result ≡ fresh_at time at }
{
    time.saturating_sub(at) < LIFE
}

// Whether there is a proof and it is old.
fn lapse(p: &Peer, time: u64) -> bool
    ensures { result ≡ lapsed time p.now }
{
    p.proven && !fresh(time, p.proof)
}

// The entry, without its proof where that is old.
fn aged(p: Peer, time: u64) -> Peer
    ensures { result ≡ aged_peer time p }
{
    if lapse(&p, time) {
        Peer {
            proof: 0,
            proven: false,
            ..p
        }
    } else {
        p
    }
}

// The earliest time that is less than a life time before `time`.
pub fn oldest(time: u64) -> u64
    ensures { result ≡ oldest_at time }
{
    time.saturating_sub(LIFE - 1)
}

// Whether nothing of the entry is from before `from`.
pub fn still_from(p: &Peer, from: u64) -> bool
    ensures { result ≡ still_from from p.now }
{
    from <= p.accepted && (!p.proven || from <= p.proof)
}

// Whether nothing of the table is old, by one comparison for each time.
fn is_steady(t: &Table, time: u64) -> bool
    ensures { result ≡ every (still_from (oldest_at time)) (entries t.now) }
{
    let from = oldest(time);
    t.held().iter().all(|p| still_from(p, from))
}

// Where nothing expires only the count may be another: one above 16 is 16. Else the entries that stay move up, without what is old
// of them, and what they leave is blank.
pub fn expire(t: &mut Table, time: u64)
    ensures { t.new ≡ expired time t.old }
{
    let n = t.held().len();
    if is_steady(t, time) {
        t.count = n;
        return;
    }
    // by index: the entries move within one array
    let mut k = 0;
    for i in 0..n {
        let p = t.peers[i];
        t.peers[i] = table::blank();
        if fresh(time, p.accepted) {
            t.peers[k] = aged(p, time);
            k += 1;
        }
    }
    t.count = k;
}
