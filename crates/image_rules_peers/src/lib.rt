// The rules of the peers' records, each held against those behind it.
#![tactic(auto)]

ghost use Rattle.std.specs.Prelude.{◌≡◌};
ghost use Rattle.table.specs.Table.{entries};
ghost use Rattle.table_expiry.specs.Kept.{absent};
ghost use Rattle.image_rules.specs.Records.{times_good, peer_good, peers_good};

use base_mi::Mi;
use table::{Peer, Table};

#[tactic(auto, unfolding(image_rules::specs::Records::times_good))]
fn times_good(clock: u64, q: &Peer) -> bool
    ensures { result ≡ times_good clock q.now }
{
    q.accepted <= clock
        && table_expiry::fresh(clock, q.accepted)
        && (!q.proven || table_expiry::fresh(clock, q.proof))
        && if q.proven {
            q.proof <= q.accepted
        } else {
            q.proof == 0
        }
}

#[tactic(auto, unfolding(image_rules::specs::Records::peer_good))]
fn peer_good(own: Mi, clock: u64, q: &Peer) -> bool
    ensures { result ≡ peer_good own clock q.now }
{
    q.capability < 4 && times_good(clock, q) && q.mn != 0 && own != q.mi
}

// Whether an identifier is none of the peers'.
fn absent(m: Mi, peers: &[Peer]) -> bool
    ensures { result ≡ absent m peers.now }
{
    peers.iter().all(|p| m != p.mi)
}

#[tactic(auto, unfolding(image_rules::specs::Records::peers_good))]
pub fn peers_good(own: Mi, clock: u64, t: &Table) -> bool
    ensures { result ≡ peers_good own clock (entries t.now) }
{
    let mut rest = t.held();
    while let Some((q, behind)) = rest.split_first() {
        if !peer_good(own, clock, q) || !absent(q.mi, behind) {
            return false;
        }
        rest = behind;
    }
    true
}
