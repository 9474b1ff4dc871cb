// What is asked of the table as it stands: by the calls, once it is expired to their time.
#![tactic(auto)]

ghost use Rattle.std.specs.Prelude.{◌≡◌};
ghost use Rattle.call_standing.specs.Standing.{own_rank, server_of, elected_self, pause_over, fresh_due};

use participant::Participant;
use table_election::{Rank, Server};

pub fn own_rank(p: &Participant) -> Rank
    ensures { result ≡ own_rank p.now }
{
    Rank {
        priority: p.priority,
        sci: p.sci,
        mi: p.mi,
    }
}

#[tactic(auto, unfolding(crate::specs::Standing::server_of))]
pub fn server(p: &Participant) -> Server
    ensures { result ≡ server_of p.now }
{
    table_election::elect(&p.table, own_rank(p))
}

#[tactic(auto, unfolding(crate::specs::Standing::elected_self))]
pub fn elected_self(p: &Participant) -> bool
    ensures { result ≡ elected_self p.now }
{
    server(p) == Server::Ourselves
}

// KN is 0, or the life time has passed since our last distribution, or no peer is Potential.
#[tactic(auto, unfolding(crate::specs::Standing::pause_over))]
fn pause_over(p: &Participant) -> bool
    ensures { result ≡ pause_over p.now }
{
    p.kn == 0
        || !table_expiry::fresh(p.clock, p.distributed)
        || table_counts::potential_count(&p.table) == 0
}

#[tactic(auto, unfolding(crate::specs::Standing::fresh_due))]
pub fn fresh_due(p: &Participant) -> bool
    ensures { result ≡ fresh_due p.now }
{
    elected_self(p) && p.mark && pause_over(p)
}
