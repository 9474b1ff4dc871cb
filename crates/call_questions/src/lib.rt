// The questions, which go by the clock and change nothing. They take the participant by value, as every public call does (project
// rule: state by value, in and out).
#![tactic(auto)]

ghost use Rattle.std.specs.Prelude.{◌≡◌};
ghost use Rattle.call_questions.specs.Ask.{at_clock, asked_server, asked_elected, asked_fresh, asked_live, asked_potential, asked_lives, asked_potentials, hello_due};

use base_mi::Mi;
use participant::{Participant, call};
use table_election::Server;

// The hello time in milliseconds.
const HELLO: u64 = 2000;

fn at_clock(p: Participant) -> Participant
    ensures { result ≡ at_clock p }
{
    call::aged_to(p, p.clock)
}

#[tactic(auto, unfolding(crate::specs::Ask::asked_server))]
pub fn server(p: Participant) -> Server
    ensures { result ≡ asked_server p }
{
    call_standing::server(&at_clock(p))
}

#[tactic(auto, unfolding(crate::specs::Ask::asked_elected))]
pub fn elected_self(p: Participant) -> bool
    ensures { result ≡ asked_elected p }
{
    call_standing::elected_self(&at_clock(p))
}

#[tactic(auto, unfolding(crate::specs::Ask::asked_fresh))]
pub fn fresh_due(p: Participant) -> bool
    ensures { result ≡ asked_fresh p }
{
    call_standing::fresh_due(&at_clock(p))
}

#[tactic(auto, unfolding(crate::specs::Ask::hello_due))]
pub fn hello_due(p: Participant) -> bool
    ensures { result ≡ hello_due p }
{
    p.mn == 0 || HELLO <= p.clock.saturating_sub(p.sent)
}

#[tactic(auto, unfolding(crate::specs::Ask::asked_live))]
pub fn is_live(p: Participant, m: Mi) -> bool
    ensures { result ≡ asked_live p m }
{
    let q = at_clock(p);
    table_lookup::live(table_lookup::look(&q.table, m))
}

#[tactic(auto, unfolding(crate::specs::Ask::asked_potential))]
pub fn is_potential(p: Participant, m: Mi) -> bool
    ensures { result ≡ asked_potential p m }
{
    let q = at_clock(p);
    table_lookup::potential(table_lookup::look(&q.table, m))
}

#[tactic(auto, unfolding(crate::specs::Ask::asked_lives))]
pub fn live_count(p: Participant) -> usize
    ensures { result ≡ asked_lives p }
{
    table_counts::live_count(&at_clock(p).table)
}

#[tactic(auto, unfolding(crate::specs::Ask::asked_potentials))]
pub fn potential_count(p: Participant) -> usize
    ensures { result ≡ asked_potentials p }
{
    table_counts::potential_count(&at_clock(p).table)
}
