// How many peers are Live and how many Potential, and their lists for the writer, in table order.
#![tactic(auto)]

ghost use Rattle.std.specs.Prelude.{◌≡◌, [], map, length};
ghost use Rattle.law_lists.specs.Lists.{those};
ghost use Rattle.table.specs.Table.{entries};
ghost use Rattle.table_counts.specs.Counts.{is_of, entry_of, list_of, live_count, potential_count, live_list, potential_list};

use base_mi::entry::{Entries, Entry};
use table::{Peer, Table};

// Whether the entry is Live, or, where that is asked, Potential.
pub fn is_of(p: &Peer, live: bool) -> bool
    ensures { result ≡ is_of live p.now }
{
    p.proven == live
}

fn count_of(t: &Table, live: bool) -> usize
    ensures { result ≡ length (those (is_of live) (entries t.now)) }
{
    t.held().iter().filter(|p| is_of(p, live)).count()
}

#[tactic(auto, unfolding(crate::specs::Counts::live_count))]
pub fn live_count(t: &Table) -> usize
    ensures { result ≡ live_count t.now }
{
    count_of(t, true)
}

#[tactic(auto, unfolding(crate::specs::Counts::potential_count))]
pub fn potential_count(t: &Table) -> usize
    ensures { result ≡ potential_count t.now }
{
    count_of(t, false)
}

pub fn entry_of(p: &Peer) -> Entry
    ensures { result ≡ entry_of p.now }
{
    Entry { mi: p.mi, mn: p.mn }
}

// A list with no entry yet.
fn blank_list() -> Entries
    ensures { result ≡ list_of [] }
{
    Entries::default()
}

fn list_of(t: &Table, live: bool) -> Entries
    ensures { result ≡ list_of (map entry_of (those (is_of live) (entries t.now))) }
{
    let mut out = blank_list();
    for p in t.held() {
        if is_of(p, live) {
            out.entries[out.count] = entry_of(p);
            out.count += 1;
        }
    }
    out
}

#[tactic(auto, unfolding(crate::specs::Counts::live_list))]
pub fn live_list(t: &Table) -> Entries
    ensures { result ≡ live_list t.now }
{
    list_of(t, true)
}

#[tactic(auto, unfolding(crate::specs::Counts::potential_list))]
pub fn potential_list(t: &Table) -> Entries
    ensures { result ≡ potential_list t.now }
{
    list_of(t, false)
}
