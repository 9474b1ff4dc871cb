// The peer table: at most 16 entries by value, in order of entry.
#![tactic(auto)]

ghost use Rattle.std.specs.Prelude.{◌≡◌};
ghost use Rattle.table.specs.Table.{blank_peer, empty_table, entries};

use base_mi::Mi;

pub const ROOM: usize = 16;

// `proof` is the time of the last proof, 0 where the entry is not proven. No `Option`: the C interface takes no struct with an enum in it.
#[repr(C)]
#[derive(Clone, Copy, PartialEq, Eq, Default)]
pub struct Peer {
    pub mi: Mi,
    pub mn: u32,
    pub sci: u64,
    pub accepted: u64,
    pub proof: u64,
    pub priority: u8,
    pub capability: u8,
    pub server: bool,
    pub desired: bool,
    pub proven: bool,
}

// The first `count` peers; a count above 16 is taken as 16. No `Vec`: the record is a plain value of the C interface, with no heap.
#[repr(C)]
#[derive(Clone, Copy, PartialEq, Eq, Default)]
pub struct Table {
    pub peers: [Peer; ROOM],
    pub count: usize,
}

// What stands in a slot past the count.
pub fn blank() -> Peer
    ensures { result ≡ blank_peer }
{
    Peer::default()
}

#[tactic(auto, unfolding(crate::specs::Table::empty_table))]
pub fn empty() -> Table
    ensures { result ≡ empty_table }
{
    Table::default()
}

impl Table {
    // The entries that the table holds.
    pub fn held(&self) -> &[Peer]
        ensures { result.now ≡ entries self.now }
    {
        &self.peers[..self.count.min(ROOM)]
    }
}
