// One participant by value: its record, plain numbers, flags, arrays and structs. Beside it its keys, and what a call answers.
#![tactic(auto)]

use base_mi::Mi;
use table::Table;

pub mod call;
pub mod keys;

// A key on record; `receive` and `transmit` are what the host reported of it.
#[repr(C)]
#[derive(Clone, Copy, PartialEq, Eq, Default)]
pub struct Key {
    pub mi: Mi,
    pub kn: u32,
    pub suite: u64,
    pub an: u8,
    pub confidentiality: u8,
    pub receive: bool,
    pub transmit: bool,
}

// A place for a key, all zeros where it holds none.
// `held` and no `Option<Key>`: the C interface takes no struct with an enum in it (error[exported-enum]).
#[repr(C)]
#[derive(Clone, Copy, PartialEq, Eq, Default)]
pub struct Slot {
    pub held: bool,
    pub key: Key,
}

// `sent` and `distributed` are the times of the last send and the last distribution; the CKN is the first `size` octets.
// `size` beside `ckn` and no slice: the record is a plain value of the C interface, with no reference in it.
#[repr(C)]
#[derive(Clone, Copy, Default)]
pub struct Participant {
    pub table: Table,
    pub clock: u64,
    pub mi: Mi,
    pub mn: u32,
    pub mark: bool,
    pub size: usize,
    pub ckn: [u8; 32],
    pub priority: u8,
    pub capability: u8,
    pub desired: bool,
    pub sci: u64,
    pub sent: u64,
    pub kn: u32,
    pub distributed: u64,
    pub wrapped: [u8; 24],
    pub latest: Slot,
    pub old: Slot,
}
