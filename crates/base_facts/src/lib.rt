// What a call is refused for, a fact's answer, to be taken apart by `let .. else`, and a length's padding.
#![tactic(auto)]

ghost use Rattle.std.specs.Prelude.{◌≡◌};
ghost use Rattle.base_facts.specs.Facts.{check_of, padded_of};
ghost use Rattle.base_facts.specs.Refusal.{number_of};

// The algorithm agility, 00-80-C2-01.
pub const AGILITY: u32 = 0x0080_c201;

// The facts that a call is refused for, each with its number.
#[derive(Clone, Copy, PartialEq, Eq)]
pub enum Refusal {
    Early = 1,
    Cut = 2,
    Foreign = 3,
    Body = 4,
    Basic = 5,
    OtherCkn = 6,
    OtherAgility = 7,
    Unverified = 8,
    BadSet = 9,
    OwnMi = 10,
    Stale = 11,
    Full = 12,
    NoRoom = 13,
    Spent = 14,
    BadStart = 15,
    BadImage = 16,
    NotDue = 17,
    Misreported = 18,
    InUse = 19,
}

impl Refusal {
    pub fn number(self) -> u8
        ensures { result ≡ number_of self }
    {
        self as u8
    }
}

pub fn fail_if(fact: bool) -> Option<()>
    ensures { result ≡ check_of fact }
{
    if fact { None } else { Some(()) }
}

// A length with its padding to a multiple of 4.
pub fn padded(n: u16) -> usize
    ensures { result ≡ padded_of n }
{
    (n as usize).next_multiple_of(4)
}
