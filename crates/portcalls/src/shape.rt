// The ops of a script, whether a record has its op's shape, and what is wrong with one that hasn't.
use crate::input::Fault;
use std::fmt::Write;
use std::{fmt, io};

#[derive(Clone, Copy, PartialEq, Eq)]
pub(crate) enum Op {
    Create = 1,
    Receive,
    Send,
    Distribute,
    Tick,
    Renew,
    Report,
    Ask,
    Save,
    Show,
    List,
}

impl TryFrom<u8> for Op {
    type Error = Wrong;

    fn try_from(number: u8) -> Result<Op, Wrong> {
        match number {
            1 => Ok(Op::Create),
            2 => Ok(Op::Receive),
            3 => Ok(Op::Send),
            4 => Ok(Op::Distribute),
            5 => Ok(Op::Tick),
            6 => Ok(Op::Renew),
            7 => Ok(Op::Report),
            8 => Ok(Op::Ask),
            9 => Ok(Op::Save),
            10 => Ok(Op::Show),
            11 => Ok(Op::List),
            _ => Err(Wrong::Op(number)),
        }
    }
}

impl Op {
    // How many octets its fixed fields have.
    fn fixed(self) -> usize {
        match self {
            Op::Create => 31,
            Op::Receive => 9,
            Op::Send => 18,
            Op::Distribute | Op::Tick => 8,
            Op::Renew => 20,
            Op::Report => 17,
            Op::Save => 2,
            Op::Ask | Op::Show | Op::List => 0,
        }
    }

    // Whether the rest may be of any length.
    fn is_open_ended(self) -> bool {
        matches!(
            self,
            Op::Create | Op::Receive | Op::Distribute | Op::Show | Op::List
        )
    }

    // Whether a payload has its shape.
    pub(crate) fn check(self, d: &[u8]) -> Result<(), Wrong> {
        if d.len() < self.fixed() {
            return Err(Wrong::Short(d.len(), self));
        }
        if self.fixed() < d.len() && !self.is_open_ended() {
            return Err(Wrong::Long(d.len(), self));
        }
        match (self, d) {
            (Op::Report, [1 | 2, ..]) => Ok(()),
            (Op::Report, [what, ..]) => Err(Wrong::Report(*what)),
            _ => Ok(()),
        }
    }
}

// Which record of the script it is, from 1 on, and the octet at which it begins.
#[derive(Clone, Copy)]
pub(crate) struct Place {
    pub(crate) record: u64,
    pub(crate) octet: u64,
}

// What is wrong with a record: a read fails within it, its input ends within it, its op isn't in the table, its payload of so many
// octets is too short or too long for its op, or its report is none.
#[derive(Clone, Copy)]
pub(crate) enum Wrong {
    Unread(io::Error),
    Cut,
    Op(u8),
    Short(usize, Op),
    Long(usize, Op),
    Report(u8),
}

// A malformed record: where it is, and what is wrong with it.
#[derive(Clone, Copy)]
pub(crate) struct Malformed {
    pub(crate) at: Place,
    pub(crate) wrong: Wrong,
}

impl fmt::Display for Malformed {
    fn fmt<W: fmt::Write>(&self, f: &mut fmt::Formatter<W>) -> fmt::Result {
        let Place { record, octet } = self.at;
        if let Wrong::Unread(e) = self.wrong {
            return Fault::Unread(e).fmt(f);
        }
        write!(f, "record {record} at octet {octet}: ")?;
        match self.wrong {
            Wrong::Unread(_) => Ok(()),
            Wrong::Cut => f.write_str("the input ends within it"),
            Wrong::Op(op) => write!(f, "op {op} is not in the table"),
            Wrong::Short(len, op) => {
                write!(f, "payload length {len} is too short for op {}", op as u8)
            }
            Wrong::Long(len, op) => {
                write!(f, "payload length {len} is too long for op {}", op as u8)
            }
            Wrong::Report(what) => write!(f, "report {what} is neither 1 nor 2"),
        }
    }
}
