// One step over the sets of a frame, by value: what is read at a position, and the position after it.
ghost use Rattle.std.specs.Prelude.{◌≡◌};
ghost use Rattle.frame_reader.specs.Reader.{start_of, step_of};

use base_facts::Refusal;
use frame_places::Places;
use frame_sets::{Set, kinds};

// `refused` is the fact of 2 to 5 that holds, if one does. `at` is the next set's place, `stop` the ICV's,
// and `seen` tells which sets of types 1 to 4 have stood.
#[derive(Clone, Copy)]
pub struct Position {
    pub refused: Option<Refusal>,
    pub at: usize,
    pub stop: usize,
    pub seen: Places,
}

// A set, or none: at the end, at the place of the bad set, or by the fact of 2 to 5 that holds. No `Result`: why there is none would still be
// an enum, and every call answers again.
#[derive(Clone, Copy)]
pub enum Next {
    Set(Set),
    End,
    Bad(usize),
    Refused(Refusal),
}

#[derive(Clone, Copy)]
pub struct Stepped {
    pub next: Next,
    pub after: Position,
}

// Where the further sets of a frame begin.
#[tactic(auto, unfolding(crate::specs::Reader::start_of))]
pub fn start(frame: &[u8]) -> Position
    ensures { result ≡ start_of frame.now }
{
    match frame::read_basic(frame) {
        Ok(b) => Position {
            refused: None,
            at: b.next,
            stop: b.stop,
            seen: frame_places::none(),
        },
        Err(why) => Position {
            refused: Some(why),
            at: 0,
            stop: 0,
            seen: frame_places::none(),
        },
    }
}

// What stands at the position; only a set is passed.
#[tactic(auto, using(crate::proofs::Laws::read_steps), unfolding(crate::specs::Reader::step_of))]
pub fn step(frame: &[u8], p: Position) -> Stepped
    ensures { result ≡ step_of frame.now p }
{
    if let Some(why) = p.refused {
        return Stepped {
            next: Next::Refused(why),
            after: p,
        };
    }
    if p.stop <= p.at {
        return Stepped {
            next: Next::End,
            after: p,
        };
    }
    let Some(set) = frame_sets::set_at(frame, p.at, p.stop, p.seen) else {
        return Stepped {
            next: Next::Bad(p.at),
            after: p,
        };
    };
    let t = kinds::type_of(set.kind);
    Stepped {
        next: Next::Set(set),
        after: Position {
            at: p.at + frame_rules::extent(t, set.len),
            seen: frame_places::with(p.seen, t, p.at, set.len),
            ..p
        },
    }
}
