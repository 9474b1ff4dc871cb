// A reader over one frame, which remembers its position and hands out the further sets one by one, as the walk goes over them.
#![tactic(auto)]

ghost use Rattle.std.specs.Prelude.{◌≡◌};
ghost use Rattle.frame_reader.specs.Reader.{next_of, reader_over, moved, first_next};

use crate::step::{Next, Position};

pub mod step;

// No methods: thin functions over this struct and the by-value step are the form that document 01 asks for.
#[derive(Clone, Copy)]
pub struct Reader<'a> {
    pub frame: &'a [u8],
    pub position: Position,
}

// The reader before the first further set. Where facts 2 to 5 hold, it hands out none.
pub fn over<'a>(frame: &'a [u8]) -> Reader<'a>
    ensures { result ≡ reader_over frame.entry }
{
    Reader {
        frame,
        position: step::start(frame),
    }
}

// The next set, or why there is none.
pub fn next<'s, 'a>(r: &'s mut Reader<'a>) -> Next
    ensures { (result ≡ next_of r.old) × (r.new ≡ moved r.old) }
{
    let read = step::step(r.frame, r.position);
    r.position = read.after;
    read.next
}

// The first further set of a frame, with no reader in sight.
pub fn first(frame: &[u8]) -> Next
    ensures { result ≡ first_next frame.now }
{
    let mut r = over(frame);
    next(&mut r)
}
