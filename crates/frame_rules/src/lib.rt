// The rules of the table of sets, on a set's numbers: its type, its body's length, the room that there is, its key number.
// The type is no enum: all 256 occur, and document 01's table goes by number, so one would only be taken apart again.
#![tactic(auto)]

ghost use Rattle.std.specs.Prelude.{◌≡◌};
ghost use Rattle.base_facts.specs.Facts.{check_of};
ghost use Rattle.frame_rules.specs.Rules.{list_len, bad_body, bad_shape, extent_of};

use frame_places::Places;

#[tactic(auto, unfolding(crate::specs::Rules::bad_body))]
fn bad_body(t: u8, len: u16, kn: u32) -> bool
    ensures { result ≡ bad_body t len kn }
{
    match (t, len) {
        (3, 0 | 40) | (4, 0) => false,
        (4, 28 | 36 | 52) => kn == 0,
        (3 | 4, _) => true,
        _ => false,
    }
}

// `room` is what there is from the set's header to the ICV.
#[tactic(auto, using(crate::proofs::Laws::shape_icv, crate::proofs::Laws::shape_other))]
pub fn shape(t: u8, len: u16, room: usize, kn: u32, seen: Places) -> Option<()>
    ensures { result ≡ check_of (bad_shape t len room kn seen) }
{
    if t == 255 {
        return base_facts::fail_if(room != 4 || len != 16);
    }
    base_facts::fail_if(
        room < 4 + base_facts::padded(len) || bad_body(t, len, kn) || frame_places::has(seen, t),
    )
}

// The octets of entries in a body: all of it in a list, none in any other set.
#[tactic(auto, unfolding(crate::specs::Rules::list_len))]
pub fn list_len(t: u8, len: u16) -> u16
    ensures { result ≡ list_len t len }
{
    if t == 1 || t == 2 { len } else { 0 }
}

// The octets that a set takes, its header and padding with it; of type 255 the header only.
#[tactic(auto, unfolding(crate::specs::Rules::extent_of))]
pub fn extent(t: u8, len: u16) -> usize
    ensures { result ≡ extent_of t len }
{
    match t {
        255 => 4,
        _ => 4 + base_facts::padded(len),
    }
}
