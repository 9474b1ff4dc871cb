// One further parameter set of a frame, read at a place: good, with what it says, or bad by the rules that it breaks.
#![tactic(auto)]

ghost use Rattle.std.specs.Prelude.{◌≡◌, ◌<◌, ◌^◌};
ghost use Rattle.frame_sets.specs.Set.{len_at, head_of, set_of};

use crate::kinds::Kind;
use frame_places::Places;

pub mod kinds;

// `place` is its header's in the frame, `len` its body's length.
#[derive(Clone, Copy)]
pub struct Set {
    pub place: usize,
    pub len: u16,
    pub kind: Kind,
}

#[tactic(auto, unfolding(crate::specs::Set::len_at))]
fn set_len(frame: &[u8], at: usize) -> u16
    requires { at < 2 ^ 63 }
    ensures { result ≡ len_at frame.now at }
{
    (base_octets::octet(frame, at + 2) % 16) as u16 * 256 + base_octets::octet(frame, at + 3) as u16
}

// The set at `at` by all rules but that on the lists' lengths, which a scan of the list tells.
#[tactic(auto, using(crate::proofs::Laws::head_tight), unfolding(crate::specs::Set::head_of, crate::specs::Set::set_fields, crate::specs::Set::bad_head, frame_rules::specs::Rules::bad_shape))]
pub fn set_head(frame: &[u8], at: usize, stop: usize, seen: Places) -> Option<Set>
    ensures { result ≡ head_of frame.now at stop seen }
{
    if frame.len() < stop {
        return None;
    }
    let room = stop.saturating_sub(at);
    if room < 4 {
        return None;
    }
    let t = base_octets::octet(frame, at);
    let len = set_len(frame, at);
    let kn = base_octets::u32_at(frame, at + 4);
    let Some(()) = frame_rules::shape(t, len, room, kn, seen) else {
        return None;
    };
    Some(Set {
        place: at,
        len,
        kind: kinds::kind_at(frame, at, t, len),
    })
}

// The set at `at`, by all rules.
#[tactic(auto, using(crate::proofs::Laws::set_steps))]
pub fn set_at(frame: &[u8], at: usize, stop: usize, seen: Places) -> Option<Set>
    ensures { result ≡ set_of frame.now at stop seen }
{
    let set = set_head(frame, at, stop, seen)?;
    if frame_rules::list_len(kinds::type_of(set.kind), set.len) % 16 == 0 {
        Some(set)
    } else {
        None
    }
}
