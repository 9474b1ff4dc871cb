// The walk over the further sets of a frame, and the search of a peer list.
#![tactic(auto)]

ghost use Rattle.std.specs.Prelude.{◌≡◌};
ghost use Rattle.frame_walk.specs.Walk.{walk_of};

use frame_places::Places;
use frame_sets::kinds;

pub mod list;

// The sets from `from` on; `stop` is the ICV's place. The answer is where each set of types 1 to 4 stands, or the place of the first set that is wrong.
// No iterator chain: the labelled loop over sets, left from the inner list scan, is the form that document 01 asks for.
#[tactic(auto, using(crate::proofs::Laws::walk_steps), unfolding(crate::specs::Walk::walk_of))]
pub fn walk(frame: &[u8], from: usize, stop: usize) -> Result<Places, usize>
    ensures { result ≡ walk_of frame.now from stop }
{
    let mut at = from;
    let mut places = frame_places::none();
    'sets: loop {
        if stop <= at {
            break 'sets Ok(places);
        }
        let Some(set) = frame_sets::set_head(frame, at, stop, places) else {
            break 'sets Err(at);
        };
        let t = kinds::type_of(set.kind);
        let mut left = frame_rules::list_len(t, set.len);
        while 0 < left {
            if left < 16 {
                break 'sets Err(at);
            }
            left -= 16;
        }
        places = frame_places::with(places, t, at, set.len);
        at += frame_rules::extent(t, set.len);
    }
}
