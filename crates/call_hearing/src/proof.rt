// Whether a frame proves that its sender hears us.
ghost use Rattle.std.specs.Prelude.{◌≡◌};
ghost use Rattle.call_hearing.specs.Proof.{is_recent, named_in, proves_in};

use base_mi::Mi;
use frame_places::{Places, Spot};
use frame_walk::list;

// How many of the last numbers sent are recent.
const LAST: u32 = 4;

// `last` is the last number sent.
#[tactic(auto, unfolding(crate::specs::Proof::is_recent))]
pub fn recent(mn: u32, last: u32) -> bool
    ensures { result ≡ is_recent mn last }
{
    mn != 0 && mn <= last && last - mn < LAST
}

// Whether the list at a place has an entry with our identifier and a recent number.
fn named(frame: &[u8], list: Spot, own: Mi, last: u32) -> bool
    ensures { result ≡ named_in frame.now (Some list) own last }
{
    let mut from = 0;
    while let Some(found) = list::find(frame, list.place, list.len, from, own) {
        if recent(found.mn, last) {
            return true;
        }
        from = found.index + 1;
    }
    false
}

#[tactic(auto, unfolding(crate::specs::Proof::proves_in, crate::specs::Proof::named_in))]
pub fn proves(frame: &[u8], w: &Places, own: Mi, last: u32) -> bool
    ensures { result ≡ proves_in frame.now w.now own last }
{
    w.live.is_some_and(|list| named(frame, list, own, last))
        || w.potential
            .is_some_and(|list| named(frame, list, own, last))
}
