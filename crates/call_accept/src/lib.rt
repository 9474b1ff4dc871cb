// What a frame says of its sender. The definitions say what a good frame makes of the participant, and facts 11 and 12.
#![tactic(auto)]

ghost use Rattle.std.specs.Prelude.{◌≡◌};
ghost use Rattle.call_accept.specs.Accept.{heard_of};

use frame::Basic;
use table_enter::Heard;

// No `From`: both types are other crates'.
#[tactic(auto, unfolding(crate::specs::Accept::heard_of))]
pub fn heard_of(b: &Basic) -> Heard
    ensures { result ≡ heard_of b.now }
{
    Heard {
        mi: b.mi,
        mn: b.mn,
        sci: b.sci,
        priority: b.priority,
        capability: b.capability,
        server: b.server,
        desired: b.desired,
    }
}
