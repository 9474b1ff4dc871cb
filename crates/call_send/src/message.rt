// What the next frame says.
ghost use Rattle.std.specs.Prelude.{◌≡◌, ◌<◌, ◌&&◌, not};
ghost use Rattle.participant.specs.Keys.{of_member};
ghost use Rattle.call_send.specs.Message.{key_use_of, usage_said, sender_with, sak_of, said_if};

use frame_sets::kinds::{KeyUse, SakUse};
use frame_writer::{Sak, Sender};
use participant::{Participant, Slot, keys};

// What SAK Use says of a key, with the lowest PN lent by the host; zeros of an absent one.
#[tactic(auto, unfolding(crate::specs::Message::key_use_of))]
fn key_use(s: &Slot, pn: u32) -> KeyUse
    ensures { result ≡ key_use_of s.now pn }
{
    if !s.held {
        return KeyUse::default();
    }
    let k = s.key;
    KeyUse {
        an: k.an,
        transmit: k.transmit,
        receive: k.receive,
        mi: k.mi,
        kn: k.kn,
        pn,
    }
}

// `latest_pn` and `old_pn` are the lowest packet numbers that the host lends.
pub(crate) fn usage(p: &Participant, latest_pn: u32, old_pn: u32) -> Option<SakUse>
    ensures { result ≡ usage_said p.now latest_pn old_pn }
{
    p.latest.held.then(|| SakUse {
        latest: key_use(&p.latest, latest_pn),
        old: key_use(&p.old, old_pn),
    })
}

// `server` is the Key Server flag.
pub(crate) fn sender(p: &Participant, server: bool) -> Sender
    requires { p.now.mn < 4294967295 }
    ensures { result ≡ sender_with p.now server }
{
    Sender {
        priority: p.priority,
        server,
        desired: p.desired,
        capability: p.capability,
        sci: p.sci,
        mi: p.mi,
        mn: p.mn + 1,
        ckn: p.ckn,
        size: p.size,
    }
}

// The Distributed SAK, if the frame has one: `elected` says whether we are.
#[tactic(auto, unfolding(crate::specs::Message::sak_of))]
pub(crate) fn sak(p: &Participant, elected: bool) -> Option<Sak>
    ensures { result ≡ said_if (of_member p.now.latest p.now.mi && (elected && not p.now.mark)) (sak_of p.now) }
{
    let k = p.latest.key;
    (keys::of_member(&p.latest, p.mi) && elected && !p.mark).then_some(Sak {
        an: k.an,
        confidentiality: k.confidentiality,
        kn: k.kn,
        wrapped: p.wrapped,
    })
}
