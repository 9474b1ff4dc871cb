// A Distributed SAK, used only if its sender is elected after the frame's update.
ghost use Rattle.std.specs.Prelude.{◌≡◌};
ghost use Rattle.call_hearing.specs.Keys.{is_peer, known_by, key_from, none_taken, taken_of, keyed_of};

use base_mi::Mi;
use frame_places::Spot;
use frame_sets::kinds;
use frame_sets::kinds::SakHeader;
use participant::{Key, Participant, Slot, keys};
use table_election::Server;

// The wrapped key's place and length in the frame. No `Option`: document 01's answer is 0 and 0 if no key was entered.
#[derive(Clone, Copy, PartialEq, Eq, Default)]
pub struct Wrapped {
    pub place: usize,
    pub len: usize,
}

// What the two keys on record become, and the wrapped key.
#[derive(Clone, Copy)]
pub struct Taken {
    pub latest: Slot,
    pub old: Slot,
    pub wrapped: Wrapped,
}

// Whether the peer `m` is elected.
fn is_elected(server: Server, m: Mi) -> bool
    ensures { result ≡ is_peer server m }
{
    server == Server::Elected(m)
}

// Whether (m, kn) is that of either key, or m is the latest's and kn is lower.
fn is_known(latest: &Slot, old: &Slot, m: Mi, kn: u32) -> bool
    ensures { result ≡ known_by latest.now old.now m kn }
{
    keys::is_key(latest, m, kn)
        || keys::is_key(old, m, kn)
        || keys::of_member(latest, m) && kn < latest.key.kn
}

#[tactic(auto, unfolding(crate::specs::Keys::key_from))]
fn key_from(m: Mi, h: SakHeader) -> Key
    ensures { result ≡ key_from m h }
{
    Key {
        mi: m,
        kn: h.kn,
        suite: h.suite,
        an: h.an,
        confidentiality: h.confidentiality,
        receive: false,
        transmit: false,
    }
}

fn none_taken(latest: Slot, old: Slot) -> Taken
    ensures { result ≡ none_taken latest old }
{
    Taken {
        latest,
        old,
        wrapped: Wrapped::default(),
    }
}

// `server` is who is elected, `m` the sender, `sak` where its Distributed SAK stands, if it has one.
#[tactic(auto, unfolding(crate::specs::Keys::taken_of))]
pub fn take_sak(
    server: Server,
    latest: Slot,
    old: Slot,
    frame: &[u8],
    m: Mi,
    sak: Option<Spot>,
) -> Taken
    ensures { result ≡ taken_of server latest old frame.now m sak }
{
    let Some(sak) = sak else {
        return none_taken(latest, old);
    };
    if !is_elected(server, m) {
        return none_taken(latest, old);
    }
    if sak.len == 0 {
        return none_taken(keys::empty(), keys::empty());
    }
    let h = kinds::sak_at(frame, sak.place, sak.len);
    if is_known(&latest, &old, m, h.kn) {
        return none_taken(latest, old);
    }
    Taken {
        latest: Slot {
            held: true,
            key: key_from(m, h),
        },
        old: latest,
        wrapped: Wrapped {
            place: h.place,
            len: h.len,
        },
    }
}

// The same on the participant that the frame has updated. Who is elected is asked only where there is a Distributed SAK.
#[tactic(auto, unfolding(crate::specs::Keys::keyed_of))]
pub fn take_sak_into(p: &mut Participant, frame: &[u8], m: Mi, sak: Option<Spot>) -> Wrapped
    ensures { (result ≡ (keyed_of p.entry.now frame.now m sak).wrapped) × (p.exit.now ≡ (keyed_of p.entry.now frame.now m sak).participant) }
{
    let Some(_) = sak else {
        return Wrapped::default();
    };
    let taken = take_sak(call_standing::server(p), p.latest, p.old, frame, m, sak);
    p.latest = taken.latest;
    p.old = taken.old;
    taken.wrapped
}
