// What a received frame is refused for before the table is asked, facts 1 to 9: the time, the frame and its verdict.
#![tactic(auto)]

ghost use Rattle.std.specs.Prelude.{◌≡◌};
ghost use Rattle.base_facts.specs.Facts.{first_of};
ghost use Rattle.base_facts.specs.Refusal.{told};
ghost use Rattle.call_judge.specs.Judge.{foreign_facts, judged_of};

use base_facts::Refusal;
use frame::{Basic, ours};
use frame_places::Places;
use participant::Participant;

// A good frame's Basic set, and where its further sets stand.
#[derive(Clone, Copy)]
pub struct Judged {
    pub basic: Basic,
    pub places: Places,
}

// Facts 6 to 8.
fn foreign(frame: &[u8], b: &Basic, ckn: &[u8], verdict: bool) -> Result<(), Refusal>
    ensures { result ≡ told (first_of (foreign_facts frame.now b.now ckn.now verdict)) tt }
{
    let Some(()) = ours::name_ours(frame, b, ckn) else {
        return Err(Refusal::OtherCkn);
    };
    let Some(()) = ours::agility_ours(b) else {
        return Err(Refusal::OtherAgility);
    };
    let Some(()) = base_facts::fail_if(!verdict) else {
        return Err(Refusal::Unverified);
    };
    Ok(())
}

#[tactic(auto, unfolding(crate::specs::Judge::judged_of, crate::specs::Judge::frame_facts))]
pub fn judge(p: &Participant, time: u64, verdict: bool, frame: &[u8]) -> Result<Judged, Refusal>
    ensures { result ≡ judged_of p.now time verdict frame.now }
{
    let Some(()) = base_facts::fail_if(time < p.clock) else {
        return Err(Refusal::Early);
    };
    let basic = frame::read_basic(frame)?;
    foreign(frame, &basic, &p.ckn[..p.size.min(32)], verdict)?;
    let Ok(places) = frame_walk::walk(frame, basic.next, basic.stop) else {
        return Err(Refusal::BadSet);
    };
    Ok(Judged { basic, places })
}
