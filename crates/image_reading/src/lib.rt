// A port image read back: refusal 16.
#![tactic(auto)]

ghost use Rattle.std.specs.Prelude.{◌≡◌, ◌&&◌};
ghost use Rattle.image_layout.specs.Layout.{laid_out};
ghost use Rattle.image_rules.specs.Rules.{rules};
ghost use Rattle.image_reading.specs.Read.{sizes, numbers_good, clean, read_of};

use base_facts::Refusal;
use image_layout::{offset_at, records_at};
use participant::call::Called;
use participant::{Participant, call};

#[tactic(auto, unfolding(crate::specs::Read::numbers_good))]
fn numbers_good(s: &[u8]) -> bool
    ensures { result ≡ numbers_good s.now }
{
    records_at(s, 0) == 1 && records_at(s, 1) <= 16 && records_at(s, 2) <= 2
}

#[tactic(auto, unfolding(crate::specs::Read::clean))]
fn clean_records(s: &[u8]) -> bool
    ensures { result ≡ clean s.now }
{
    let n = records_at(s, 2);
    let at = offset_at(s, 2);
    image_own::own_clean(s, offset_at(s, 0))
        && image_peer::peers_clean(s, offset_at(s, 1), records_at(s, 1))
        && image_key::slot_clean(s, at, 0, 0 < n)
        && image_key::slot_clean(s, at, 1, 1 < n)
}

// Whether its kinds, their numbers and the octets that are left over are those of an image. An own, a peer's and a key's record
// have these sizes. Never inline: what the compiler learns of the octets here makes reading the peers dearer (docs/COST.md).
#[inline(never)]
fn formed(s: &[u8]) -> bool
    ensures { result ≡ laid_out s.now sizes && (numbers_good s.now && clean s.now) }
{
    image_layout::laid_out(s, &[116, 44, 28]) && numbers_good(s) && clean_records(s)
}

// All rules of a well-formed image that its participant shows.
#[tactic(auto, using(image_rules::specs::ByRecord::by_record))]
fn hold(p: &Participant) -> bool
    ensures { result ≡ rules p.now }
{
    image_rules_own::own_good(p)
        && image_rules_peers::peers_good(p.mi, p.clock, &p.table)
        && image_rules_keys::keys_good(p)
}

// What an image of good form tells is made in place, and judged there (docs/COST.md).
#[tactic(auto, unfolding(crate::specs::Read::told_by, crate::specs::Read::well_formed, crate::specs::Read::read_of))]
pub fn read(s: &[u8]) -> Called<()>
    ensures { result ≡ read_of s.now }
{
    let Some(()) = base_facts::fail_if(!formed(s)) else {
        return call::refused(call_creation::blank(), Refusal::BadImage);
    };
    let n = records_at(s, 2);
    let at = offset_at(s, 2);
    let mut p = image_own::own_at(s, offset_at(s, 0));
    image_peer::peers_at(&mut p.table, s, offset_at(s, 1), records_at(s, 1) as usize);
    p.latest = image_key::slot_at(s, at, 0, 0 < n);
    p.old = image_key::slot_at(s, at, 1, 1 < n);
    let Some(()) = base_facts::fail_if(!hold(&p)) else {
        return call::refused(call_creation::blank(), Refusal::BadImage);
    };
    call::accepted(p, ())
}
