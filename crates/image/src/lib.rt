// The saved port image of a participant, written.
#![tactic(auto)]

ghost use Rattle.std.specs.Prelude.{◌≡◌, ◌*◌, ◌≤◌, length};
ghost use Rattle.std.proofs.lemmas.List.Edits.{sets};
ghost use Rattle.base_packed.specs.Bit.{bit};
ghost use Rattle.base_octets.specs.Run.{written};
ghost use Rattle.frame_writer.specs.Frame.{wrote_of};
ghost use Rattle.image.specs.Image.{contents_for, image_of};

use base_facts::Refusal;
use participant::{Participant, Slot};

// The contents table for n peers and k keys.
fn put_contents(out: &mut [u8], n: u16, k: u8)
    ensures { out.new ≡ sets out.old 0 (contents_for n k) }
{
    image_layout::put_head(out, 3);
    image_layout::put_entry(out, 0, 1, 28);
    image_layout::put_entry(out, 1, n, 144);
    image_layout::put_entry(out, 2, k as u16, 144 + n as u32 * 44);
}

// 28 for a key that is held.
fn key_size(s: &Slot) -> u32
    ensures { (result ≡ bit s.now.held * 28) × (result ≤ 28) }
{
    if s.held { 28 } else { 0 }
}

pub fn write(out: &mut [u8], p: Participant) -> Result<usize, Refusal>
    ensures { (result ≡ wrote_of (length (image_of p)) (length out.old)) × (out.new ≡ written out.old (image_of p)) }
{
    let n = p.table.held().len() as u16;
    let keys = 144 + n as u32 * 44;
    let next = keys + key_size(&p.latest);
    let total = (next + key_size(&p.old)) as usize;
    let Some(()) = base_facts::fail_if(out.len() < total) else {
        return Err(Refusal::NoRoom);
    };
    put_contents(out, n, p.latest.held as u8 + p.old.held as u8);
    image_own::put_own(out, 28, &p);
    image_peer::put_peers(out, 144, &p.table);
    image_key::put_slot(out, keys, &p.latest);
    image_key::put_slot(out, next, &p.old);
    Ok(total)
}
