// Where the kinds of a port image stand, whatever their number: the contents table, written an entry at a time, and judged with
// the bodies that it tells of.
#![tactic(auto)]

ghost use Rattle.std.specs.Prelude.{◌≡◌, ◌+◌, ◌*◌};
ghost use Rattle.std.proofs.lemmas.List.Edits.{sets};
ghost use Rattle.image_layout.specs.Layout.{place, contents_head, contents_entry, records_at, offset_at, laid_out};

pub fn put_head(out: &mut [u8], kinds: u16)
    ensures { out.new ≡ sets out.old 0 (contents_head kinds) }
{
    base_octets::put_u16(out, 0, kinds);
    base_octets::put_u16(out, 2, 0);
}

// The entry of a kind, which stands by its number. No enum: the layout holds of any number of kinds.
pub fn put_entry(out: &mut [u8], kind: u8, records: u16, offset: u32)
    ensures { out.new ≡ sets out.old (place kind) (contents_entry (kind + 1) records offset) }
{
    let at = 4 + kind as usize * 8;
    base_octets::put_u16(out, at, kind as u16 + 1);
    base_octets::put_u16(out, at + 2, records);
    base_octets::put_u32(out, at + 4, offset);
}

#[tactic(auto, unfolding(crate::specs::Layout::records_at))]
pub fn records_at(s: &[u8], i: u8) -> u16
    ensures { result ≡ records_at s.now i }
{
    base_octets::u16_at(s, 4 + i as usize * 8 + 2)
}

#[tactic(auto, unfolding(crate::specs::Layout::offset_at))]
pub fn offset_at(s: &[u8], i: u8) -> u32
    ensures { result ≡ offset_at s.now i }
{
    base_octets::u32_at(s, 4 + i as usize * 8 + 4)
}

// Whether the image is laid out as kinds 1, 2, .. whose records have these sizes.
#[tactic(auto, using(crate::proofs::Laws::laid_next, crate::proofs::Laws::laid_end), unfolding(crate::specs::Layout::laid_out))]
pub fn laid_out(s: &[u8], sizes: &[u16]) -> bool
    ensures { result ≡ laid_out s.now sizes.now }
{
    if base_octets::u16_at(s, 0) as usize != sizes.len() || base_octets::u16_at(s, 2) != 0 {
        return false;
    }
    let mut at = 4 + sizes.len() * 8;
    for (i, size) in sizes.iter().enumerate() {
        let entry = 4 + i * 8;
        if base_octets::u16_at(s, entry) as usize != i + 1
            || base_octets::u32_at(s, entry + 4) as usize != at
        {
            return false;
        }
        at += base_octets::u16_at(s, entry + 2) as usize * *size as usize;
    }
    at == s.len()
}
