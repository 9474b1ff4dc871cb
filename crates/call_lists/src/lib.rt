// A peer list of a frame, written straight from the table.
#![tactic(auto)]

ghost use Rattle.std.specs.Prelude.{◌≡◌, ◌+◌, length};
ghost use Rattle.std.proofs.lemmas.List.Edits.{sets};
ghost use Rattle.call_lists.specs.Lists.{list_type, peer_list};

use base_mi::entry;
use table::Table;

fn kind(live: bool) -> u8
    ensures { result ≡ list_type live }
{
    if live { 1 } else { 2 }
}

// The place after the list, which is not written if it is empty. Its entries first: then their number is known.
pub fn put_list(out: &mut [u8], at: u16, t: &Table, live: bool) -> usize
    ensures { (result ≡ at + length (peer_list live t.now)) × (out.new ≡ sets out.old at (peer_list live t.now)) }
{
    let from = at as usize;
    let mut k = 0;
    for p in t.held() {
        if table_counts::is_of(p, live) {
            entry::put_entry(out, from + 4 + k * 16, table_counts::entry_of(p));
            k += 1;
        }
    }
    if k == 0 {
        return from;
    }
    frame_writer::put_list_head(out, at, kind(live), k as u8);
    from + 4 + k * 16
}
