// A set's header, and the peer lists.
ghost use Rattle.std.specs.Prelude.{◌≡◌, ◌+◌, ◌<◌, ◌≤◌, ◌^◌, length};
ghost use Rattle.std.proofs.lemmas.List.Edits.{sets};
ghost use Rattle.base_mi.specs.Entry.{entries_of};
ghost use Rattle.frame_writer.specs.Frame.{set_header, list_octets, list_set};

use base_mi::entry;
use base_mi::entry::{Entries, Entry};

// A type is its octet, as the frame has it. No type for the bound on a place: it would be made at each call.
pub(crate) fn put_set_header(out: &mut [u8], at: usize, t: u8, own: u8, len: u16)
    requires { at < 2 ^ 63 }
    ensures { out.new ≡ sets out.old at (set_header t own len) }
{
    base_octets::put_octet(out, at, t);
    base_octets::put_octet(out, at + 1, own);
    base_octets::put_u16(out, at + 2, len);
}

fn put_entries(out: &mut [u8], at: usize, entries: &[Entry])
    requires { (at < 2 ^ 62) × (length entries.now ≤ 16) }
    ensures { out.new ≡ sets out.old at (list_octets entries.now) }
{
    for (i, e) in entries.iter().enumerate() {
        entry::put_entry(out, at + i * 16, *e);
    }
}

// The place after the list, which is not written if it is empty.
pub(crate) fn put_list(out: &mut [u8], at: usize, t: u8, l: &Entries) -> usize
    requires { at < 2 ^ 61 }
    ensures { (result ≡ at + length (list_set t (entries_of l.now))) × (out.new ≡ sets out.old at (list_set t (entries_of l.now))) }
{
    let entries = &l.entries[..l.count.min(16)];
    let n = entries.len();
    if n == 0 {
        return at;
    }
    put_set_header(out, at, t, 0, (n * 16) as u16);
    put_entries(out, at + 4, entries);
    at + 4 + n * 16
}
