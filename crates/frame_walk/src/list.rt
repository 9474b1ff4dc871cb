// The search of a peer list for a member identifier.
ghost use Rattle.std.specs.Prelude.{◌≡◌};
ghost use Rattle.frame_walk.specs.List.{found_in};

use base_mi::{Mi, entry};

// The entry's index in the list, and its message number.
#[derive(Clone, Copy)]
pub struct Found {
    pub index: usize,
    pub mn: u32,
}

// The first entry with this MI, from the one with index `from` on, in the list whose header stands at `place`.
#[tactic(auto, using(crate::proofs::Lists::seek_steps), unfolding(crate::specs::List::found_in, crate::specs::List::entries_in, crate::specs::List::list_at))]
pub fn find(frame: &[u8], place: usize, len: u16, from: usize, m: Mi) -> Option<Found>
    ensures { result ≡ found_in frame.now place len from m }
{
    if frame.len() < place || frame.len() - place < 4 + len as usize {
        return None;
    }
    for i in from..(len / 16) as usize {
        let e = entry::entry_at(frame, place + 4 + i * 16);
        if e.mi == m {
            return Some(Found { index: i, mn: e.mn });
        }
    }
    None
}
