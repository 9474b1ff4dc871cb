// A whole frame, written from a value that says which sets it has.
#![tactic(auto)]

ghost use Rattle.std.specs.Prelude.{◌≡◌, cond, ◌++◌, ◌+◌, ◌*◌, ◌≤◌, min, length, replicate};
ghost use Rattle.std.proofs.lemmas.List.Edits.{sets};
ghost use Rattle.base_octets.specs.Run.{written};
ghost use Rattle.frame_writer.specs.Frame.{header_octets, basic_octets, set_header, use_part, sak_part, list_size, frame_size, frame_of, wrote_of};

use base_facts::Refusal;
use base_mi::Mi;
use base_mi::entry::Entries;
use frame_sets::kinds::SakUse;

mod basic;
mod keys;
mod lists;

// What the Basic set says of its sender; the CKN is the first `size` octets, at most 32. No slice: the array comes out of the participant's
// record, which has it so, and a frame's value is read back whole (law_round).
#[derive(Clone, Copy)]
pub struct Sender {
    pub priority: u8,
    pub server: bool,
    pub desired: bool,
    pub capability: u8,
    pub sci: u64,
    pub mi: Mi,
    pub mn: u32,
    pub ckn: [u8; 32],
    pub size: usize,
}

// A Distributed SAK in the body of 28.
#[derive(Clone, Copy)]
pub struct Sak {
    pub an: u8,
    pub confidentiality: u8,
    pub kn: u32,
    pub wrapped: [u8; 24],
}

// A list stands in the frame if it isn't empty.
#[derive(Clone, Copy)]
pub struct Mkpdu {
    pub sender: Sender,
    pub live: Entries,
    pub potential: Entries,
    pub usage: Option<SakUse>,
    pub sak: Option<Sak>,
}

// A list's header and entries; a count above 16 is taken as 16.
fn list_size(count: usize) -> usize
    ensures { (result ≡ list_size (min count 16)) × (result ≤ 260) }
{
    match count.min(16) {
        0 => 0,
        n => 4 + n * 16,
    }
}

// What a set of n octets adds, if the frame has it.
fn size_if(there: bool, n: usize) -> usize
    ensures { (result ≡ cond there n 0) × (result ≤ n) }
{
    if there { n } else { 0 }
}

// The octets of a frame, by its CKN's size, its lists' counts and the key sets that it has; of those it asks only whether they are there.
pub fn frame_size(
    size: usize,
    live: usize,
    potential: usize,
    used: bool,
    distributed: bool,
) -> usize
    ensures { result ≡ frame_size size live potential used distributed }
{
    let basic = 36 + size.min(32).next_multiple_of(4);
    let lists = list_size(live) + list_size(potential);
    let keys = size_if(used, 44) + size_if(distributed, 32);
    basic + lists + keys + 16
}

// The EAPOL header, for a body of `body` octets, and the Basic set; the place after it.
pub fn put_start(out: &mut [u8], body: u16, x: &Sender) -> usize
    ensures { (result ≡ 4 + length (basic_octets x.now)) × (out.new ≡ sets out.old 0 (header_octets body ++ basic_octets x.now)) }
{
    basic::put_header(out, body);
    basic::put_basic(out, x)
}

// The header of a list of n entries. A place is a u16 here and below, so that a sum with it never wraps.
pub fn put_list_head(out: &mut [u8], at: u16, t: u8, n: u8)
    ensures { out.new ≡ sets out.old at (set_header t 0 (n * 16)) }
{
    lists::put_set_header(out, at as usize, t, 0, n as u16 * 16);
}

// The key sets that the frame has, and zeros for the ICV.
pub fn put_end(out: &mut [u8], at: u16, usage: Option<SakUse>, sak: Option<Sak>)
    ensures { out.new ≡ sets out.old at (use_part usage ++ (sak_part sak ++ replicate 16 0)) }
{
    let d = keys::put_use(out, at as usize, usage);
    let e = keys::put_sak(out, d, sak);
    base_runs::put_zeros(out, e, 16);
}

pub fn write(out: &mut [u8], m: Mkpdu) -> Result<usize, Refusal>
    ensures { (result ≡ wrote_of (length (frame_of m)) (length out.old)) × (out.new ≡ written out.old (frame_of m)) }
{
    let total = frame_size(
        m.sender.size,
        m.live.count,
        m.potential.count,
        m.usage.is_some(),
        m.sak.is_some(),
    );
    let Some(()) = base_facts::fail_if(out.len() < total) else {
        return Err(Refusal::NoRoom);
    };
    let a = put_start(out, (total - 4) as u16, &m.sender);
    let b = lists::put_list(out, a, 1, &m.live);
    let c = lists::put_list(out, b, 2, &m.potential);
    put_end(out, c as u16, m.usage, m.sak);
    Ok(total)
}
