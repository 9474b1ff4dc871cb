// The frame written, its lists straight from the table.
ghost use Rattle.std.specs.Prelude.{◌≡◌, length};
ghost use Rattle.base_octets.specs.Run.{written};
ghost use Rattle.frame_writer.specs.Frame.{frame_of, wrote_of};
ghost use Rattle.table_counts.specs.Counts.{live_count};
ghost use Rattle.call_send.specs.Message.{saying};

use base_facts::Refusal;
use frame_sets::kinds::SakUse;
use frame_writer::{Sak, Sender};
use table::Table;

// `live` of the table's peers are Live.
pub(crate) fn put_frame(
    out: &mut [u8],
    x: &Sender,
    t: &Table,
    live: usize,
    usage: Option<SakUse>,
    sak: Option<Sak>,
) -> Result<usize, Refusal>
    requires { live ≡ live_count t.now }
    ensures { (result ≡ wrote_of (length (frame_of (saying x.now t.now usage sak))) (length out.old)) × (out.new ≡ written out.old (frame_of (saying x.now t.now usage sak))) }
{
    let potential = t.held().len().saturating_sub(live);
    let total = frame_writer::frame_size(x.size, live, potential, usage.is_some(), sak.is_some());
    let Some(()) = base_facts::fail_if(out.len() < total) else {
        return Err(Refusal::NoRoom);
    };
    let a = frame_writer::put_start(out, (total - 4) as u16, x);
    let b = call_lists::put_list(out, a as u16, t, true);
    let c = call_lists::put_list(out, b as u16, t, false);
    frame_writer::put_end(out, c as u16, usage, sak);
    Ok(total)
}
