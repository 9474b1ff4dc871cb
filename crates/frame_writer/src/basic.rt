// The EAPOL header and the Basic set.
ghost use Rattle.std.specs.Prelude.{◌≡◌, ◌+◌, ◌≤◌, length};
ghost use Rattle.std.proofs.lemmas.List.Edits.{sets};
ghost use Rattle.frame_writer.specs.Frame.{header_octets, fixed_octets, ckn_octets, basic_octets};

use crate::Sender;
use base_facts::AGILITY;
use base_packed::basic::Flags;

pub(crate) fn put_header(out: &mut [u8], body: u16)
    ensures { out.new ≡ sets out.old 0 (header_octets body) }
{
    base_octets::put_octet(out, 0, 3);
    base_octets::put_octet(out, 1, 5);
    base_octets::put_u16(out, 2, body);
}

fn put_fixed(out: &mut [u8], x: &Sender, n: u8)
    requires { n ≤ 32 }
    ensures { out.new ≡ sets out.old 4 (fixed_octets x.now n) }
{
    let f = Flags {
        server: x.server,
        desired: x.desired,
        capability: x.capability,
        high: 0,
    };
    base_octets::put_octet(out, 4, 1);
    base_octets::put_octet(out, 5, x.priority);
    base_octets::put_octet(out, 6, u8::from(f));
    base_octets::put_octet(out, 7, 28 + n);
    base_octets::put_u64(out, 8, x.sci);
    base_mi::put_mi(out, 16, x.mi);
    base_octets::put_u32(out, 28, x.mn);
    base_octets::put_u32(out, 32, AGILITY);
}

// The CKN with its padding, at 36.
fn put_ckn(out: &mut [u8], ckn: &[u8])
    requires { length ckn.now ≤ 32 }
    ensures { out.new ≡ sets out.old 36 (ckn_octets ckn.now) }
{
    base_runs::put_all(out, 36, ckn);
    let n = ckn.len();
    base_runs::put_zeros(out, 36 + n, (n.next_multiple_of(4) - n) as u16);
}

// The place after the set.
pub(crate) fn put_basic(out: &mut [u8], x: &Sender) -> usize
    ensures { (result ≡ 4 + length (basic_octets x.now)) × (out.new ≡ sets out.old 4 (basic_octets x.now)) }
{
    let ckn = &x.ckn[..x.size.min(32)];
    let n = ckn.len();
    put_fixed(out, x, n as u8);
    put_ckn(out, ckn);
    36 + n.next_multiple_of(4)
}
