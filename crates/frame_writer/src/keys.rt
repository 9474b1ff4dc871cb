// The SAK Use set and the Distributed SAK set.
ghost use Rattle.std.specs.Prelude.{◌≡◌, ◌+◌, ◌<◌, ◌^◌, length};
ghost use Rattle.std.proofs.lemmas.List.Edits.{sets};
ghost use Rattle.frame_writer.specs.Frame.{use_flags, use_octets, use_part, sak_part};

use crate::{Sak, lists};
use base_packed::sak::SakFlags;
use base_packed::used::{KeyFlags, Used};
use frame_sets::kinds::{KeyUse, SakUse};

fn key_flags(k: KeyUse) -> KeyFlags
    ensures { result ≡ use_flags k }
{
    KeyFlags {
        an: k.an,
        transmit: k.transmit,
        receive: k.receive,
    }
}

fn put_key(out: &mut [u8], at: usize, k: KeyUse)
    requires { at < 2 ^ 63 }
    ensures { out.new ≡ sets out.old at (use_octets k) }
{
    base_mi::put_mi(out, at, k.mi);
    base_octets::put_u32(out, at + 12, k.kn);
    base_octets::put_u32(out, at + 16, k.pn);
}

// The place after the set, if the frame has one.
pub(crate) fn put_use(out: &mut [u8], at: usize, usage: Option<SakUse>) -> usize
    requires { at < 2 ^ 62 }
    ensures { (result ≡ at + length (use_part usage)) × (out.new ≡ sets out.old at (use_part usage)) }
{
    let Some(u) = usage else {
        return at;
    };
    let flags = u8::from(Used {
        latest: key_flags(u.latest),
        old: key_flags(u.old),
    });
    lists::put_set_header(out, at, 3, flags, 40);
    put_key(out, at + 4, u.latest);
    put_key(out, at + 24, u.old);
    at + 44
}

// The place after the set, if the frame has one.
pub(crate) fn put_sak(out: &mut [u8], at: usize, sak: Option<Sak>) -> usize
    requires { at < 2 ^ 62 }
    ensures { (result ≡ at + length (sak_part sak)) × (out.new ≡ sets out.old at (sak_part sak)) }
{
    let Some(k) = sak else {
        return at;
    };
    let flags = u8::from(SakFlags {
        an: k.an,
        confidentiality: k.confidentiality,
    });
    lists::put_set_header(out, at, 4, flags, 28);
    base_octets::put_u32(out, at + 4, k.kn);
    base_runs::put_all(out, at + 8, &k.wrapped);
    at + 32
}
