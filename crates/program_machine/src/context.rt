//! The context of an XDP program.

ghost use Rattle.std.specs.Prelude.{◌≡◌, true, IfSome};
ghost use Rattle.program_machine.specs.Context as context;
ghost use Rattle.program_machine.specs.Held.{is_bare, held_if};

use crate::kind::Kind;

/// The field of `xdp_md` at this offset, for a frame of `size` bytes that came in at this interface: `data`,
/// `data_end`, `data_meta` (where the data begins), `ingress_ifindex`, `rx_queue_index` (0).
pub fn context_field(size: usize, ifindex: u32, offset: u64) -> Option<Kind>
    ensures value { held_if result ≡ context.field_at size ifindex offset }
    ensures bare { IfSome result (λ kind. is_bare kind ≡ true) }
{
    match offset {
        0 | 8 => Some(Kind::Frame(0)),
        4 => Some(Kind::Frame(size as u64)),
        12 => Some(Kind::Number(u64::from(ifindex))),
        16 => Some(Kind::Number(0)),
        _ => None,
    }
}
