//! The texts of devices shown, written without memory.

ghost use Rattle.std.specs.Prelude.{OnErr};
ghost use Rattle.std.specs.List.{flat_map};
ghost use Rattle.console_text.specs.Written.{Writes};
ghost use Rattle.console_text.specs.Text.{attached_text, device_text};

use crate::output::{Output, WriteFault};
use crate::piece::{Piece, put_pieces};
use host_state::DeviceRow;

fn put_attached<W: Output>(
    out: &mut W,
    name: &[u8],
    ifindex: u32,
    prog: u32,
) -> Result<(), WriteFault>
    ensures text { Writes (W.contents out.old) (W.contents out.new) result (attached_text name.now ifindex prog) }
    ensures refused { OnErr result (W.has_refused out.new) }
{
    put_pieces(
        out,
        &[
            Piece::Word(name),
            Piece::Plain(b"("),
            Piece::Number(u64::from(ifindex)),
            Piece::Plain(b") id "),
            Piece::Number(u64::from(prog)),
            Piece::Plain(b"\n"),
        ],
    )
}

fn put_device<W: Output>(out: &mut W, row: &DeviceRow) -> Result<(), WriteFault>
    ensures text { Writes (W.contents out.old) (W.contents out.new) result (device_text row.now) }
    ensures refused { OnErr result (W.has_refused out.new) }
{
    put_attached(out, row.name.as_slice(), row.ifindex, row.prog)
}

/// Writes what is shown of devices, one a line.
pub fn put_devices<W: Output>(out: &mut W, rows: &[DeviceRow]) -> Result<(), WriteFault>
    ensures text { Writes (W.contents out.old) (W.contents out.new) result (flat_map device_text rows.now) }
    ensures refused { OnErr result (W.has_refused out.new) }
{
    for row in rows {
        match put_device(out, row) {
            Ok(()) => {}
            Err(fault) => return Err(fault),
        }
    }
    Ok(())
}
