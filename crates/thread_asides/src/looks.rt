//! What a line asks that only looks at the journal of a desk, told and written.

ghost use Rattle.std.specs.Prelude.{◌≡◌, OnOk, OnErr, Err};
ghost use Rattle.std.specs.Io.KnownBytes.{Appends};
ghost use Rattle.thread_lock.specs.Seats.{calls_left};
ghost use Rattle.bt_desk.specs.Seats.{IsSeatAt};
ghost use Rattle.console_looks.specs.Answered.{looked_text};
ghost use Rattle.thread_asides.specs.Looked.{ShowsAt, TellsLookAt};

use crate::looked::{show_at, tell_dry_at};
use bt_desk::{Desk, Seat};
use bt_mapkind::MapKind;
use console_looks::{Look, Showing, put_looked};
use console_text::{Output, WriteFault};
use host_words::NoMemory;
use std::sync::Wait;

/// Why a line did not look.
#[derive(Clone, Copy, PartialEq, Eq, Debug)]
pub enum LookFault {
    /// A write or a flush failed, or took no byte.
    Write,
    /// The seat has no calls left, and nothing was written.
    Spent,
}

// Writes what was looked at for a serial, and has it stand on the output when it returns.
fn put_now<W: Output>(looked: &Result<Showing, NoMemory>, out: &mut W) -> Result<(), WriteFault>
    ensures text { OnOk result (Appends (W.contents out.old) (W.contents out.new) (looked_text looked.now)) }
    ensures refused { OnErr result (W.has_refused out.new) }
{
    match put_looked(out, looked) {
        Ok(()) => {}
        Err(fault) => return Err(fault),
    }
    match out.flush_all() {
        Ok(()) => Ok(()),
        Err(fault) => Err(fault),
    }
}

// Shows the change of a serial, as the journal is in one call of the desk.
fn show_now<K: MapKind, R: Wait, W: Output>(
    rt: &R,
    desk: &Desk<K>,
    looker: &mut Seat<K>,
    serial: u64,
    out: &mut W,
) -> Result<(), LookFault>
    requires { IsSeatAt desk.now looker.old }
    ensures looker { IsSeatAt desk.now looker.new }
    ensures shown { OnOk result (ShowsAt desk.now serial looker.old looker.new (W.contents out.old) (W.contents out.new)) }
    ensures spent { result ≡ Err LookFault.Spent → calls_left looker.old ≡ 0 }
    ensures refused { result ≡ Err LookFault.Write → W.has_refused out.new }
{
    let looked = match show_at(rt, desk, looker, serial) {
        Ok(looked) => looked,
        Err(_) => return Err(LookFault::Spent),
    };
    match put_now(&looked, out) {
        Ok(()) => Ok(()),
        Err(_) => Err(LookFault::Write),
    }
}

/// Does what a line asks that only looks at the journal, in one call of a desk by this seat. The change of a serial is written, and
/// stands on the output when it returns; what an undo would take back is told on standard error.
///
/// # Errors
/// `Write` if the change is not written, and `Spent` if the seat has no calls left to look at it.
pub fn look_at<K: MapKind, R: Eprint + AllocGlobal + Wait, W: Output>(
    rt: &R,
    desk: &Desk<K>,
    looker: &mut Seat<K>,
    look: &Look<'_>,
    out: &mut W,
) -> Result<(), LookFault>
    requires { IsSeatAt desk.now looker.old }
    ensures looker { IsSeatAt desk.now looker.new }
    ensures told { OnOk result (TellsLookAt desk.now look.now looker.old looker.new (W.contents out.old) (W.contents out.new)) }
    ensures spent { result ≡ Err LookFault.Spent → calls_left looker.old ≡ 0 }
    ensures refused { result ≡ Err LookFault.Write → W.has_refused out.new }
{
    match look {
        Look::Show(serial) => show_now(rt, desk, looker, *serial, out),
        Look::DryUndo(mark) => {
            tell_dry_at(rt, "bpfcon", desk, looker, mark);
            Ok(())
        }
    }
}
