//! What is wrong with a command, whatever it is of.

ghost use Rattle.std.specs.Prelude.{◌≡◌};

use crate::journal::journal_hint;
use crate::maps::{budget_hint, map_hint};
use crate::objects::{has_device, has_prog};
use crate::programs::{load_hint, prog_hint};
use bt_journal::Book;
use bt_mapkind::{Errno, MapKind};
use bt_syntax::{
    Command, FileText, JournalCommand, MapCommand, NetCommand, ProgCommand, RunCommand,
};
use console_answer::{Abort, Fault, Mishap};
use console_hint::{Absent, Hint, Misstep, advice, insn_at, name_fault};
use host_state::{Ask, AskReply};
use host_words::{NoMemory, Word};

/// What is said of a refused line if memory is lacking to say more.
pub const NOTHING_CHANGED: &str = "the line changed nothing";

/// What is said of a program that ended and decided nothing.
pub const NO_ACTION: &str =
    "the program returned 0, or a number above 4, which is no action: XDP_DROP is 1, XDP_PASS 2, XDP_TX 3 and XDP_REDIRECT 4";

// What is not there for a command on devices.
fn net_hint<'a, K: MapKind>(
    book: &mut Book<K>,
    command: &'a NetCommand,
) -> Result<Option<Absent<'a>>, NoMemory>
    ensures { book.new.plain ≡ book.old.plain }
{
    match command {
        NetCommand::Show { device } => match device {
            Some(device) => Ok(Some(Absent::Device(device.as_slice()))),
            None => Ok(None),
        },
        NetCommand::Attach { prog, device, .. } => {
            if has_prog(book, prog)? {
                Ok(Some(Absent::Device(device.as_slice())))
            } else {
                Ok(Some(Absent::Prog(prog)))
            }
        }
        NetCommand::Detach { device } => Ok(Some(absent_at(book, device)?)),
    }
}

// What is not there for a frame: the device, or a program at it.
fn absent_at<'a, K: MapKind>(book: &mut Book<K>, device: &'a Word) -> Result<Absent<'a>, NoMemory>
    ensures { book.new.plain ≡ book.old.plain }
{
    if has_device(book, device)? {
        Ok(Absent::Attached(device.as_slice()))
    } else {
        Ok(Absent::Device(device.as_slice()))
    }
}

// What the errno of a mark says of its name.
fn mark_hint<'a>(name: &Word) -> Option<Hint<'a>> {
    match name_fault(name.as_slice()) {
        Some(fault) => Some(Hint::Name(fault)),
        None => None,
    }
}

// That something is not there.
fn absent_hint(absent: Option<Absent<'_>>) -> Option<Hint<'_>> {
    match absent {
        Some(absent) => Some(Hint::Absent(absent)),
        None => None,
    }
}

// What is wrong with a command that was refused with this errno.
fn errno_hint<'a, K: MapKind>(
    book: &mut Book<K>,
    command: &'a Command,
    errno: Errno,
) -> Result<Option<Hint<'a>>, NoMemory>
    ensures { book.new.plain ≡ book.old.plain }
{
    match (command, errno) {
        (Command::Map(command), _) => map_hint(book, command, errno),
        (Command::Prog(command), _) => Ok(prog_hint(command, errno)),
        (Command::Net(command), Errno::ENOENT) => Ok(absent_hint(net_hint(book, command)?)),
        (Command::Net(_), Errno::EBUSY) => Ok(Some(Hint::Plain(
            "a program is attached to the device: `overwrite` replaces it",
        ))),
        (Command::Unpin(path), Errno::ENOENT) => {
            Ok(Some(Hint::Absent(Absent::Pin(path.as_slice()))))
        }
        (Command::Frame(frame) | Command::Run(RunCommand::Start(frame)), Errno::ENOENT) => {
            Ok(Some(Hint::Absent(absent_at(book, &frame.device)?)))
        }
        (Command::Journal(JournalCommand::Mark(name)), Errno::EINVAL) => Ok(mark_hint(name)),
        _ => Ok(None),
    }
}

// What is wrong with a command that was refused with no errno.
fn other_hint<'a, K: MapKind>(
    book: &Book<K>,
    files: &[FileText],
    command: &'a Command,
    fault: Fault,
) -> Result<Option<Hint<'a>>, NoMemory> {
    match (command, fault) {
        (Command::Map(MapCommand::Create { attr, .. }), Fault::BudgetFull) => {
            Ok(Some(budget_hint(book, *attr)))
        }
        (Command::Prog(ProgCommand::Load { object, .. }), _) => {
            Ok(load_hint(files, object, fault))
        }
        (Command::Journal(_), _) => journal_hint(book, fault),
        _ => Ok(None),
    }
}

// What is wrong with a command that was refused so, if a fact of the host says it.
fn fault_hint<'a, K: MapKind>(
    book: &mut Book<K>,
    files: &[FileText],
    command: &'a Command,
    fault: Fault,
) -> Result<Option<Hint<'a>>, NoMemory>
    ensures { book.new.plain ≡ book.old.plain }
{
    match fault {
        Fault::Errno(errno) => errno_hint(book, command, errno),
        _ => other_hint(book, files, command, fault),
    }
}

// What is wrong with a command that was refused so.
fn refusal_hint<'a, K: MapKind>(
    book: &mut Book<K>,
    files: &[FileText],
    command: &'a Command,
    fault: Fault,
) -> Hint<'a>
    ensures { book.new.plain ≡ book.old.plain }
{
    match fault_hint(book, files, command, fault) {
        Ok(Some(hint)) => hint,
        Ok(None) => Hint::Plain(advice(fault)),
        Err(_) => Hint::Plain(NOTHING_CHANGED),
    }
}

// What a program did that aborted it, with its instruction if it is still live.
fn misstep<K: MapKind>(book: &mut Book<K>, abort: Abort) -> Misstep
    ensures { book.new.plain ≡ book.old.plain }
{
    let told = book.ask(&Ask::Code { id: abort.prog });
    let insn = match &told {
        Ok(AskReply::Code(insns)) => insn_at(insns.as_slice(), abort.slot),
        _ => None,
    };
    Misstep { abort, insn }
}

/// What went wrong with a command; if memory is lacking to ask the host, that a refused line changed nothing, and of a
/// program that was aborted the reason alone. `files` are those that its line names.
pub fn hint_of<'a, K: MapKind>(
    book: &mut Book<K>,
    files: &[FileText],
    command: &'a Command,
    mishap: Mishap,
) -> Hint<'a>
    ensures { book.new.plain ≡ book.old.plain }
{
    match mishap {
        Mishap::Aborted(abort) => Hint::Aborted(misstep(book, abort)),
        Mishap::NoAction => Hint::Plain(NO_ACTION),
        Mishap::Refused(fault) => refusal_hint(book, files, command, fault),
    }
}
