//! What is wrong with a command on programs.

use crate::maps::pin_hint;
use bt_mapkind::Errno;
use bt_syntax::{FileText, Object, ProgCommand, file_at};
use console_answer::Fault;
use console_hint::{Absent, Hint, are_digits, decode_hint, object_fault, verify_hint};

// What is wrong with the bytes of a program that was refused so.
fn code_hint<'a>(bytes: &[u8], fault: Fault) -> Option<Hint<'a>> {
    let code = match fault {
        Fault::Decode(fault) => decode_hint(bytes, fault),
        Fault::Verify(fault) => verify_hint(bytes, fault),
        _ => return None,
    };
    match object_fault(bytes) {
        Some(fault) => Some(Hint::Object(fault)),
        None => Some(Hint::Code(code)),
    }
}

/// What is wrong with a program that was not loaded for no errno: its bytes are not good, or digits stand in place of a path.
pub fn load_hint<'a>(files: &[FileText], object: &'a Object, fault: Fault) -> Option<Hint<'a>> {
    let path = match object {
        Object::Hex(bytes) => return code_hint(bytes.as_slice(), fault),
        Object::File(path) => path.as_slice(),
    };
    match (file_at(files, path), fault) {
        (Some(bytes), _) => code_hint(bytes, fault),
        (None, Fault::NoFile) if are_digits(path) => Some(Hint::Digits(path)),
        _ => None,
    }
}

/// What is wrong with a command on programs that was refused with this errno.
pub fn prog_hint(command: &ProgCommand, errno: Errno) -> Option<Hint<'_>> {
    match (command, errno) {
        (
            ProgCommand::Show { prog: Some(prog) }
            | ProgCommand::Dump { prog }
            | ProgCommand::Pin { prog, .. },
            Errno::ENOENT,
        ) => Some(Hint::Absent(Absent::Prog(prog))),
        (ProgCommand::Pin { path, .. } | ProgCommand::Load { path, .. }, _) => {
            pin_hint(path, errno)
        }
        _ => None,
    }
}
