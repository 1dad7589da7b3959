//! What a line of a script answers.

ghost use Rattle.std.specs.Prelude.{◌≡◌};
ghost use Rattle.console_answer.specs.Answers.{change_answer, undo_answer, undo_last_answer, redo_answer, forgot_answer, taken_out_answer, look_up_answer, next_answer, shown_answer, dump_answer, progs_answer, code_answer, devices_answer, read_answer, found_under, linked_under};

use crate::fault::Fault;
use bt_insn::Insn;
use bt_interp::End;
use bt_mapkind::{Bytes, Errno, MapReply};
use bt_syntax::DataBytes;
use host_state::{AskReply, DeviceRow, Element, Listing, MapRow, ProgRow, Refusal, Reply};
use host_words::Word;
use journal_model::{
    ForgetFault, JournalList, MarkFault, NothingToUndo, RedoFault, StartFault, UndoFault,
    WithoutFault,
};

/// What a line answers.
#[derive(Debug, Drop)]
pub enum Answer {
    /// A change was recorded under this serial.
    Changed { serial: u64, reply: Reply },
    /// What stands under the key that was asked for.
    Found { key: Bytes, value: Bytes },
    /// The id that stands under the key that was asked for.
    Linked { key: Bytes, id: u32 },
    /// The next item of a queue or a stack.
    Value(Bytes),
    /// Nothing stands under the key that was asked for.
    NotFound,
    /// The key after the one that was asked for.
    NextKey(Bytes),
    /// The key that was asked for is the last one.
    NoNextKey,
    /// Live maps, by ascending id.
    Shown(Listing<MapRow>),
    /// All that a map holds.
    Dumped(Listing<Element>),
    /// Live programs, by ascending id.
    Progs(Listing<ProgRow>),
    /// The instructions of a program.
    Code(Listing<Insn>),
    /// The devices to which a program is attached, in order.
    Devices(Listing<DeviceRow>),
    /// A mark of this name was made.
    Marked(Word),
    /// So many moments were undone.
    Undone(u64),
    /// The first of the moments that were undone is back.
    Redone,
    /// The past before the mark of this name was given up.
    Forgot(Word),
    /// A change was taken out, under this serial.
    TakenOut(u64),
    /// The changes in force, the oldest first, and the marks in order of making.
    Listed(JournalList),
    /// A frame ended so.
    Ended(End),
    /// A run of this number began.
    Started(u64),
    /// The run of this number did an access, and goes on.
    Accessed(u64),
    /// The run of this number ended.
    Stopped { run: u64, end: End },
    /// A batch ended, of which so many lines were accepted.
    Processed(u64),
    /// The line was refused, and changed nothing.
    Refused(Fault),
}

impl Answer {
    /// The answer to a change, from what the book answers.
    pub fn of_change(done: Result<(u64, Reply), Refusal>) -> Answer
        ensures { result ≡ change_answer done }
    {
        match done {
            Ok((serial, reply)) => Answer::Changed { serial, reply },
            Err(refusal) => Answer::Refused(Fault::of_refusal(refusal)),
        }
    }

    /// The answer to an undo back to a mark, from what the book answers.
    pub fn of_undo(undone: Result<u64, UndoFault>) -> Answer
        ensures { result ≡ undo_answer undone }
    {
        match undone {
            Ok(count) => Answer::Undone(count),
            Err(fault) => Answer::Refused(Fault::of_undo(fault)),
        }
    }

    /// The answer to an undo of the last moment, from what the book answers.
    pub fn of_undo_last(undone: Result<(), NothingToUndo>) -> Answer
        ensures { result ≡ undo_last_answer undone }
    {
        match undone {
            Ok(()) => Answer::Undone(1),
            Err(NothingToUndo) => Answer::Refused(Fault::NothingToUndo),
        }
    }

    /// The answer to a forgetting of what came before the mark of this name, from what the book answers.
    pub fn of_forget(name: Word, forgot: Result<(), ForgetFault>) -> Answer
        ensures { result ≡ forgot_answer name forgot }
    {
        match forgot {
            Ok(()) => Answer::Forgot(name),
            Err(fault) => Answer::Refused(Fault::of_forget(fault)),
        }
    }

    /// The answer to a redo, from what the book answers.
    pub fn of_redo(redone: Result<(), RedoFault>) -> Answer
        ensures { result ≡ redo_answer redone }
    {
        match redone {
            Ok(()) => Answer::Redone,
            Err(fault) => Answer::Refused(Fault::of_redo(fault)),
        }
    }

    /// The answer to a taking out: its own serial, not that of the change that was taken out.
    pub fn of_taking_out(taken: Result<u64, WithoutFault>) -> Answer
        ensures { result ≡ taken_out_answer taken }
    {
        match taken {
            Ok(serial) => Answer::TakenOut(serial),
            Err(fault) => Answer::Refused(Fault::of_without(fault)),
        }
    }

    /// The answer to a look-up under this key, or of the next item if there is none, from what the book answers.
    pub fn of_look_up(key: Option<DataBytes>, told: AskReply) -> Answer
        ensures { result ≡ look_up_answer key told }
    {
        match told {
            AskReply::Answered(reply) => Answer::of_read(key, reply),
            AskReply::Refused(errno) => Answer::Refused(Fault::Errno(errno)),
            _ => Answer::Refused(Fault::Errno(Errno::EINVAL)),
        }
    }

    /// The answer to a question for the next key, from what the book answers.
    pub fn of_next(told: AskReply) -> Answer
        ensures { result ≡ next_answer told }
    {
        match told {
            AskReply::Answered(MapReply::Key(key)) => Answer::NextKey(key),
            AskReply::Answered(MapReply::Nothing) => Answer::NoNextKey,
            AskReply::Refused(errno) => Answer::Refused(Fault::Errno(errno)),
            _ => Answer::Refused(Fault::Errno(Errno::EINVAL)),
        }
    }

    /// The answer to a question what maps there are, from what the book answers.
    pub fn of_shown(told: AskReply) -> Answer
        ensures { result ≡ shown_answer told }
    {
        match told {
            AskReply::Maps(rows) => Answer::Shown(rows),
            AskReply::Refused(errno) => Answer::Refused(Fault::Errno(errno)),
            _ => Answer::Refused(Fault::Errno(Errno::EINVAL)),
        }
    }

    /// The answer to a question what a map holds, from what the book answers.
    pub fn of_dump(told: AskReply) -> Answer
        ensures { result ≡ dump_answer told }
    {
        match told {
            AskReply::Dump(elements) => Answer::Dumped(elements),
            AskReply::Refused(errno) => Answer::Refused(Fault::Errno(errno)),
            _ => Answer::Refused(Fault::Errno(Errno::EINVAL)),
        }
    }

    /// The answer to a question what programs there are, from what the book answers.
    pub fn of_progs(told: AskReply) -> Answer
        ensures { result ≡ progs_answer told }
    {
        match told {
            AskReply::Progs(rows) => Answer::Progs(rows),
            AskReply::Refused(errno) => Answer::Refused(Fault::Errno(errno)),
            _ => Answer::Refused(Fault::Errno(Errno::EINVAL)),
        }
    }

    /// The answer to a question for the instructions of a program, from what the book answers.
    pub fn of_code(told: AskReply) -> Answer
        ensures { result ≡ code_answer told }
    {
        match told {
            AskReply::Code(insns) => Answer::Code(insns),
            AskReply::Refused(errno) => Answer::Refused(Fault::Errno(errno)),
            _ => Answer::Refused(Fault::Errno(Errno::EINVAL)),
        }
    }

    /// The answer to a question what is attached to devices, from what the book answers.
    pub fn of_devices(told: AskReply) -> Answer
        ensures { result ≡ devices_answer told }
    {
        match told {
            AskReply::Devices(rows) => Answer::Devices(rows),
            AskReply::Refused(errno) => Answer::Refused(Fault::Errno(errno)),
            _ => Answer::Refused(Fault::Errno(Errno::EINVAL)),
        }
    }

    fn of_read(key: Option<DataBytes>, reply: MapReply) -> Answer
        ensures { result ≡ read_answer key reply }
    {
        match reply {
            MapReply::Nothing => Answer::NotFound,
            MapReply::Value(value) => Answer::Value(value),
            MapReply::Found { key: _, value } => Answer::found_under(key, value),
            MapReply::Link(id) => Answer::linked_under(key, id),
            MapReply::Done => Answer::Refused(Fault::Errno(Errno::EINVAL)),
            MapReply::Key(_) => Answer::Refused(Fault::Errno(Errno::EINVAL)),
            MapReply::Count(_) => Answer::Refused(Fault::Errno(Errno::EINVAL)),
        }
    }

    fn found_under(key: Option<DataBytes>, value: Bytes) -> Answer
        ensures { result ≡ found_under key value }
    {
        match key {
            Some(key) => Answer::Found {
                key: key.bytes(),
                value,
            },
            None => Answer::Refused(Fault::Errno(Errno::EINVAL)),
        }
    }

    fn linked_under(key: Option<DataBytes>, id: u32) -> Answer
        ensures { result ≡ linked_under key id }
    {
        match key {
            Some(key) => Answer::Linked {
                key: key.bytes(),
                id,
            },
            None => Answer::Refused(Fault::Errno(Errno::EINVAL)),
        }
    }
}
