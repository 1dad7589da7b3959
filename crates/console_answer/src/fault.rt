//! What goes wrong in a line of a script. The text of each fault is in `console_text/src/fault_text.rt`.

ghost use Rattle.std.specs.Prelude.{◌≡◌};
ghost use Rattle.console_answer.specs.Answers.{fault_of, mark_fault_of, redo_fault_of, forget_fault_of, undo_fault_of, without_fault_of, start_fault_of, decode_fault_of, verify_fault_of, syntax_fault_of};

use bt_insn::DecodeFault;
use bt_mapkind::Errno;
use bt_syntax::SyntaxFault;
use bt_verify::VerifyFault;
use host_state::Refusal;
use journal_model::{ForgetFault, MarkFault, RedoFault, StartFault, UndoFault, WithoutFault};

/// Why a line is refused.
#[derive(Clone, Copy, PartialEq, Eq, Debug)]
pub enum Fault {
    /// An error of the bpf system call (bpf(2)).
    Errno(Errno),
    /// No well-formed line begins with the first so many words, or the line ends before this one.
    Syntax(usize),
    /// The line has more than 131,072 bytes.
    TooLong,
    /// Several live maps, or several live programs, have the name by which one is referred to.
    Ambiguous,
    /// As many moments are in force as may be, and the oldest cannot join the base: a moment in force took its
    /// change out, or it is the one to take out.
    JournalFull,
    /// The charges of the maps would go past the host's budget.
    BudgetFull,
    /// The last serial was given.
    SerialsSpent,
    /// The last id was given.
    IdsSpent,
    /// The supplier has no box for this line, or its box is not of these attributes and charge.
    WrongBlank,
    /// An allocation failed.
    NoMemory,
    /// No mark of this name stands.
    NoMark,
    /// The mark of this name was given up with the moments before it, as the journal keeps no more.
    MarkForgotten,
    /// A mark of this name stands.
    MarkTaken,
    /// No moment is in force.
    NothingToUndo,
    /// No moment is undone.
    NothingToRedo,
    /// The moments that were undone last were given up by the change of this serial.
    RedoLost(u64),
    /// The taking out of this serial, later than the mark, took out a change from before it.
    StillTakenOut(u64),
    /// No change in force has this serial.
    NotInForce,
    /// Without it, the change of this serial would be the first to answer otherwise.
    DependsOn(u64),
    /// No run of this number is open.
    NoRun,
    /// As many runs are open as may be, or the last number was given.
    RunsFull,
    /// No file of this path is at hand.
    NoFile,
    /// A line of a batch runs a batch.
    NestedBatch,
    /// The bytes of a program are no instructions.
    Decode(DecodeFault),
    /// The instructions of a program may do what they must not.
    Verify(VerifyFault),
}

impl Fault {
    /// Why a change is refused, from what the book answers.
    pub fn of_refusal(refusal: Refusal) -> Fault
        ensures { result ≡ fault_of refusal }
    {
        match refusal {
            Refusal::Errno(errno) => Fault::Errno(errno),
            Refusal::NoMemory => Fault::NoMemory,
            Refusal::JournalFull => Fault::JournalFull,
            Refusal::BudgetFull => Fault::BudgetFull,
            Refusal::SerialsSpent => Fault::SerialsSpent,
            Refusal::IdsSpent => Fault::IdsSpent,
            Refusal::WrongBlank => Fault::WrongBlank,
        }
    }

    /// Why a mark is not made: a name that is none is an argument of the wrong form.
    pub fn of_mark(fault: MarkFault) -> Fault
        ensures { result ≡ mark_fault_of fault }
    {
        match fault {
            MarkFault::BadName => Fault::Errno(Errno::EINVAL),
            MarkFault::MarkTaken => Fault::MarkTaken,
            MarkFault::NoMemory => Fault::NoMemory,
        }
    }

    pub(crate) fn of_undo(fault: UndoFault) -> Fault
        ensures { result ≡ undo_fault_of fault }
    {
        match fault {
            UndoFault::NoMark => Fault::NoMark,
            UndoFault::MarkForgotten => Fault::MarkForgotten,
        }
    }

    pub(crate) fn of_forget(fault: ForgetFault) -> Fault
        ensures { result ≡ forget_fault_of fault }
    {
        match fault {
            ForgetFault::NoMark => Fault::NoMark,
            ForgetFault::MarkForgotten => Fault::MarkForgotten,
            ForgetFault::StillTakenOut(serial) => Fault::StillTakenOut(serial),
        }
    }

    pub(crate) fn of_redo(fault: RedoFault) -> Fault
        ensures { result ≡ redo_fault_of fault }
    {
        match fault {
            RedoFault::NothingToRedo => Fault::NothingToRedo,
            RedoFault::RedoLost(serial) => Fault::RedoLost(serial),
        }
    }

    /// Why a change is not taken out alone.
    pub fn of_without(fault: WithoutFault) -> Fault
        ensures { result ≡ without_fault_of fault }
    {
        match fault {
            WithoutFault::NotInForce => Fault::NotInForce,
            WithoutFault::SerialsSpent => Fault::SerialsSpent,
            WithoutFault::JournalFull => Fault::JournalFull,
            WithoutFault::DependsOn(serial) => Fault::DependsOn(serial),
            WithoutFault::NoMemory => Fault::NoMemory,
        }
    }

    /// Why a program does not start on a frame.
    pub fn of_start(fault: StartFault) -> Fault
        ensures { result ≡ start_fault_of fault }
    {
        match fault {
            StartFault::NoDevice => Fault::Errno(Errno::ENOENT),
            StartFault::NoMemory => Fault::NoMemory,
        }
    }

    /// Why bytes are no instructions.
    pub fn of_decode(fault: DecodeFault) -> Fault
        ensures { result ≡ decode_fault_of fault }
    {
        match fault {
            DecodeFault::NoMemory => Fault::NoMemory,
            DecodeFault::BadLength
            | DecodeFault::TooLong
            | DecodeFault::BadOpcode(_)
            | DecodeFault::BadField(_)
            | DecodeFault::HalfWide(_) => Fault::Decode(fault),
        }
    }

    /// Why instructions are no program.
    pub fn of_verify(fault: VerifyFault) -> Fault
        ensures { result ≡ verify_fault_of fault }
    {
        match fault {
            VerifyFault::NoMemory => Fault::NoMemory,
            VerifyFault::TooLong
            | VerifyFault::WritesFrame(_)
            | VerifyFault::NoHelper(_)
            | VerifyFault::NoMap(_, _)
            | VerifyFault::JumpOut(_)
            | VerifyFault::IntoWide(_)
            | VerifyFault::BackEdge(_)
            | VerifyFault::FallsOff
            | VerifyFault::Uninit(_, _) => Fault::Verify(fault),
        }
    }

    /// What is wrong with a line that is no command.
    pub fn of_syntax(fault: SyntaxFault) -> Fault
        ensures { result ≡ syntax_fault_of fault }
    {
        match fault {
            SyntaxFault::TooLong => Fault::TooLong,
            SyntaxFault::At(word) => Fault::Syntax(word),
            SyntaxFault::NoMemory => Fault::NoMemory,
        }
    }
}
