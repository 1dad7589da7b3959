//! What is said of a refusal if no fact of the host says more.

ghost use Rattle.std.specs.Prelude.{◌≡◌};
ghost use Rattle.console_hint.specs.Advices.{advice, errno_advice};

use bt_mapkind::Errno;
use console_answer::Fault;

/// What to know of a refusal, if no fact of the host says more.
pub fn advice(fault: Fault) -> &'static str
    ensures { result.now ≡ advice fault }
{
    match fault {
        Fault::Errno(errno) => errno_advice(errno),
        Fault::NoMemory => "an allocation failed; the line changed nothing",
        Fault::TooLong => "a line has at most 131072 bytes",
        Fault::JournalFull =>
            "the journal is full, and its oldest change has to stay: a later moment took it out, or this line would; undo that moment, or `journal forget` up to a mark after it",
        Fault::SerialsSpent => "the last serial was given",
        Fault::IdsSpent => "the last id was given",
        Fault::NoMark =>
            "`journal list` shows the marks; an undo removes those after it, a forgetting those before",
        Fault::MarkForgotten =>
            "moments after this mark were given up to make room, so no undo leads back to it; `journal mark` makes it anew",
        Fault::MarkTaken => "give another name: a mark of this name stands",
        Fault::NothingToUndo => "no moment is in force",
        Fault::NothingToRedo => "no moment was undone",
        Fault::RedoLost(_) =>
            "what was undone was given up under this serial, by a change or a taking out",
        Fault::StillTakenOut(_) => {
            "it took out a change from before the mark; undo it, or forget up to a mark after it"
        }
        Fault::NotInForce => "`journal list` shows the changes in force with their serials",
        Fault::DependsOn(_) => {
            "without it, the change of this serial would answer otherwise: take that one out first"
        }
        Fault::Ambiguous => "several have this name: refer to one by its id",
        Fault::NoRun => "the run has ended, or no run had this number",
        Fault::RunsFull => "64 runs are open: step one of them to its end",
        Fault::NestedBatch => "a line of a batch runs no batch",
        _ => "the line changed nothing",
    }
}

/// What an errno says of a command, if no fact of the host says more.
pub fn errno_advice(errno: Errno) -> &'static str
    ensures { result.now ≡ errno_advice errno }
{
    match errno {
        Errno::EPERM => "the map is frozen: only programs write it",
        Errno::ENOENT => "what the line names is not there",
        Errno::E2BIG => "the map is full, or the index is past its end",
        Errno::ENOMEM => "an allocation failed; the line changed nothing",
        Errno::EBUSY =>
            "it is in use: a device's program is replaced by `overwrite` alone, and a map frozen once",
        Errno::EEXIST => "something is there already",
        Errno::EINVAL =>
            "an argument does not suit: a flag, an inner map, or what the map's type has not",
        Errno::ENOSPC => "the LPM trie is full",
    }
}
