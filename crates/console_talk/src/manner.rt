//! How lines are asked for.

ghost use Rattle.std.specs.Prelude.{◌≡◌, ◌<◌, ◌↔◌, ◌∷◌, [], false, IsTrue, length};
ghost use Rattle.std.specs.List.{list_any};
ghost use Rattle.console_operand.specs.Word.{words, ends_word};
ghost use Rattle.console_talk.specs.Talk.{HasFirst, AsksForHelp, Asks, looks, EndsDialogue, Ends};

use console_input::Terminal;
use console_looks::{Look, look_of};
use console_operand::{behind_word, first_word};

const PROMPT: &str = "bpfcon> ";

/// How lines are asked for.
#[derive(Clone, Copy, PartialEq, Eq, Debug)]
pub enum Manner {
    /// Silently, up to the end of the input.
    Script,
    /// By a prompt on standard error, up to the end of the input or a line `quit` or `exit`, with help if a line asks for it, and with
    /// looks into the journal.
    Dialogue,
}

/// Whether a line has this word alone.
pub fn is_alone(line: &[u8], word: &[u8]) -> bool
    requires some { 0 < length word.now }
    requires letters { list_any ends_word word.now ≡ false }
    ensures { IsTrue result ↔ (words line.now ≡ word.now ∷ []) }
{
    match behind_word(line, word) {
        Some(rest) => first_word(rest).is_none(),
        None => false,
    }
}

// Whether a line ends a dialogue: it has the word `quit` or `exit` alone.
fn is_end(line: &[u8]) -> bool
    ensures { IsTrue result ↔ EndsDialogue line.now }
{
    if is_alone(line, b"quit") {
        return true;
    }
    is_alone(line, b"exit")
}

// Whether this word is the first of a line.
fn begins_with(line: &[u8], word: &[u8]) -> bool
    requires some { 0 < length word.now }
    requires letters { list_any ends_word word.now ≡ false }
    ensures { IsTrue result ↔ HasFirst (words line.now) word.now }
{
    match behind_word(line, word) {
        Some(_) => true,
        None => false,
    }
}

// Whether a line asks for help: its first word is `help` or `?`.
fn is_question(line: &[u8]) -> bool
    ensures { IsTrue result ↔ AsksForHelp line.now }
{
    if begins_with(line, b"help") {
        return true;
    }
    begins_with(line, b"?")
}

impl Manner {
    /// What may stand at the front of a line beside commands.
    pub fn beside(self) -> &'static str {
        match self {
            Manner::Script => "",
            Manner::Dialogue => "help, quit",
        }
    }

    /// Whether a line asks for help: in a dialogue, if its first word is `help` or `?`.
    pub fn is_asked_by(self, line: &[u8]) -> bool
        ensures { IsTrue result ↔ Asks self line.now }
    {
        match self {
            Manner::Script => false,
            Manner::Dialogue => is_question(line),
        }
    }

    /// The look into the journal for which a line asks; in a script none does.
    pub fn look_in(self, line: &[u8]) -> Option<Look<'_>>
        ensures { result ≡ looks self line.now }
    {
        match self {
            Manner::Script => None,
            Manner::Dialogue => look_of(line),
        }
    }

    /// Whether a line ends the talk: in a dialogue, if it has the word `quit` or `exit` alone.
    pub fn is_ended_by(self, line: &[u8]) -> bool
        ensures { IsTrue result ↔ Ends self line.now }
    {
        match self {
            Manner::Script => false,
            Manner::Dialogue => is_end(line),
        }
    }

    /// Says on standard error to somebody who types that lines are read, and how to leave.
    pub fn greet<R: Terminal + Eprint>(self, rt: &R) {
        if !rt.is_typed() {
            return;
        }
        let _ = match self {
            Manner::Script => rt.eprintln(
                "bpfcon: type commands, a line each, and Ctrl-D at the end; `bpfcon shell` asks for each line",
            ),
            Manner::Dialogue => {
                rt.eprintln("bpfcon: `help` lists the commands, and `quit` or Ctrl-D leaves")
            }
        };
    }

    /// Asks for a line on standard error, if lines are asked for.
    pub fn ask<R: Eprint>(self, rt: &R) {
        match self {
            Manner::Script => {}
            Manner::Dialogue => {
                let _ = rt.eprint(PROMPT);
            }
        }
    }
}
