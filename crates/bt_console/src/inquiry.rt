//! What a command asks of one map.

ghost use Rattle.std.specs.Prelude.{◌≡◌};
ghost use Rattle.bt_console.specs.Commands.{look_up_query, question_of, inquiry_answer};

use bt_mapkind::{Bytes, Query};
use bt_syntax::DataBytes;
use console_answer::Answer;
use host_state::{Ask, AskReply};

/// A question to a map that is not found yet.
#[derive(Debug, Drop)]
pub enum Inquiry {
    /// What stands under a key; without one, the next item of a queue or a stack.
    LookUp { key: Option<DataBytes> },
    /// The key after this one, or the first.
    Next { key: Option<DataBytes> },
    /// All that it holds.
    Dump,
    /// What is shown of it.
    Show,
}

/// The question that a look-up is; without a key that for the next item of a queue or a stack.
fn look_up_query(key: &Option<DataBytes>) -> Query
    ensures { result ≡ look_up_query key.now }
{
    match key {
        Some(key) => Query::Lookup(key.bytes()),
        None => Query::Peek,
    }
}

fn bytes_of(key: &Option<DataBytes>) -> Option<Bytes>
    ensures { result ≡ key.now }
{
    match key {
        Some(key) => Some(key.bytes()),
        None => None,
    }
}

/// The question to the map of this id.
pub fn question_of(id: u32, inquiry: &Inquiry) -> Ask
    ensures { result ≡ question_of id inquiry.now }
{
    match inquiry {
        Inquiry::LookUp { key } => Ask::Map {
            id,
            query: look_up_query(key),
        },
        Inquiry::Next { key } => Ask::Map {
            id,
            query: Query::Next(bytes_of(key)),
        },
        Inquiry::Dump => Ask::Dump { id },
        Inquiry::Show => Ask::Maps { only: Some(id) },
    }
}

/// The answer to it, from what the book answers.
pub fn inquiry_answer(inquiry: Inquiry, told: AskReply) -> Answer
    ensures { result ≡ inquiry_answer inquiry told }
{
    match inquiry {
        Inquiry::LookUp { key } => Answer::of_look_up(key, told),
        Inquiry::Next { key: _ } => Answer::of_next(told),
        Inquiry::Dump => Answer::of_dump(told),
        Inquiry::Show => Answer::of_shown(told),
    }
}
