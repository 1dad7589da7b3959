//! Calls by chance, and what is noted of them.

use crate::host::{first_key, write};
use bt_desk::{Answer, Event};
use bt_mapkind::{MapReply, Query};
use host_state::{Ask, AskReply, Refusal, Reply};
use host_words::{NoMemory, Word};
use std::alloc::Global;

/// What a call asks for.
#[derive(Clone, Copy, PartialEq, Eq, Debug)]
pub enum Move {
    Write(u8),
    Look,
    Mark(u8),
    UndoTo(u8),
    UndoLast,
    Redo,
    Without(u64),
}

/// A call, its position in the history, and what was told.
#[derive(Clone, Copy, Debug)]
pub struct Call {
    pub place: u64,
    pub made: Move,
    pub told: Option<u64>,
}

/// Numbers that look drawn by chance (Marsaglia's xorshift).
#[derive(Drop)]
pub struct Chance {
    state: u64,
    serials: u64,
}

impl Chance {
    /// From a seed; none is 0.
    pub fn new(seed: u64) -> Chance {
        Chance {
            state: seed | 1 << 40,
            serials: 1,
        }
    }

    fn next(&mut self) -> u64 {
        let mut state = self.state;
        state ^= state << 13;
        state ^= state >> 7;
        state ^= state << 17;
        self.state = state;
        state
    }

    /// The next call: a write in half of the cases.
    pub fn next_move(&mut self) -> Move {
        let drawn = self.next();
        let byte = (drawn >> 8 & 0xff) as u8;
        match drawn % 16 {
            0 => Move::Mark(byte % 8),
            1 => Move::UndoTo(byte % 8),
            2 | 3 => Move::UndoLast,
            4 | 5 => Move::Redo,
            6 => {
                self.serials = self.serials.wrapping_add(drawn >> 16 & 0xff);
                Move::Without(self.serials)
            }
            7 => Move::Look,
            _ => Move::Write(byte),
        }
    }
}

/// What asks for the array's byte.
pub fn question(alloc: Global) -> Ask {
    Ask::Map {
        id: 1,
        query: Query::Lookup(first_key(alloc)),
    }
}

// The name of a mark.
fn letter(alloc: Global, number: u8) -> Option<Word> {
    Word::new(alloc, &[b'a' + number % 26]).ok()
}

impl Move {
    /// The event of the call; none for lack of memory.
    pub fn event<K>(&self, alloc: Global) -> Option<Event<K>> {
        Some(match *self {
            Move::Write(byte) => Event::Record(write(alloc, &[byte])?, None),
            Move::Look => Event::Ask(question(alloc)),
            Move::Mark(number) => Event::Mark(letter(alloc, number)?),
            Move::UndoTo(number) => Event::UndoTo(letter(alloc, number)?),
            Move::UndoLast => Event::UndoLast,
            Move::Redo => Event::Redo,
            Move::Without(serial) => Event::Without(serial),
        })
    }
}

/// The first byte of the value that was found.
pub fn byte_of(told: &Result<AskReply, NoMemory>) -> Option<u8> {
    match told {
        Ok(AskReply::Answered(MapReply::Found { key: _, value })) => {
            value.as_slice().first().copied()
        }
        _ => None,
    }
}

// The serial of a change that was recorded.
fn serial_of(told: &Result<(u64, Reply), Refusal>) -> Option<u64> {
    match told {
        Ok((serial, _)) => Some(*serial),
        Err(_) => None,
    }
}

// 0 if a call was accepted.
fn zero(is_accepted: bool) -> Option<u64> {
    if is_accepted { Some(0) } else { None }
}

/// The number in an answer, which tells an accepted call from a refused one.
pub fn told(answer: &Answer) -> Option<u64> {
    match answer {
        Answer::Recorded(told) => serial_of(told),
        Answer::TakenOut(told) => told.as_ref().ok().copied(),
        Answer::UndoneTo(told) => told.as_ref().ok().copied(),
        Answer::Marked(told) => zero(told.is_ok()),
        Answer::UndoneLast(told) => zero(told.is_ok()),
        Answer::Redone(told) => zero(told.is_ok()),
        Answer::Asked(told) => byte_of(told).map(u64::from),
        _ => None,
    }
}
